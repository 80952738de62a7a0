//! The open files of a client, and what each of them saw of the windows of its file.
#![tactic(auto)]

mod handle;
mod table;
mod views;

pub use handle::Handle;
pub use table::{
    clear, drop_view, forget_views, free_handle, held, inode_at, is_open_elsewhere, named,
    open_count, set, set_view,
};
pub use views::{View, Views};
