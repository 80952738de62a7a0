//! The bytes of a part of a window, put together from the blocks that it needs, one block at a time.
#![tactic(auto)]

mod copying;
mod laws;
mod table;
mod window;

pub use laws::{blocks_are_known, named_are_there, reads_go_on};
pub use window::WindowRead;
