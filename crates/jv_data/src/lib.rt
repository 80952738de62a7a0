//! Transactions on the bytes of files: looks, numbers for new slices, commits of their records, truncates and copies. No
//! block is read or written.
//!
//! After a refusal, after a keeper that failed, and out of memory the rows are as they were.
#![tactic(auto)]

mod committing;
mod copying;
mod looking;
mod numbering;
mod resizing;
mod truncating;

pub use committing::commit;
pub use copying::copy_range;
pub use looking::{View, look};
pub use numbering::next_id;
pub use truncating::truncate;
