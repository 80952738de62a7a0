//! Transactions on entries: unlink, rmdir, link and rename, each one commit or none (POSIX.1-2017, and docs/MODEL.md).
//!
//! Each call is refused with the faults of its operation, in their order. A refusal, a keeper that failed, and running out of memory
//! leave the rows as they were.
#![tactic(auto)]

mod climbing;
mod emptiness;
mod ends;
mod exchanging;
mod fates;
mod linking;
mod moving;
mod removing;
mod renaming;
mod replacing;

pub use fates::{Fate, Removed};
pub use linking::link;
pub use removing::{rmdir, unlink};
pub use renaming::rename;
