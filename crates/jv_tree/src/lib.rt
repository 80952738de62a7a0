//! Transactions on directories, files and attributes: each reads a volume's rows, and changes them in one commit or not at all.
//!
//! Each call is refused with the faults of its operation, in their order (POSIX.1-2017, and docs/MODEL.md). A refusal, a keeper
//! that failed, and running out of memory leave the rows as they were.
#![tactic(auto)]

mod attributes;
mod making;
mod reading;

pub use attributes::{chmod, chown, utimes};
pub use making::{create, may_be_new, mkdir, new_place, symlink};
pub use reading::{fstat, lookup, open_node, readdir, readlink, stat, statfs};
