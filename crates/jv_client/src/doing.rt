//! An operation in progress.
use jv_client_reads::{Fetch, Need};
use jv_model::{Does, Moment, Op};

/// What an operation commits before it goes on.
#[derive(Clone, Copy, Debug, PartialEq, Eq)]
pub enum Flush {
    Nothing,
    /// What is pending of one file, by its inode.
    File(u64),
    /// What is pending of two files, by their inodes, in this order.
    Files(u64, u64),
    /// All that is pending.
    All,
}

/// How far an operation is.
#[derive(Drop)]
pub enum Progress {
    /// It made `quiets` requests of the next segment: one for the number of its slice, which is `id`, and then one for each
    /// block that was put, the first of them at the moment `started`.
    Working {
        quiets: u32,
        started: Moment,
        id: u64,
    },
    /// It reads, and needs this next.
    Reading {
        fetch: Fetch,
        need: Need,
    },
}

impl Progress {
    /// No request of the next segment was made.
    pub const FIRST: Progress = Progress::Working {
        quiets: 0,
        started: Moment(0),
        id: 0,
    };
}

/// An operation, and how far it is.
#[derive(Drop)]
pub struct Doing {
    pub op: Op,
    pub does: Does,
    pub flush: Flush,
    pub progress: Progress,
    /// Whether the journal has an entry of it.
    pub has_moved: bool,
}
