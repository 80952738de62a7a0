//! Entries of the journal.
use crate::basics::Moment;
use crate::fault::Fault;

/// What an operation was answered, in numbers.
#[derive(Clone, Copy, Debug, PartialEq, Eq)]
pub enum Told {
    /// Done, with the numbers of the reply in their order, and 0 for those that aren't there.
    Fine(u64, u64, u64, u64),
    /// A read: the entries of the looks that it cites (0 for none), and the number of its bytes.
    Looks { first: u64, second: u64, len: u64 },
    Refused(Fault),
}

/// What a step did.
#[derive(Clone, Copy, Debug, PartialEq, Eq)]
pub enum ActKind {
    /// A session was made.
    Mounted {
        sid: u64,
    },
    /// The operation's metadata transaction.
    Meta,
    /// A file was created or opened.
    Opened {
        handle: u64,
        inode: u64,
    },
    /// A view of a window was taken.
    Look {
        inode: u64,
        window: u32,
    },
    /// Pending bytes went into the file; `staged` of the segment's blocks are staged.
    Commit {
        inode: u64,
        from: u64,
        len: u64,
        staged: u32,
    },
    Truncated {
        inode: u64,
        len: u64,
    },
    Copied {
        source: u64,
        from: u64,
        target: u64,
        to: u64,
        len: u64,
    },
    /// The list of the window was replaced over the positions from `from` to `to` of it.
    Compacted {
        inode: u64,
        window: u32,
        from: u32,
        to: u32,
    },
    /// The last staged block of that Commit was published.
    Settled {
        commit: u64,
    },
    Expired {
        sid: u64,
    },
    /// A trash entry or an hour directory went.
    Purged {
        inode: u64,
    },
    /// A row that no file needs went.
    Cleaned {
        tab: u8,
        key: u64,
    },
    /// Nothing of the tree changed.
    Quiet,
    /// A block wasn't found.
    Miss {
        inode: u64,
        window: u32,
    },
    Crashed,
    Ticked {
        by: u64,
    },
    Answered {
        told: Told,
    },
}

/// The client of entries that no client's step made.
pub const NO_CLIENT: u8 = 255;

/// An entry of the journal. Entries are numbered from 1.
#[derive(Clone, Copy, Debug, PartialEq, Eq)]
pub struct Act {
    /// The line of the script, from 1, or 0 where no script is run.
    pub line: u32,
    pub at: Moment,
    /// The client, 0 to [`crate::LAST_CLIENT`], or [`NO_CLIENT`].
    pub client: u8,
    pub kind: ActKind,
}
