//! Operations, lines of a script, and replies.
use crate::basics::{ClientId, How};
use crate::fault::Fault;
use crate::row::RowKey;
use crate::setting::{Attr, Space};
use crate::slice::{BlockId, EntryList};
use crate::texts::{Bytes, Path};

/// An operation of a client. Handles are the numbers that `create` and `open` returned; offsets, positions and lengths
/// are in bytes.
#[derive(Debug, Drop, PartialEq, Eq)]
pub enum Op {
    /// Makes a session for the client (JuiceFS, Architecture); with `writeback`, a block is staged before its upload.
    Mount {
        writeback: bool,
    },
    /// Commits all that is pending, and ends the session.
    Umount,
    /// Keeps the session alive.
    Beat,
    /// The inode of a path, whose last symlink isn't followed.
    Lookup {
        path: Path,
    },
    /// The attributes of what a path leads to (POSIX: stat).
    Stat {
        path: Path,
    },
    /// The same, but a last symlink isn't followed (POSIX: lstat).
    Lstat {
        path: Path,
    },
    /// The attributes of an open file (POSIX: fstat).
    Fstat {
        handle: u64,
    },
    /// Makes a directory (POSIX: mkdirat).
    Mkdir {
        path: Path,
        mode: u16,
    },
    /// Makes a file and opens it (POSIX: openat with O_CREAT and O_EXCL).
    Create {
        path: Path,
        mode: u16,
    },
    /// Opens a file for reading and writing (POSIX: openat).
    Open {
        path: Path,
    },
    /// Commits what is pending of the file, and closes the handle (POSIX: close).
    Close {
        handle: u64,
    },
    /// Commits what is pending of the file (POSIX: fsync).
    Flush {
        handle: u64,
    },
    /// Reads bytes from a position on (POSIX: pread).
    Read {
        handle: u64,
        offset: u64,
        /// At most [`crate::MAX_DATA`] bytes.
        len: u32,
    },
    /// Writes bytes from a position on (POSIX: pwrite).
    Write {
        handle: u64,
        offset: u64,
        /// At most [`crate::MAX_DATA`] bytes.
        bytes: Bytes,
    },
    /// Makes the file `len` bytes long (POSIX: ftruncate).
    Truncate {
        handle: u64,
        len: u64,
    },
    /// Copies at most `len` bytes of the file of the handle `source` from the position `from` on, to the position `to` of
    /// that of the handle `target` (Linux: copy_file_range).
    Copy {
        source: u64,
        from: u64,
        target: u64,
        to: u64,
        len: u64,
    },
    /// The entries of a directory (POSIX: readdir).
    Readdir {
        path: Path,
    },
    /// Sets permission bits, at most [`crate::MAX_MODE`] (POSIX: fchmodat).
    Chmod {
        path: Path,
        mode: u16,
    },
    /// Sets owner and group (POSIX: fchownat).
    Chown {
        path: Path,
        uid: u32,
        gid: u32,
    },
    /// Sets the time of the last modification (POSIX: utimensat).
    Utimes {
        path: Path,
        /// Seconds, at most [`crate::LAST_MOMENT`].
        mtime: u64,
    },
    /// Used space and inodes, and the limits (POSIX: fstatvfs).
    Statfs,
    /// Makes a symlink at `path` (POSIX: symlinkat).
    Symlink {
        target: Bytes,
        path: Path,
    },
    /// The target of a symlink (POSIX: readlinkat).
    Readlink {
        path: Path,
    },
    /// Removes the entry of a file or a symlink (POSIX: unlinkat).
    Unlink {
        path: Path,
    },
    /// Removes an empty directory (POSIX: rmdir).
    Rmdir {
        path: Path,
    },
    /// Adds the entry `to` of what `path` names (POSIX: linkat).
    Link {
        path: Path,
        to: Path,
    },
    /// Renames an entry (POSIX: renameat; Linux: renameat2).
    Rename {
        path: Path,
        to: Path,
        how: How,
    },
    /// Puts one slice in place of those of a window (JuiceFS, Command Reference: `compact`).
    Compact {
        path: Path,
        window: u32,
    },
    /// Removes what is due: stale sessions, entries of the trash, the rows of files that are gone, dead slices.
    Clean,
    /// Lists objects that nothing names, and removes them if `delete` says so (JuiceFS, Command Reference: `gc`).
    Gc {
        delete: bool,
    },
    /// Uploads the next staged block of the client (JuiceFS, Cache: writeback).
    Upload,
    /// How often a look into the cache found a block and how often none, blocks that it has, and pending bytes.
    Stats,
}

/// A line of a script.
#[derive(Debug, Drop, PartialEq, Eq)]
pub enum Line {
    /// An empty line or a comment: it does nothing and prints nothing.
    Empty,
    /// Submits an operation and runs it to its end.
    Do(ClientId, Op),
    /// Submits an operation.
    Begin(ClientId, Op),
    /// Makes one step of the client's operation.
    Step(ClientId),
    /// Runs the client's operation to its end.
    Run(ClientId),
    /// Ends the client without an `umount`.
    Crash(ClientId),
    /// Uploads until nothing is staged for the client.
    Drain(ClientId),
    /// Moves the clock on by a number of seconds, 1 to [`crate::MAX_TICK`].
    Tick(u64),
}

/// The answer of an operation.
#[derive(Debug, Drop, PartialEq, Eq)]
pub enum Reply {
    Refused(Fault),
    /// Nothing but that it is done.
    Done,
    /// The session that a mount made.
    SessionMade {
        sid: u64,
    },
    /// The inode that was found or made.
    Found {
        inode: u64,
    },
    Described(Attr),
    FileOpened {
        handle: u64,
        inode: u64,
    },
    Data(Bytes),
    /// Bytes written or copied.
    Count {
        bytes: u64,
    },
    Entries(EntryList),
    Usage(Space),
    /// A symlink's target.
    Target(Bytes),
    /// Records of a list before and after a compaction.
    Compaction {
        before: u32,
        after: u32,
    },
    /// What a cleaning took away: expired sessions, entries of the trash without its hours, removed files' lists, and
    /// dead slices.
    Cleanup {
        sessions: u64,
        trash: u64,
        files: u64,
        slices: u64,
    },
    /// Leaked objects and their bytes.
    Leaked {
        count: u64,
        bytes: u64,
    },
    /// The block that was uploaded, or none.
    Uploaded(Option<BlockId>),
    /// Blocks that reads found in the cache and that they did not, blocks in it now, and pending bytes.
    CacheStats {
        hits: u64,
        misses: u64,
        cached: u64,
        pending: u64,
    },
}

/// How one step ended.
#[derive(Debug, Drop, PartialEq, Eq)]
pub enum Step {
    More,
    Done(Reply),
    /// A row is bad: its key and its bytes.
    Broken(RowKey, Bytes),
}
