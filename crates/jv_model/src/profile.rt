//! What a client has to know of an operation before its first step.
ghost use Rattle.std.specs.Prelude.{◌≡◌};
ghost use Rattle.jv_model.specs.promise.client.OpForms.{is_read};
ghost use Rattle.jv_model.specs.promise.client.Profile.{profile, handle_of, of_mounted, of_any_client, flushing_all, opening, on_file, on_files, read_does, write_profile};

use crate::limits::FILE_END;
use crate::op::Op;

/// The handles that an operation names, in the order of its words.
#[derive(Clone, Copy, Debug, PartialEq, Eq)]
pub enum Handles {
    None,
    One(u64),
    Two(u64, u64),
}

/// What an operation commits before it goes on.
#[derive(Clone, Copy, Debug, PartialEq, Eq)]
pub enum Flushes {
    Nothing,
    /// The files of its handles, in their order.
    ItsFiles,
    /// All that is pending, where this many bytes more would pass the client's buffer.
    IfFull(u64),
    /// All that is pending.
    Everything,
}

/// The answer of an operation that asks no device.
#[derive(Clone, Copy, Debug, PartialEq, Eq)]
pub enum Answer {
    Done,
    /// A number of bytes.
    Count(u64),
    /// No bytes of a file.
    NoData,
    /// The numbers of the client's cache.
    CacheStats,
}

/// What an operation does once it has flushed.
#[derive(Clone, Copy, Debug, PartialEq, Eq)]
pub enum Does {
    Answers(Answer),
    /// It makes a session, in writeback mode or not.
    Mounts(bool),
    /// It makes one metadata transaction.
    Transacts,
    /// It drops the last handle on a file, and then what the client's session sustained of it.
    Releases,
    /// It reads a range from an offset on, of a number of bytes.
    Reads(u64, u32),
    Truncates,
    Copies,
    /// It puts the blocks of a window into a slice of its own: of the file with this inode, else of the file at its path.
    Compacts(Option<u64>),
    Cleans,
    /// It judges the objects of the depot page by page, and removes the leaked ones or not.
    Collects(bool),
    Uploads,
}

/// An operation's row.
#[derive(Clone, Copy, Debug, PartialEq, Eq)]
pub struct Profile {
    /// Whether the client has to be mounted.
    pub needs_mount: bool,
    /// The handles that have to be open.
    pub handles: Handles,
    /// Whether it opens a handle.
    pub opens: bool,
    /// Of a write its offset and its number of bytes together, which is the position behind its last byte if it has one; 0 of
    /// every other operation.
    pub end: u128,
    pub flushes: Flushes,
    pub does: Does,
}

/// One metadata transaction of a mounted client, on paths or on nothing.
const TRANSACTION: Profile = Profile {
    needs_mount: true,
    handles: Handles::None,
    opens: false,
    end: 0,
    flushes: Flushes::Nothing,
    does: Does::Transacts,
};

impl Op {
    /// Whether the operation reads a file's bytes.
    pub fn is_read(&self) -> bool
        ensures { result ≡ is_read self.now }
    {
        matches!(self, Op::Read { .. })
    }

    /// The first handle that the operation names, 0 where it names none. A read asks for it at each of its steps, so it is
    /// found without the whole profile.
    pub fn handle(&self) -> u64
        ensures { result ≡ handle_of self.now }
    {
        if let Op::Read { handle, .. } = self {
            return *handle;
        }
        match self.profile().handles {
            Handles::None => 0,
            Handles::One(handle) => handle,
            Handles::Two(handle, _) => handle,
        }
    }

    /// What the operation needs before its first step, what it commits first, and what it does then.
    pub fn profile(&self) -> Profile
        ensures { result ≡ profile self.now }
    {
        match self {
            Op::Mount { writeback } => of_any_client(Does::Mounts(*writeback)),
            Op::Umount => flushing_all(),
            Op::Fstat { handle } => on_file(*handle, Does::Transacts),
            Op::Create { .. } | Op::Open { .. } => opening(),
            Op::Close { handle } => on_file(*handle, Does::Releases),
            Op::Flush { handle } => on_file(*handle, Does::Answers(Answer::Done)),
            Op::Read {
                handle,
                offset,
                len,
            } => on_file(*handle, read_does(*offset, *len)),
            Op::Write {
                handle,
                offset,
                bytes,
            } => write_profile(*handle, *offset, bytes.len() as u64),
            Op::Truncate { handle, .. } => on_file(*handle, Does::Truncates),
            Op::Copy { source, target, .. } => on_files(*source, *target),
            Op::Compact { .. } => of_mounted(Does::Compacts(None)),
            Op::Clean => of_mounted(Does::Cleans),
            Op::Gc { delete } => of_mounted(Does::Collects(*delete)),
            Op::Upload => of_any_client(Does::Uploads),
            Op::Stats => of_mounted(Does::Answers(Answer::CacheStats)),
            Op::Beat
            | Op::Lookup { .. }
            | Op::Stat { .. }
            | Op::Lstat { .. }
            | Op::Mkdir { .. }
            | Op::Readdir { .. }
            | Op::Chmod { .. }
            | Op::Chown { .. }
            | Op::Utimes { .. }
            | Op::Statfs
            | Op::Symlink { .. }
            | Op::Readlink { .. }
            | Op::Unlink { .. }
            | Op::Rmdir { .. }
            | Op::Link { .. }
            | Op::Rename { .. } => TRANSACTION,
        }
    }
}

/// An operation of a mounted client.
fn of_mounted(does: Does) -> Profile
    ensures { result ≡ of_mounted does }
{
    Profile {
        does,
        ..TRANSACTION
    }
}

/// An operation of any client, mounted or not.
fn of_any_client(does: Does) -> Profile
    ensures { result ≡ of_any_client does }
{
    Profile {
        needs_mount: false,
        does,
        ..TRANSACTION
    }
}

/// A transaction that commits all that is pending first.
fn flushing_all() -> Profile
    ensures { result ≡ flushing_all }
{
    Profile {
        flushes: Flushes::Everything,
        ..TRANSACTION
    }
}

/// A transaction that opens a handle.
fn opening() -> Profile
    ensures { result ≡ opening }
{
    Profile {
        opens: true,
        ..TRANSACTION
    }
}

/// A copy from the file of one handle to that of another.
fn on_files(source: u64, target: u64) -> Profile
    ensures { result ≡ on_files source target }
{
    Profile {
        handles: Handles::Two(source, target),
        flushes: Flushes::ItsFiles,
        does: Does::Copies,
        ..TRANSACTION
    }
}

/// An operation on the file of a handle, whose pending bytes are committed first.
fn on_file(handle: u64, does: Does) -> Profile
    ensures { result ≡ on_file handle does }
{
    Profile {
        handles: Handles::One(handle),
        flushes: Flushes::ItsFiles,
        does,
        ..TRANSACTION
    }
}

/// A range of which no position lies before the end of the longest file has no byte.
fn read_does(offset: u64, len: u32) -> Does
    ensures { result ≡ read_does offset len }
{
    if len == 0 || offset >= FILE_END {
        Does::Answers(Answer::NoData)
    } else {
        Does::Reads(offset, len)
    }
}

fn write_profile(handle: u64, offset: u64, len: u64) -> Profile
    ensures { result ≡ write_profile handle offset len }
{
    Profile {
        handles: Handles::One(handle),
        end: u128::from(offset) + u128::from(len),
        flushes: Flushes::IfFull(len),
        does: Does::Answers(Answer::Count(len)),
        ..TRANSACTION
    }
}
