//! Refusals, and the errors of devices, readings and transactions.
use crate::row::RowKey;
use crate::slice::List;
use crate::texts::Bytes;
use std::alloc::AllocError;
use thiserror::Error;

/// A device that an operation uses.
#[derive(Clone, Copy, Debug, PartialEq, Eq)]
pub enum Device {
    Keeper,
    Depot,
    Shelf,
    Carrier,
}

/// What an operation found gone.
#[derive(Clone, Copy, Debug, PartialEq, Eq)]
pub enum Gone {
    Session(u64),
    Node(u64),
}

/// Why an operation gave way to others.
#[derive(Clone, Copy, Debug, PartialEq, Eq)]
pub enum Busy {
    /// Blocks of a read went away as many times.
    Misses(u32),
    /// A compaction found another list than the one it looked at, by their numbers of records.
    Lists { looked: u32, found: u32 },
}

/// A refusal of an operation, by the error of POSIX whose name is printed.
#[derive(Clone, Copy, Debug, PartialEq, Eq)]
pub enum Fault {
    /// ENOENT: there is no such entry.
    NotFound,
    /// EEXIST: the entry is there.
    AlreadyExists,
    /// ENOTDIR: something else is where a directory has to be.
    NotADirectory,
    /// EISDIR: a directory is where something else has to be.
    IsADirectory,
    /// ENOTEMPTY: a directory that would go has entries.
    DirectoryNotEmpty,
    /// EINVAL: a path, a kind of node or a range that the operation doesn't take.
    Invalid,
    /// ENAMETOOLONG: a name of over [`crate::MAX_NAME`] bytes, or a path or target of over [`crate::MAX_PATH`].
    NameTooLong,
    /// EBADF: the handle isn't open.
    BadHandle,
    /// ENOSPC: a limit of the volume, or a stored count at its greatest number.
    NoSpace,
    /// EFBIG: a write, a length or a copy would end past [`crate::FILE_END`].
    FileTooLarge,
    /// ELOOP: over [`crate::MAX_SYMLINKS`] symlinks in one walk.
    SymlinkLoop,
    /// EPERM: an operation that isn't done on directories, or in the trash.
    NotPermitted,
    /// EMFILE: [`crate::MAX_HANDLES`] handles are open.
    TooManyHandles,
    /// EAGAIN: bytes of that Commit (0: from before the run) are still staged at another client.
    TryAgain { commit: u64 },
    /// ESTALE: the session or the inode is gone.
    Stale(Gone),
    /// ETIMEDOUT: an upload's commit came [`crate::lifetimes::UPLOAD_LIFE`] seconds after its start, or later.
    /// Both moments are in seconds.
    TimedOut { started: u64, now: u64 },
    /// EBUSY: the operation gave way to others.
    Contended(Busy),
    /// EIO: the device failed.
    DeviceFailed(Device),
    /// ENOTCONN: the client isn't mounted.
    NotConnected,
    /// EALREADY: an operation is in progress, or the client is mounted.
    InProgress,
    /// ENOMEM: out of memory.
    NoMemory,
}

/// Why a device's call didn't do its work. Its content is unchanged.
#[derive(Clone, Copy, Debug, PartialEq, Eq, Error)]
pub enum Down {
    /// The device failed, and its count of faults rose.
    #[error("the device failed")]
    Failed,
    /// Out of memory.
    #[error("out of memory")]
    Memory,
}

impl From<AllocError> for Down {
    ghost use Rattle.std.specs.Prelude.{◌≡◌};
    ghost use Rattle.jv_model.specs.declared.fault.Down.TheVariants.{Memory};

    ghost from_gives = { λ _ down. down ≡ Memory };

    fn from(_: AllocError) -> Down {
        Down::Memory
    }
}

/// Why a row wasn't read.
#[derive(Debug, Drop, PartialEq, Eq)]
pub enum RowFault {
    /// The row is malformed, or names a row that isn't there; without bytes where it is absent itself.
    Bad(RowKey, Bytes),
    Failed,
    /// Out of memory.
    Memory,
}

impl From<AllocError> for RowFault {
    ghost use Rattle.std.specs.Prelude.{◌≡◌};
    ghost use Rattle.jv_model.specs.declared.fault.RowFault.TheVariants.{Memory};

    ghost from_gives = { λ _ fault. fault ≡ Memory };

    fn from(_: AllocError) -> RowFault {
        RowFault::Memory
    }
}

impl From<Down> for RowFault {
    ghost use Rattle.std.specs.Prelude.{◌≡◌};
    ghost use Rattle.jv_model.specs.rows.RowFaults.{row_fault};

    ghost from_gives = { λ down fault. fault ≡ row_fault down };

    fn from(down: Down) -> RowFault {
        match down {
            Down::Failed => RowFault::Failed,
            Down::Memory => RowFault::Memory,
        }
    }
}

/// Why a transaction didn't commit.
#[derive(Debug, Drop, PartialEq, Eq)]
pub enum TxFault {
    Refused(Fault),
    /// The list of the window isn't the one that was looked at; this one is there.
    Moved(List),
    Rows(RowFault),
}

impl From<Fault> for TxFault {
    ghost use Rattle.std.specs.Prelude.{◌≡◌};
    ghost use Rattle.jv_model.specs.declared.fault.TxFault.TheVariants.{Refused};

    ghost from_gives = { λ refusal fault. fault ≡ Refused refusal };

    fn from(refusal: Fault) -> TxFault {
        TxFault::Refused(refusal)
    }
}

impl From<RowFault> for TxFault {
    ghost use Rattle.std.specs.Prelude.{◌≡◌};
    ghost use Rattle.jv_model.specs.declared.fault.TxFault.TheVariants.{Rows};

    ghost from_gives = { λ reading fault. fault ≡ Rows reading };

    fn from(reading: RowFault) -> TxFault {
        TxFault::Rows(reading)
    }
}

impl From<AllocError> for TxFault {
    ghost use Rattle.std.specs.Prelude.{◌≡◌};
    ghost use Rattle.jv_model.specs.declared.fault.RowFault.TheVariants.{Memory};
    ghost use Rattle.jv_model.specs.declared.fault.TxFault.TheVariants.{Rows};

    ghost from_gives = { λ _ fault. fault ≡ Rows Memory };

    fn from(_: AllocError) -> TxFault {
        TxFault::Rows(RowFault::Memory)
    }
}
