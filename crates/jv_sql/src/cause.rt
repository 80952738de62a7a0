//! Why a database refused a call.
ghost use Rattle.std.specs.Prelude.{◌≡◌};

use sqlite::{Error as SqlError, ErrorCode};
use sqlite_std_file::OpenError;
use std::alloc::AllocError;
use std::fmt;
use std::io::{self, ErrorKind};

/// Why a keeper failed, as it says on standard error. No text names the path.
#[derive(Clone, Copy, Debug, PartialEq, Eq)]
pub(crate) enum Cause {
    /// The place isn't UTF-8, so that no path has it.
    NotText,
    /// The keeper is open at another place.
    Elsewhere,
    /// The folder of the path isn't there, so that no file can be made in it.
    NoFolder,
    /// At the path or at the log beside it is a folder, a device, a link to nothing, or a file with a second hard link.
    NotRegular,
    /// Another process has the database.
    Busy,
    /// The database was left in the middle of a transaction by an SQLite that keeps a rollback journal.
    HotJournal,
    /// The database has a table of the name that was made by another text.
    OtherTable,
    /// Rows have come into a place that had none when the keeper was opened there.
    Appeared,
    /// The system refused a call, with its number where it has one.
    System(ErrorKind, Option<i32>),
    /// The database refused a statement, or isn't one.
    Database(SqlError),
}

impl fmt::Display for Cause {
    fn fmt<W: fmt::Write>(&self, f: &mut fmt::Formatter<W>) -> fmt::Result {
        match self {
            Cause::NotText => f.write_str("its place isn't text"),
            Cause::Elsewhere => f.write_str("it is open at another place"),
            Cause::NoFolder => f.write_str("its folder isn't there"),
            Cause::NotRegular => f.write_str("it or its -wal isn't a regular file with one name"),
            Cause::Busy => f.write_str("another process has it open"),
            Cause::HotJournal => f.write_str(
                "it has a rollback journal: open it with sqlite3 first",
            ),
            Cause::OtherTable => f.write_str("its table jfs_row isn't one of juicevol"),
            Cause::Appeared => f.write_str("rows have come into it since it was opened"),
            Cause::System(_, Some(code)) => write!(f, "{}", io::Error::from_raw_os_error(*code)),
            Cause::System(kind, None) => write!(f, "{kind}"),
            Cause::Database(error) => write!(f, "{error}"),
        }
    }
}

/// Why a call wasn't done.
#[derive(Clone, Copy, Debug, PartialEq, Eq)]
pub(crate) enum Refusal {
    /// Out of memory.
    Memory,
    Failed(Cause),
}

impl fmt::Display for Refusal {
    fn fmt<W: fmt::Write>(&self, f: &mut fmt::Formatter<W>) -> fmt::Result {
        match self {
            Refusal::Memory => f.write_str("out of memory"),
            Refusal::Failed(cause) => write!(f, "{cause}"),
        }
    }
}

impl From<AllocError> for Refusal {
    ghost use Rattle.std.specs.Prelude.{◌≡◌};
    ghost use Rattle.jv_sql.specs.declared.cause.Refusal.TheVariants.{Memory};

    ghost from_gives = { λ _ refusal. refusal ≡ Memory };

    fn from(_: AllocError) -> Refusal {
        Refusal::Memory
    }
}

impl From<io::Error> for Refusal {
    ghost use Rattle.std.specs.Prelude.{◌≡◌, ◌↔◌};
    ghost use Rattle.std.specs.IoError.{error_kind};
    ghost use Rattle.std.specs.declared.io.ErrorKind.TheVariants.{OutOfMemory};
    ghost use Rattle.jv_sql.specs.declared.cause.Refusal.TheVariants.{Memory};

    ghost from_gives = { λ error refusal. (refusal ≡ Memory) ↔ (error_kind error ≡ OutOfMemory) };

    fn from(error: io::Error) -> Refusal {
        match error.kind() {
            ErrorKind::OutOfMemory => Refusal::Memory,
            kind => Refusal::Failed(Cause::System(kind, error.raw_os_error())),
        }
    }
}

impl From<SqlError> for Refusal {
    ghost use Rattle.std.specs.Prelude.{◌≡◌, ◌↔◌};
    ghost use Rattle.sqlite.specs.declared.error.Error.TheVariants.{SqliteFailure};
    ghost use Rattle.sqlite.specs.declared.error.ErrorCode.TheVariants.{OutOfMemory};
    ghost use Rattle.jv_sql.specs.declared.cause.Refusal.TheVariants.{Memory};

    ghost from_gives = { λ error refusal. (refusal ≡ Memory) ↔ (error ≡ SqliteFailure OutOfMemory) };

    fn from(error: SqlError) -> Refusal {
        match error {
            SqlError::SqliteFailure(ErrorCode::OutOfMemory) => Refusal::Memory,
            error => Refusal::Failed(Cause::Database(error)),
        }
    }
}

impl From<OpenError> for Refusal {
    fn from(error: OpenError) -> Refusal {
        match error {
            OpenError::OutOfMemory => Refusal::Memory,
            OpenError::Busy => Refusal::Failed(Cause::Busy),
            OpenError::HotJournal => Refusal::Failed(Cause::HotJournal),
            // The crate's own word for what it doesn't open, which no call of the system refused.
            OpenError::Io(error)
                if error.kind() == ErrorKind::Unsupported && error.raw_os_error().is_none() =>
                Refusal::Failed(Cause::NotRegular),
            OpenError::Io(error) => error.into(),
        }
    }
}
