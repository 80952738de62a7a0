//! The database at a path.
use crate::cause::{Cause, Refusal};
use crate::table;
use jv_model::row_bytes::RowBytes;
use jv_model::{RowKey, Rows, Sequence};
use jv_outside::Batch;
use sqlite::{Connection, File, FileStore, Options, Unknown};
use std::alloc::AllocError;
use std::hash::{BuildHasher, RandomState};
use std::io::{self, ErrorKind};
use std::path::Path;
use std::{fs, mem, str};

type Opened = Connection<FileStore<File>>;

/// What stands at a path.
#[derive(Drop)]
enum Found {
    /// No file or an empty one, which the first commit makes a database.
    Nothing,
    /// A database without the table, which the first commit makes.
    Empty(Opened),
    /// A database with the table.
    Table(Opened),
}

/// Rows in a table of the database at a path. No other process can open it as long as this has it open.
#[derive(Drop)]
pub(crate) struct Database {
    rt: HostRuntime,
    path: String,
    found: Found,
}

impl Database {
    /// Opens the database at a place. It makes no file, table or row, but turns a database that is there to a log that is
    /// written ahead, which may leave an empty `-wal`.
    pub(crate) fn open(rt: HostRuntime, place: &[u8]) -> Result<Database, Refusal> {
        let Ok(path) = str::from_utf8(place) else {
            return Err(Refusal::Failed(Cause::NotText));
        };
        Ok(Database {
            rt,
            found: find(&rt, path)?,
            path: String::from_str(rt.alloc(), path)?,
        })
    }

    /// The bytes at a key.
    pub(crate) fn get(&mut self, key: &RowKey) -> Result<Option<RowBytes>, Refusal> {
        match &mut self.found {
            Found::Table(conn) => table::get(conn, key),
            Found::Nothing | Found::Empty(_) => Ok(None),
        }
    }

    /// The first `n` rows of a table after a key, or from its first on, in the order of their keys.
    pub(crate) fn scan(
        &mut self,
        tab: u8,
        after: Option<&RowKey>,
        n: u32,
    ) -> Result<Rows, Refusal> {
        let alloc = self.rt.alloc();
        match &mut self.found {
            Found::Table(conn) => table::scan(conn, alloc, tab, after, n),
            Found::Nothing | Found::Empty(_) => Ok(Sequence::new(alloc)),
        }
    }

    /// Makes all the changes, or none of them after an error. Without changes nothing is written.
    pub(crate) fn commit(&mut self, batch: &Batch) -> Result<(), Refusal> {
        if batch.is_empty() {
            return Ok(());
        }
        if let Found::Table(conn) = &mut self.found {
            return table::commit(conn, self.rt.alloc(), batch);
        }
        self.commit_first(batch)
    }

    /// The same where the table isn't there yet: it is made with its first rows, and the file too. After an error nothing is
    /// open, so that the next commit looks anew at what stands there.
    fn commit_first(&mut self, batch: &Batch) -> Result<(), Refusal> {
        let mut conn = match mem::replace(&mut self.found, Found::Nothing) {
            Found::Nothing => connect(&self.rt, self.path.as_str())?,
            Found::Empty(conn) | Found::Table(conn) => conn,
        };
        table::commit_first(&mut conn, self.rt.alloc(), batch)?;
        self.found = Found::Table(conn);
        Ok(())
    }

    /// Brings all that the log holds into the database file, which then has all rows.
    pub(crate) fn close(self) -> Result<(), Refusal> {
        let Database {
            rt: _,
            path: _,
            found,
        } = self;
        match found {
            Found::Nothing => Ok(()),
            Found::Empty(conn) | Found::Table(conn) => Ok(conn.close()?),
        }
    }
}

/// Opens what stands at a path, and makes nothing.
fn find(rt: &HostRuntime, path: &str) -> Result<Found, Refusal> {
    if !is_there(rt, path)? {
        return Ok(Found::Nothing);
    }
    let mut conn = connect(rt, path)?;
    if table::has_table(&mut conn)? {
        Ok(Found::Table(conn))
    } else {
        Ok(Found::Empty(conn))
    }
}

/// Whether anything but an empty file is at the path. Fails if nothing can be made there.
fn is_there(rt: &HostRuntime, path: &str) -> Result<bool, Refusal> {
    match fs::metadata(rt, path) {
        Ok(found) => Ok(!found.is_file() || found.len() > 0),
        Err(error) if error.kind() == ErrorKind::NotFound => {
            may_be_made(rt, path, error)?;
            Ok(false)
        }
        Err(error) => Err(error.into()),
    }
}

/// Looks whether a file that is missing can be made: its folder is there, and no link is at its name.
fn may_be_made(rt: &HostRuntime, path: &str, missing: io::Error) -> Result<(), Refusal> {
    if fs::symlink_metadata(rt, path).is_ok() {
        return Err(Refusal::Failed(Cause::NotRegular));
    }
    match Path::new(path).parent() {
        None => Err(missing.into()),
        Some(folder) if folder.as_str().is_empty() => Ok(()),
        Some(folder) => match fs::metadata(rt, folder) {
            Ok(_) => Ok(()),
            Err(error) if error.kind() == ErrorKind::NotFound => Err(Refusal::Failed(
                Cause::NoFolder,
            )),
            Err(error) => Err(error.into()),
        },
    }
}

/// Opens the database file at a path and its log, or makes them. Its pages get no checksums, since a sqlite3 without the
/// extension for those would spoil them.
fn connect(rt: &HostRuntime, path: &str) -> Result<Opened, Refusal> {
    let files = sqlite_std_file::open(rt, path, Unknown)?;
    let seed = RandomState::new(rt)?.hash_one(&0u8);
    match Connection::open_files_with(rt.alloc(), files, Options::new(seed), false) {
        Ok(conn) => Ok(conn),
        Err((error, _)) => Err(error.into()),
    }
}
