ghost use Rattle.std.specs.Prelude.{◌≡◌, ◌≢◌, ◌↔◌, IsTrue, OnOk, IsOk};
ghost use Rattle.std.specs.Option.{IsSome, option_copied};
ghost use Rattle.jv_model.specs.declared.fault.Down.TheVariants.{Failed};
ghost use Rattle.jv_model.specs.rows.RowKeys.{row_map};
ghost use Rattle.jv_outside.specs.Store.{Opens, Finds, Scans, Commits};
ghost use Rattle.jv_outside.specs.promise.Holding.{memory_place};

use crate::cause::Cause;
use crate::database::Database;
use crate::faults::Faults;
use jv_model::row_bytes::RowBytes;
use jv_model::{Down, RowKey, Rows, Text, copied};
use jv_outside::{Batch, Keeper, NeverKeeper};
use std::marker::Model;

/// The place of rows in memory, which no file has.
const MEMORY: &[u8] = b":memory:";

/// Where the rows are.
#[derive(Drop)]
enum Place {
    Memory(NeverKeeper),
    File(Database),
}

/// A keeper of rows in memory until it is opened at a path, and then of those in the database there: the table `jfs_row` of
/// an SQLite database (JuiceFS, Architecture: metadata engine, which keeps its rows in SQLite too). Contracts see a
/// [`jv_outside`] keeper's rows, the place where it was opened last, and how many calls failed.
///
/// Nobody knows the rows of a file, so that what it returns of them is the word of the database's crate. Over a file each
/// refusal but out of memory is [`Down::Failed`], whose cause is printed on standard error, as
/// `juicevol: keeper: its folder isn't there`, each time that it is another one. A refused call has changed nothing.
///
/// The database belongs to this keeper until it is dropped: another process that opens it is refused.
#[derive(Drop)]
pub struct SqlKeeper {
    rt: HostRuntime,
    place: Place,
    opened: Option<Text>,
    faults: Faults,
}

impl Model for SqlKeeper {
    ghost use Rattle.jv_outside.specs.promise.Store.{Store};
    ghost use Rattle.jv_sql.specs.StoreCode.{store_code};

    ghost Value = { Store };

    ghost coded = { store_code };

    ghost use Rattle.jv_sql.specs.Known.{known_rows};

    ghost view = { λ k. record { rows = known_rows k.place; opened = k.opened; faults = k.faults.count } };
}

impl SqlKeeper {
    /// A keeper of these rows in memory, which isn't opened anywhere. Takes no memory. Of rows with one key the first stands.
    pub fn new(rt: &HostRuntime, rows: Rows) -> SqlKeeper
        ensures rows { result.rows ≡ Some (row_map rows) }
        ensures opened { result.opened ≡ None }
        ensures calm { result.faults ≡ 0 }
    {
        SqlKeeper {
            rt: *rt,
            place: Place::Memory(NeverKeeper::new(rt.alloc(), rows)),
            opened: None,
            faults: Faults::new(*rt),
        }
    }

    /// Opens the database at a path. On error nothing has changed.
    fn open_file(&mut self, place: &Text) -> Result<(), Down>
        requires { place.now ≢ memory_place }
        ensures opens { Opens self.old self.new result place.now }
        ensures unknown { OnOk result (self.new.rows ≡ None) }
    {
        let opened = copied(self.rt.alloc(), place.as_slice())?;
        let database = self
            .faults
            .answer(Database::open(self.rt, place.as_slice()))?;
        self.place = Place::File(database);
        self.opened = Some(opened);
        Ok(())
    }

    /// Closes the database, so that its file alone has all rows. Where it can't be closed nothing is lost, but the `-wal` beside
    /// it belongs to the database; standard error says so. Fails if the database couldn't write, or out of memory.
    pub fn close(self) -> Result<(), Down>
        ensures memory { IsSome self.rows → IsOk result }
    {
        let SqlKeeper {
            rt: _,
            place,
            opened: _,
            faults,
        } = self;
        match place {
            Place::Memory(_) => Ok(()),
            Place::File(database) => match database.close() {
                Ok(()) => Ok(()),
                Err(refusal) => Err(faults.not_closed(refusal)),
            },
        }
    }
}

impl Keeper for SqlKeeper {
    ghost seen = { λ k. k };

    /// Opens the rows at a place. At `:memory:` those in memory stay. At a path they are those of the database there, or none
    /// where the path has no file, an empty one, or a database without the table: no file, table or row is made before the
    /// first commit. A keeper that is open at a path can be opened there again, and fails anywhere else. It also fails if the
    /// path isn't text, if its folder isn't there, if the system doesn't open it, and if it isn't an SQLite database, has a
    /// table of the same name but another form, or is open in another process.
    fn attach(&mut self, place: &Text) -> Result<(), Down>
        ensures opens { Opens self.old self.new result place.now }
        ensures unknown { place.now ≢ memory_place → OnOk result (self.new.rows ≡ None) }
        ensures elsewhere { self.old.rows ≡ None → self.old.opened ≢ Some place.now
            → result ≡ Err Failed }
    {
        match &self.place {
            Place::File(_) => {
                if is_at(&self.opened, place) {
                    return Ok(());
                }
                self.faults.fail(Cause::Elsewhere)
            }
            Place::Memory(_) => {
                if place.as_slice() != MEMORY {
                    return self.open_file(place);
                }
                self.opened = Some(copied(self.rt.alloc(), place.as_slice())?);
                Ok(())
            }
        }
    }

    fn get(&mut self, key: &RowKey) -> Result<Option<RowBytes>, Down>
        ensures { Finds self.old self.new result key.now }
    {
        match &mut self.place {
            Place::Memory(keeper) => keeper.get(key),
            Place::File(database) => self.faults.answer(database.get(key)),
        }
    }

    fn scan(&mut self, tab: u8, after: Option<&RowKey>, n: u32) -> Result<Rows, Down>
        ensures { Scans self.old self.new result tab (option_copied after.entry) n }
    {
        match &mut self.place {
            Place::Memory(keeper) => keeper.scan(tab, after, n),
            Place::File(database) => self.faults.answer(database.scan(tab, after, n)),
        }
    }

    /// Makes all the changes as one transaction, which is on the disk when it returns. The first one after the keeper was opened
    /// where there was no table makes file and table too, and fails if rows have come there since.
    fn commit(&mut self, batch: &Batch) -> Result<(), Down>
        ensures { Commits self.old self.new result batch.now }
    {
        match &mut self.place {
            Place::Memory(keeper) => keeper.commit(batch),
            Place::File(database) => self.faults.answer(database.commit(batch)),
        }
    }
}

/// Whether a keeper is open at a place.
fn is_at(opened: &Option<Text>, place: &Text) -> bool
    ensures { IsTrue result ↔ (opened.now ≡ Some place.now) }
{
    match opened {
        Some(other) => other == place,
        None => false,
    }
}
