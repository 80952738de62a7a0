//! Keepers in memory. A `get` takes constant time on average for a row that was put since the last `scan`, and else time
//! logarithmic in their number, as a `commit` does for each row that it removes. A `scan` takes that for each row put since
//! the last one, and a time linear in the rows that it returns. The first call after `new` looks at each row.
ghost use Rattle.std.specs.Prelude.{◌≡◌, ◌↔◌, IsTrue, IfErr, None};
ghost use Rattle.std.specs.Option.{option_copied};
ghost use Rattle.jv_model.specs.declared.fault.Down.TheVariants.{Failed, Memory};
ghost use Rattle.jv_model.specs.rows.RowKeys.{row_map};
ghost use Rattle.jv_outside.specs.Calls.{fails_next, after_call};
ghost use Rattle.jv_outside.specs.InMemory.{store_of, never_failing_store};
ghost use Rattle.jv_outside.specs.Store.{Opens, Finds, Scans, Commits};

use crate::batch::Batch;
use crate::calls::{Calls, Fails};
use crate::keeper::Keeper;
use crate::store::RowStore;
use jv_model::row_bytes::RowBytes;
use jv_model::{Down, RowKey, Rows, Text, copied};
use std::alloc::Global;
use std::marker::Model;

/// A keeper of the rows that it is given, some of whose calls fail. Each of its four kinds of calls counts as one.
#[derive(Debug, Drop)]
pub struct MemKeeper {
    pub(crate) store: RowStore,
    pub(crate) opened: Option<Text>,
    pub(crate) calls: Calls,
    alloc: Global,
}

impl Model for MemKeeper {
    ghost use Rattle.jv_outside.specs.InMemory.{KeeperValue, keeper_code};

    ghost Value = { KeeperValue };

    ghost coded = { keeper_code };

    ghost use Rattle.jv_outside.specs.Stored.{stored};

    ghost view = { λ k. record { rows = stored k.store; opened = k.opened; calls = k.calls } };
}

impl MemKeeper {
    /// A keeper of these rows, which isn't opened anywhere. Takes no memory. Of rows with one key the first stands.
    pub fn new(alloc: Global, rows: Rows, fails: Fails) -> MemKeeper
        ensures rows { result.rows ≡ row_map rows }
        ensures opened { result.opened ≡ None }
        ensures calls { result.calls ≡ record { made = 0; fails = fails; faults = 0 } }
    {
        MemKeeper {
            store: RowStore::new(alloc, rows),
            opened: None,
            calls: Calls::new(fails),
            alloc,
        }
    }
}

impl Keeper for MemKeeper {
    ghost seen = { λ k. store_of k };

    fn attach(&mut self, place: &Text) -> Result<(), Down>
        ensures opens { Opens (store_of self.old) (store_of self.new) result place.now }
        ensures kept { self.new.rows ≡ self.old.rows }
        ensures fails { (result ≡ Err Failed) ↔ IsTrue (fails_next self.old.calls) }
        ensures calls { self.new.calls ≡ after_call (fails_next self.old.calls) self.old.calls }
    {
        self.calls.begin()?;
        self.opened = Some(copied(self.alloc, place.as_slice())?);
        Ok(())
    }

    fn get(&mut self, key: &RowKey) -> Result<Option<RowBytes>, Down>
        ensures finds { Finds (store_of self.old) (store_of self.new) result key.now }
        ensures fails { (result ≡ Err Failed) ↔ IsTrue (fails_next self.old.calls) }
        ensures calls { self.new.calls ≡ after_call (fails_next self.old.calls) self.old.calls }
    {
        self.calls.begin()?;
        Ok(self.store.get(key)?)
    }

    fn scan(&mut self, tab: u8, after: Option<&RowKey>, n: u32) -> Result<Rows, Down>
        ensures scans { Scans (store_of self.old) (store_of self.new) result
            tab (option_copied after.entry) n }
        ensures fails { (result ≡ Err Failed) ↔ IsTrue (fails_next self.old.calls) }
        ensures calls { self.new.calls ≡ after_call (fails_next self.old.calls) self.old.calls }
    {
        self.calls.begin()?;
        Ok(self.store.scan(tab, after, n)?)
    }

    fn commit(&mut self, batch: &Batch) -> Result<(), Down>
        ensures commits { Commits (store_of self.old) (store_of self.new) result batch.now }
        ensures fails { (result ≡ Err Failed) ↔ IsTrue (fails_next self.old.calls) }
        ensures calls { self.new.calls ≡ after_call (fails_next self.old.calls) self.old.calls }
    {
        self.calls.begin()?;
        Ok(self.store.commit(batch)?)
    }
}

/// A keeper of the rows that it is given, which never fails.
#[derive(Debug, Drop)]
pub struct NeverKeeper {
    store: RowStore,
    opened: Option<Text>,
    alloc: Global,
}

impl Model for NeverKeeper {
    ghost use Rattle.jv_outside.specs.InMemory.{OpenedRows, opened_rows_code};

    ghost Value = { OpenedRows };

    ghost coded = { opened_rows_code };

    ghost use Rattle.jv_outside.specs.Stored.{stored};

    ghost view = { λ k. record { rows = stored k.store; opened = k.opened } };
}

impl NeverKeeper {
    /// A keeper of these rows, which isn't opened anywhere. Takes no memory. Of rows with one key the first stands.
    pub fn new(alloc: Global, rows: Rows) -> NeverKeeper
        ensures rows { result.rows ≡ row_map rows }
        ensures opened { result.opened ≡ None }
    {
        NeverKeeper {
            store: RowStore::new(alloc, rows),
            opened: None,
            alloc,
        }
    }
}

impl Keeper for NeverKeeper {
    ghost seen = { λ k. never_failing_store k };

    fn attach(&mut self, place: &Text) -> Result<(), Down>
        ensures opens { Opens (never_failing_store self.old) (never_failing_store self.new)
            result place.now }
        ensures kept { self.new.rows ≡ self.old.rows }
        ensures memory { IfErr result (λ e. e ≡ Memory) }
    {
        self.opened = Some(copied(self.alloc, place.as_slice())?);
        Ok(())
    }

    fn get(&mut self, key: &RowKey) -> Result<Option<RowBytes>, Down>
        ensures finds { Finds (never_failing_store self.old) (never_failing_store self.new)
            result key.now }
        ensures memory { IfErr result (λ e. e ≡ Memory) }
    {
        Ok(self.store.get(key)?)
    }

    fn scan(&mut self, tab: u8, after: Option<&RowKey>, n: u32) -> Result<Rows, Down>
        ensures scans { Scans (never_failing_store self.old) (never_failing_store self.new) result
            tab (option_copied after.entry) n }
        ensures memory { IfErr result (λ e. e ≡ Memory) }
    {
        Ok(self.store.scan(tab, after, n)?)
    }

    fn commit(&mut self, batch: &Batch) -> Result<(), Down>
        ensures commits { Commits (never_failing_store self.old) (never_failing_store self.new)
            result batch.now }
        ensures memory { IfErr result (λ e. e ≡ Memory) }
    {
        Ok(self.store.commit(batch)?)
    }
}
