//! Shelves in memory. Their `put`, `get` and `remove` take time logarithmic in the number of blocks, and `list` that and
//! a time linear in the names that it returns; the first call after `new`, which brings the blocks into order, takes that
//! for each block, and a `remove` that finds no memory looks at each block.
ghost use Rattle.std.specs.Prelude.{◌≡◌, ◌↔◌, IsTrue, IfErr, IsOk, None};
ghost use Rattle.std.specs.Option.{option_copied};
ghost use Rattle.jv_model.specs.declared.fault.Down.TheVariants.{Failed, Memory};
ghost use Rattle.jv_outside.specs.Blocks.{names_after, staged_map, staging, unstaged};
ghost use Rattle.jv_outside.specs.promise.Blocks.{staged_at};
ghost use Rattle.jv_outside.specs.Calls.{fails_next, after_call};
ghost use Rattle.jv_outside.specs.promise.Holding.{Attaches};
ghost use Rattle.jv_outside.specs.Holding.{Answers, Changes};
ghost use Rattle.jv_outside.specs.InMemory.{holding_of, never_failing_holding};

use crate::block_store::BlockStore;
use crate::calls::{Calls, Fails};
use crate::object::StagedList;
use crate::shelf::Shelf;
use jv_model::{Bytes, ClientId, Down, Name, NameList, Text, copied};
use std::alloc::Global;
use std::marker::Model;

/// A shelf of the blocks that it is given, some of whose calls fail. Each of its five kinds of calls counts as one.
#[derive(Debug, Drop)]
pub struct MemShelf {
    pub(crate) store: BlockStore,
    pub(crate) opened: Option<Text>,
    pub(crate) calls: Calls,
    alloc: Global,
}

impl Model for MemShelf {
    ghost use Rattle.jv_outside.specs.InMemory.{DeviceValue, device_code};
    ghost use Rattle.jv_outside.specs.promise.Blocks.{StagedMap};
    ghost use Rattle.jv_outside.specs.Blocks.{staged_map_code};

    ghost Value = { DeviceValue StagedMap };

    ghost coded = { device_code staged_map_code };

    ghost use Rattle.jv_outside.specs.StoredBlocks.{blocks_in};

    ghost view = { λ s. record {
      content = blocks_in s.store;
      opened = s.opened;
      calls = s.calls;
    } };
}

impl MemShelf {
    /// A shelf of these blocks, which isn't opened anywhere. Takes no memory. Of blocks with one client and name the first
    /// stands.
    pub fn new(alloc: Global, blocks: StagedList, fails: Fails) -> MemShelf
        ensures content { result.content ≡ staged_map blocks }
        ensures opened { result.opened ≡ None }
        ensures calls { result.calls ≡ record { made = 0; fails = fails; faults = 0 } }
    {
        MemShelf {
            store: BlockStore::new(alloc, blocks),
            opened: None,
            calls: Calls::new(fails),
            alloc,
        }
    }
}

impl Shelf for MemShelf {
    ghost seen = { λ s. holding_of s };

    fn attach(&mut self, place: &Text) -> Result<(), Down>
        ensures attaches { Attaches (holding_of self.old) (holding_of self.new) result place.now }
        ensures kept { self.new.content ≡ self.old.content }
        ensures fails { (result ≡ Err Failed) ↔ IsTrue (fails_next self.old.calls) }
        ensures calls { self.new.calls ≡ after_call (fails_next self.old.calls) self.old.calls }
    {
        self.calls.begin()?;
        self.opened = Some(copied(self.alloc, place.as_slice())?);
        Ok(())
    }

    fn put(&mut self, c: ClientId, name: &Name, bytes: &[u8]) -> Result<(), Down>
        ensures changes { Changes (holding_of self.old) (holding_of self.new) result
            (staging c name.now bytes.now) }
        ensures fails { (result ≡ Err Failed) ↔ IsTrue (fails_next self.old.calls) }
        ensures calls { self.new.calls ≡ after_call (fails_next self.old.calls) self.old.calls }
    {
        self.calls.begin()?;
        Ok(self.store.put(c, name, bytes)?)
    }

    fn get(&mut self, c: ClientId, name: &Name) -> Result<Option<Bytes>, Down>
        ensures answers { Answers (holding_of self.old) (holding_of self.new) result
            (staged_at c name.now) }
        ensures fails { (result ≡ Err Failed) ↔ IsTrue (fails_next self.old.calls) }
        ensures calls { self.new.calls ≡ after_call (fails_next self.old.calls) self.old.calls }
    {
        self.calls.begin()?;
        Ok(self.store.get(c, name)?)
    }

    fn remove(&mut self, c: ClientId, name: &Name) -> Result<(), Down>
        ensures changes { Changes (holding_of self.old) (holding_of self.new) result
            (unstaged c name.now) }
        ensures failed { IfErr result (λ e. e ≡ Failed) }
        ensures fails { (result ≡ Err Failed) ↔ IsTrue (fails_next self.old.calls) }
        ensures calls { self.new.calls ≡ after_call (fails_next self.old.calls) self.old.calls }
    {
        self.calls.begin()?;
        Ok(self.store.remove(c, name))
    }

    fn list(&mut self, c: ClientId, after: Option<&Name>, n: u32) -> Result<NameList, Down>
        ensures answers { Answers (holding_of self.old) (holding_of self.new) result
            (names_after c (option_copied after.entry) n) }
        ensures fails { (result ≡ Err Failed) ↔ IsTrue (fails_next self.old.calls) }
        ensures calls { self.new.calls ≡ after_call (fails_next self.old.calls) self.old.calls }
    {
        self.calls.begin()?;
        Ok(self.store.list(c, after, n)?)
    }
}

/// A shelf of the blocks that it is given, which never fails.
#[derive(Debug, Drop)]
pub struct NeverShelf {
    store: BlockStore,
    opened: Option<Text>,
    alloc: Global,
}

impl Model for NeverShelf {
    ghost use Rattle.jv_outside.specs.InMemory.{OpenedContent, opened_content_code};
    ghost use Rattle.jv_outside.specs.promise.Blocks.{StagedMap};
    ghost use Rattle.jv_outside.specs.Blocks.{staged_map_code};

    ghost Value = { OpenedContent StagedMap };

    ghost coded = { opened_content_code staged_map_code };

    ghost use Rattle.jv_outside.specs.StoredBlocks.{blocks_in};

    ghost view = { λ s. record { content = blocks_in s.store; opened = s.opened } };
}

impl NeverShelf {
    /// A shelf of these blocks, which isn't opened anywhere. Takes no memory. Of blocks with one client and name the first
    /// stands.
    pub fn new(alloc: Global, blocks: StagedList) -> NeverShelf
        ensures content { result.content ≡ staged_map blocks }
        ensures opened { result.opened ≡ None }
    {
        NeverShelf {
            store: BlockStore::new(alloc, blocks),
            opened: None,
            alloc,
        }
    }
}

impl Shelf for NeverShelf {
    ghost seen = { λ s. never_failing_holding s };

    fn attach(&mut self, place: &Text) -> Result<(), Down>
        ensures attaches { Attaches (never_failing_holding self.old)
            (never_failing_holding self.new) result place.now }
        ensures kept { self.new.content ≡ self.old.content }
        ensures memory { IfErr result (λ e. e ≡ Memory) }
    {
        self.opened = Some(copied(self.alloc, place.as_slice())?);
        Ok(())
    }

    fn put(&mut self, c: ClientId, name: &Name, bytes: &[u8]) -> Result<(), Down>
        ensures changes { Changes (never_failing_holding self.old)
            (never_failing_holding self.new) result (staging c name.now bytes.now) }
        ensures memory { IfErr result (λ e. e ≡ Memory) }
    {
        Ok(self.store.put(c, name, bytes)?)
    }

    fn get(&mut self, c: ClientId, name: &Name) -> Result<Option<Bytes>, Down>
        ensures answers { Answers (never_failing_holding self.old)
            (never_failing_holding self.new) result (staged_at c name.now) }
        ensures memory { IfErr result (λ e. e ≡ Memory) }
    {
        Ok(self.store.get(c, name)?)
    }

    fn remove(&mut self, c: ClientId, name: &Name) -> Result<(), Down>
        ensures changes { Changes (never_failing_holding self.old)
            (never_failing_holding self.new) result (unstaged c name.now) }
        ensures ok { IsOk result }
    {
        self.store.remove(c, name);
        Ok(())
    }

    fn list(&mut self, c: ClientId, after: Option<&Name>, n: u32) -> Result<NameList, Down>
        ensures answers { Answers (never_failing_holding self.old)
            (never_failing_holding self.new) result
            (names_after c (option_copied after.entry) n) }
        ensures memory { IfErr result (λ e. e ≡ Memory) }
    {
        Ok(self.store.list(c, after, n)?)
    }
}
