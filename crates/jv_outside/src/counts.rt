//! What tests and scenes read of devices in memory, without a call of theirs: how often they were called, how many of the
//! calls failed, where they are opened and what they hold.
ghost use Rattle.std.specs.Prelude.{◌≡◌, IfOk, None};
ghost use Rattle.std.specs.Option.{option_copied};
ghost use Rattle.jv_outside.specs.Blocks.{names_after};
ghost use Rattle.jv_outside.specs.promise.Blocks.{staged_at};
ghost use Rattle.jv_outside.specs.promise.Objects.{bytes_at};
ghost use Rattle.jv_outside.specs.Objects.{seen_after};
ghost use Rattle.jv_outside.specs.Rows.{rows_after};

use crate::mem_carrier::MemCarrier;
use crate::mem_clock::MemClock;
use crate::mem_depot::MemDepot;
use crate::mem_keeper::MemKeeper;
use crate::mem_shelf::MemShelf;
use crate::mem_sink::MemSink;
use crate::mem_source::MemSource;
use jv_model::{Bytes, ClientId, Name, NameList, Rows, SeenList, Text};
use std::alloc::AllocError;

impl MemSource {
    /// The number of calls so far. It saturates at 2^64 - 1.
    pub fn made(&self) -> u64
        ensures { result ≡ self.now.calls.made }
    {
        self.calls.made()
    }

    /// The number of calls that failed. It saturates at 2^64 - 1.
    pub fn faults(&self) -> u64
        ensures { result ≡ self.now.calls.faults }
    {
        self.calls.faults()
    }
}

impl MemSink {
    /// The number of calls so far. It saturates at 2^64 - 1.
    pub fn made(&self) -> u64
        ensures { result ≡ self.now.calls.made }
    {
        self.calls.made()
    }

    /// The number of calls that failed. It saturates at 2^64 - 1.
    pub fn faults(&self) -> u64
        ensures { result ≡ self.now.calls.faults }
    {
        self.calls.faults()
    }
}

impl MemClock {
    /// The number of calls so far. It saturates at 2^64 - 1.
    pub fn made(&self) -> u64
        ensures { result ≡ self.now.calls.made }
    {
        self.calls.made()
    }

    /// The number of calls that failed. It saturates at 2^64 - 1.
    pub fn faults(&self) -> u64
        ensures { result ≡ self.now.calls.faults }
    {
        self.calls.faults()
    }
}

impl MemKeeper {
    /// The number of calls so far, of all four kinds. It saturates at 2^64 - 1.
    pub fn made(&self) -> u64
        ensures { result ≡ self.now.calls.made }
    {
        self.calls.made()
    }

    /// The number of calls that failed. It saturates at 2^64 - 1.
    pub fn faults(&self) -> u64
        ensures { result ≡ self.now.calls.faults }
    {
        self.calls.faults()
    }

    /// The place where the keeper was opened last, if it was.
    pub fn opened(&self) -> Option<&[u8]>
        ensures { option_copied result ≡ self.now.opened }
    {
        place_of(&self.opened)
    }

    /// The first [`u32::MAX`] rows of a table in the order of their keys. It is no call, and so never fails but out of
    /// memory.
    pub fn rows_in(&mut self, tab: u8) -> Result<Rows, AllocError>
        ensures same { self.new ≡ self.old }
        ensures found { IfOk result (λ found. found ≡ rows_after self.old.rows tab None u32.MAX) }
    {
        self.store.scan(tab, None, u32::MAX)
    }
}

impl MemDepot {
    /// The number of calls so far, of all five kinds. It saturates at 2^64 - 1.
    pub fn made(&self) -> u64
        ensures { result ≡ self.now.calls.made }
    {
        self.calls.made()
    }

    /// The number of calls that failed. It saturates at 2^64 - 1.
    pub fn faults(&self) -> u64
        ensures { result ≡ self.now.calls.faults }
    {
        self.calls.faults()
    }

    /// The place where the depot was opened last, if it was.
    pub fn opened(&self) -> Option<&[u8]>
        ensures { option_copied result ≡ self.now.opened }
    {
        place_of(&self.opened)
    }

    /// The first [`u32::MAX`] objects in the order of their names. It is no call, and so never fails but out of memory.
    pub fn objects(&mut self) -> Result<SeenList, AllocError>
        ensures same { self.new ≡ self.old }
        ensures found { IfOk result (λ found. found ≡ seen_after None u32.MAX self.old.content) }
    {
        self.store.list(None, u32::MAX)
    }

    /// The bytes of an object. It is no call, and so never fails but out of memory.
    pub fn bytes_of(&mut self, name: &Name) -> Result<Option<Bytes>, AllocError>
        ensures same { self.new ≡ self.old }
        ensures value { IfOk result (λ value. value ≡ bytes_at name.now self.old.content) }
    {
        self.store.get(name)
    }
}

impl MemCarrier {
    /// The number of calls so far, of both kinds. It saturates at 2^64 - 1.
    pub fn made(&self) -> u64
        ensures { result ≡ self.now.calls.made }
    {
        self.calls.made()
    }

    /// The number of calls that failed. It saturates at 2^64 - 1.
    pub fn faults(&self) -> u64
        ensures { result ≡ self.now.calls.faults }
    {
        self.calls.faults()
    }

    /// The place where the carrier was opened last, if it was.
    pub fn opened(&self) -> Option<&[u8]>
        ensures { option_copied result ≡ self.now.opened }
    {
        place_of(&self.opened)
    }
}

impl MemShelf {
    /// The number of calls so far, of all five kinds. It saturates at 2^64 - 1.
    pub fn made(&self) -> u64
        ensures { result ≡ self.now.calls.made }
    {
        self.calls.made()
    }

    /// The number of calls that failed. It saturates at 2^64 - 1.
    pub fn faults(&self) -> u64
        ensures { result ≡ self.now.calls.faults }
    {
        self.calls.faults()
    }

    /// The place where the shelf was opened last, if it was.
    pub fn opened(&self) -> Option<&[u8]>
        ensures { option_copied result ≡ self.now.opened }
    {
        place_of(&self.opened)
    }

    /// The first [`u32::MAX`] names of a client's blocks in their order. It is no call, and so never fails but out of
    /// memory.
    pub fn names_of(&mut self, c: ClientId) -> Result<NameList, AllocError>
        ensures same { self.new ≡ self.old }
        ensures found { IfOk result (λ found. found ≡ names_after c None u32.MAX self.old.content) }
    {
        self.store.list(c, None, u32::MAX)
    }

    /// The bytes of a client's block. It is no call, and so never fails but out of memory.
    pub fn bytes_of(&mut self, c: ClientId, name: &Name) -> Result<Option<Bytes>, AllocError>
        ensures same { self.new ≡ self.old }
        ensures value { IfOk result (λ value. value ≡ staged_at c name.now self.old.content) }
    {
        self.store.get(c, name)
    }
}

/// The place, if there is one.
fn place_of(opened: &Option<Text>) -> Option<&[u8]>
    ensures { option_copied result ≡ opened.now }
{
    match opened {
        Some(place) => Some(place.as_slice()),
        None => None,
    }
}
