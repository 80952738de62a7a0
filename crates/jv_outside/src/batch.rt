ghost use Rattle.std.specs.Prelude.{◌≡◌, ◌^◌, ◌<◌, [], ◌∷◌, ◌++◌, length, OnOk, OnErr, IsTrue, ◌↔◌};

use jv_model::row_bytes::RowBytes;
use jv_model::{RowKey, Sequence};
use std::alloc::{AllocError, Global};
use std::marker::Model;

/// A change of one row.
#[derive(Debug, Drop)]
pub enum Change {
    /// The row has these bytes from then on, whether it was there or not.
    Put(RowKey, RowBytes),
    /// The row is gone from then on, whether it was there or not.
    Del(RowKey),
}

/// Changes in the order in which they are made, all or none of them. Contracts see them as a list.
#[derive(Debug, Drop)]
pub struct Batch {
    changes: Sequence<Change>,
}

impl Model for Batch {
    ghost use Rattle.std.specs.Prelude.{List};
    ghost use Rattle.jv_outside.specs.declared.batch.Change.{Change};

    ghost Value = { List Change };

    ghost view = { λ b. b.changes };
}

impl Batch {
    ghost use Rattle.jv_outside.specs.declared.batch.Change.TheVariants.{Put, Del};

    /// No changes. Takes no memory.
    pub fn new(alloc: Global) -> Batch
        ensures { result ≡ [] }
    {
        Batch {
            changes: Sequence::new(alloc),
        }
    }

    /// Adds that the row has these bytes from then on. Out of memory, nothing has changed.
    pub fn put(&mut self, key: RowKey, bytes: RowBytes) -> Result<(), AllocError>
        ensures ok { OnOk result (self.new ≡ self.old ++ Put key bytes ∷ []) }
        ensures err { OnErr result (self.new ≡ self.old) }
    {
        self.changes.push(Change::Put(key, bytes))
    }

    /// Adds that the row is gone from then on. Out of memory, nothing has changed.
    pub fn del(&mut self, key: RowKey) -> Result<(), AllocError>
        ensures ok { OnOk result (self.new ≡ self.old ++ Del key ∷ []) }
        ensures err { OnErr result (self.new ≡ self.old) }
    {
        self.changes.push(Change::Del(key))
    }

    /// The number of changes.
    pub fn len(&self) -> usize
        ensures length { result ≡ length self.now }
        ensures small { result < 2 ^ 63 }
    {
        self.changes.len()
    }

    /// Whether it changes nothing.
    pub fn is_empty(&self) -> bool
        ensures { IsTrue result ↔ (self.now ≡ []) }
    {
        self.changes.is_empty()
    }

    /// The changes, in their order.
    pub fn as_slice(&self) -> &[Change]
        ensures { result.now ≡ self.now }
    {
        self.changes.as_slice()
    }
}
