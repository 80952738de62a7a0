//! The bytes of a row.
ghost use Rattle.std.specs.Prelude.{◌≡◌, [], ◌++◌, IfOk, IfSome, IsTrue};
ghost use Rattle.std.specs.Cow.{cow_slice_items};
ghost use Rattle.std.specs.Option.{IsSome};
ghost use Rattle.jv_model.specs.Lists.{AreBytes};
ghost use Rattle.jv_model.specs.promise.rows.RowBytes.{held_bytes};
ghost use Rattle.jv_model.specs.promise.rows.RowGrammar.{list_of};

use crate::sequence::Sequence;
use crate::tables::RECORD_LENGTH;
use crate::texts::Bytes;
use bytes::Bytes as Shared;
use std::alloc::{AllocError, Global};
use std::borrow::CowSlice;
use std::marker::Model;
use std::sync::Arc;

/// The most bytes that stand in the row itself: as many as two records have, and more than the node of a file.
const MAX_SHORT: usize = 2 * RECORD_LENGTH;

/// The most bytes that stand behind the others of a list: those of 64 records.
const MAX_BACK: usize = 64 * RECORD_LENGTH;

/// How the bytes of a row are held.
#[derive(Debug, Drop)]
enum Held {
    /// In the row itself: their number, and an array whose first ones they are.
    Short(usize, [u8; MAX_SHORT]),
    /// By all who have copies of them.
    Shared(Shared),
    /// Those of a list of records, the last ones apart.
    List(Shared, Arc<Vec<u8>, Global>),
}

/// The bytes of a row, of which a few stand in the row itself and more are shared by those who have them. Those that
/// were found to be a list of records stay known as one, and get one record more without a copy of all, but for each
/// 65th time. Contracts see a list.
#[derive(Debug, Drop)]
pub struct RowBytes {
    held: Held,
}

impl Model for RowBytes {
    ghost use Rattle.std.specs.Prelude.{ℕ, List};
    ghost use Rattle.jv_model.specs.promise.rows.RowBytes.{held_bytes};
    ghost use Rattle.jv_model.specs.rows.RowBytes.{KnowsLists};

    ghost Value = { List ℕ };

    ghost view = { λ row. held_bytes row.held };

    ghost invariant = { λ row. KnowsLists row.held };
}

/// Bytes with others behind them.
fn joined(alloc: Global, front: &[u8], back: &[u8]) -> Result<Vec<u8>, AllocError>
    ensures { IfOk result (λ both. both.items ≡ front.now ++ back.now) }
{
    let mut both = Vec::with_capacity(alloc, front.len().saturating_add(back.len()))?;
    both.extend_from_slice(front)?;
    both.extend_from_slice(back)?;
    Ok(both)
}

/// Bytes are below 256: a law, which runs no code.
pub fn are_bytes(bytes: &[u8])
    ensures { AreBytes bytes.now }
{}

impl Held {
    /// The bytes: the first ones, and those behind them.
    fn parts(&self) -> (&[u8], &[u8])
        ensures { result.0.now ++ result.1.now ≡ held_bytes self.now }
    {
        match self {
            Held::Short(count, short) => (&short[..MAX_SHORT.min(*count)], &[]),
            Held::Shared(shared) => (shared.as_slice(), &[]),
            Held::List(front, back) => (front.as_slice(), back.as_slice()),
        }
    }

    /// The bytes without a copy, where they stand in one piece.
    fn whole(&self) -> Option<&[u8]>
        ensures { IfSome result (λ bytes. bytes.now ≡ held_bytes self.now) }
    {
        match self {
            Held::Short(count, short) => Some(&short[..MAX_SHORT.min(*count)]),
            Held::Shared(shared) => Some(shared.as_slice()),
            Held::List(_, _) => None,
        }
    }
}

impl RowBytes {
    /// No bytes. Takes no memory.
    pub fn new() -> RowBytes
        ensures { result ≡ [] }
    {
        RowBytes {
            held: Held::Short(0, [0; MAX_SHORT]),
        }
    }

    /// Bytes as those of a row. The only error is out of memory.
    pub fn from_bytes(bytes: Bytes) -> Result<RowBytes, AllocError>
        ensures { IfOk result (λ row. row ≡ bytes) }
    {
        let count = bytes.len();
        if count > MAX_SHORT {
            return Ok(RowBytes {
                held: Held::Shared(Shared::from_vec(bytes.into_vec())?),
            });
        }
        let mut short = [0; MAX_SHORT];
        short[..count].copy_from_slice(bytes.as_slice());
        Ok(RowBytes {
            held: Held::Short(count, short),
        })
    }

    /// The same bytes once more, in constant time. The only error is out of memory.
    pub fn shared(&self) -> Result<RowBytes, AllocError>
        ensures { IfOk result (λ row. row ≡ self.now) }
    {
        let held = match &self.held {
            Held::Short(count, short) => Held::Short(*count, *short),
            Held::Shared(shared) => Held::Shared(shared.clone()?),
            Held::List(front, back) => Held::List(front.clone()?, Arc::try_clone(back)?),
        };
        Ok(RowBytes { held })
    }

    /// Whether the bytes are known to be a list of records. That some are one may be unknown.
    pub fn is_list(&self) -> bool
        ensures { IsTrue result → IsSome (list_of self.now) }
    {
        matches!(self.held, Held::List(_, _))
    }

    /// The bytes with a record's behind them, which together are a list of records. The only error is out of memory.
    pub fn with_record(&self, alloc: Global, spelled: &[u8]) -> Result<RowBytes, AllocError>
        requires { IsSome (list_of (self.now ++ spelled.now)) }
        ensures { IfOk result (λ row. row ≡ self.now ++ spelled.now) }
    {
        if let Held::List(front, back) = &self.held {
            if back.len().saturating_add(spelled.len()) <= MAX_BACK {
                let longer = joined(alloc, back.as_slice(), spelled)?;
                return Ok(RowBytes {
                    held: Held::List(front.clone()?, Arc::new(alloc, longer)?),
                });
            }
        }
        let mut all = self.copied(alloc)?.into_vec();
        all.extend_from_slice(spelled)?;
        Ok(RowBytes {
            held: Held::List(Shared::from_vec(all)?, Arc::new(alloc, Vec::new(alloc))?),
        })
    }

    /// The bytes in one piece. They are copied where they are known to be a list. The only error is out of memory.
    pub fn joined(&self, alloc: Global) -> Result<CowSlice<'_, u8, Global>, AllocError>
        ensures { IfOk result (λ bytes. cow_slice_items bytes ≡ self.now) }
    {
        match self.held.whole() {
            Some(bytes) => Ok(CowSlice::Borrowed(bytes)),
            None => Ok(CowSlice::Owned(self.copied(alloc)?.into_vec())),
        }
    }

    /// A copy of the bytes. The only error is out of memory.
    pub fn copied(&self, alloc: Global) -> Result<Bytes, AllocError>
        ensures { IfOk result (λ bytes. bytes ≡ self.now) }
    {
        let (front, back) = self.held.parts();
        Ok(Sequence::from_vec(joined(alloc, front, back)?))
    }

    /// Bytes are below 256: a law, which reads nothing.
    pub fn are_bytes(&self)
        ensures { AreBytes self.now }
    {
        let (front, back) = self.held.parts();
        are_bytes(front);
        are_bytes(back);
    }
}
