//! One more record in the list of a window: its bytes go behind those of the row, which are gone over where they aren't
//! known to be a list, and not made one.
ghost use Rattle.std.specs.Prelude.{◌≡◌, ◌++◌, ◌∷◌, [], IfOk, OnOk, OnErr};
ghost use Rattle.std.specs.Option.{IsSome};
ghost use Rattle.jv_model.specs.declared.tables.TheConstants.{TABLE_OF_LISTS};
ghost use Rattle.jv_model.specs.promise.blocks.Slices.{IsRecord};
ghost use Rattle.jv_model.specs.promise.rows.RowGrammar.{record_bytes, list_of};
ghost use Rattle.jv_outside.specs.declared.batch.Change.TheVariants.{Put};
ghost use Rattle.jv_rows.specs.Appending.{Judges, FindsLeft, AppendsTo, Appends};

use crate::allowed::allows_record;
use crate::drafts::{Draft, last_of};
use crate::keys::key_of_list;
use crate::misread::Misread;
use crate::parsing::take_record;
use crate::spelling::put_record;
use crate::widths::has_record_widths;
use jv_model::row_bytes::RowBytes;
use jv_model::tables::RECORD_LENGTH;
use jv_model::{Down, Rec, RowFault, RowKey};
use jv_outside::{Change, Keeper};
use std::alloc::{AllocError, Global};

/// Goes over the records that the bytes spell, and returns whether they are a list.
fn judge_list(bytes: &[u8]) -> Result<(), Misread>
    ensures { Judges result (list_of bytes.now) }
{
    let count = bytes.len() / RECORD_LENGTH;
    if count == 0 {
        return Err(Misread::Malformed);
    }
    let mut rest = bytes;
    for _ in 0..count {
        let (record, after) = take_record(rest)?;
        let allowed = allows_record(&record);
        if !allowed {
            return Err(Misread::Malformed);
        }
        rest = after;
    }
    let over = rest.is_empty();
    if over {
        Ok(())
    } else {
        Err(Misread::Malformed)
    }
}

/// Whether the bytes of a row are a list, which are gone over where that isn't known.
fn judge(alloc: Global, bytes: &RowBytes) -> Result<(), Misread>
    ensures { Judges result (list_of bytes.now) }
{
    if bytes.is_list() {
        return Ok(());
    }
    judge_list(bytes.joined(alloc)?.as_slice())
}

/// The bytes with those of a record behind them, which together are a list.
fn with_record(alloc: Global, bytes: &RowBytes, rec: &Rec) -> Result<RowBytes, AllocError>
    requires { IsSome (list_of (bytes.now ++ record_bytes rec.now)) }
    ensures { IfOk result (λ longer. longer ≡ bytes.now ++ record_bytes rec.now) }
{
    let mut spelled = Vec::with_capacity(alloc, RECORD_LENGTH)?;
    put_record(&mut spelled, rec)?;
    bytes.with_record(alloc, spelled.as_slice())
}

impl Draft {
    /// Adds that the window of the file has one record more, behind those that it has. The draft reads its own changes.
    ///
    /// # Errors
    ///
    /// [`RowFault::Bad`] where the row's bytes are malformed, [`RowFault::Failed`] if the keeper failed, and
    /// [`RowFault::Memory`] out of memory. On error nothing has changed.
    pub fn append_record<K: Keeper>(
        &mut self,
        k: &mut K,
        inode: u64,
        window: u32,
        rec: &Rec,
    ) -> Result<(), RowFault>
        requires { IsRecord rec.now }
        ensures { Appends inode window rec.now self.old self.new
            (K.seen k.old) (K.seen k.new) result }
    {
        let key = key_of_list(self.alloc, inode, window)?;
        match self.bytes_at(k, &key)? {
            Some(bytes) => self.put_behind(key, bytes, rec),
            None => {
                has_record_widths(rec);
                self.put_longer(key, &RowBytes::new(), rec)?;
                Ok(())
            }
        }
    }

    // The bytes at a key once the changes are made.
    fn bytes_at<K: Keeper>(&self, k: &mut K, key: &RowKey) -> Result<Option<RowBytes>, Down>
        ensures { FindsLeft self.now key.now (K.seen k.old) (K.seen k.new) result }
    {
        match last_of(key, self.batch.as_slice()) {
            None => k.get(key),
            Some(Change::Put(_, bytes)) => Ok(Some(bytes.shared()?)),
            Some(Change::Del(_)) => Ok(None),
        }
    }

    // Adds that a list, which these bytes spell, has one record more.
    fn put_behind(&mut self, key: RowKey, bytes: RowBytes, rec: &Rec) -> Result<(), RowFault>
        requires tab { key.tab ≡ TABLE_OF_LISTS }
        requires record { IsRecord rec.now }
        ensures { AppendsTo key bytes rec.now self.old self.new result }
    {
        has_record_widths(rec);
        bytes.are_bytes();
        match judge(self.alloc, &bytes) {
            Ok(()) => {
                self.put_longer(key, &bytes, rec)?;
                Ok(())
            }
            Err(Misread::Malformed) => Err(RowFault::Bad(key, bytes.copied(self.alloc)?)),
            Err(Misread::Memory) => Err(RowFault::Memory),
        }
    }

    // Adds that the row at a key has these bytes and those of a record behind them.
    fn put_longer(&mut self, key: RowKey, bytes: &RowBytes, rec: &Rec) -> Result<(), AllocError>
        requires { IsSome (list_of (bytes.now ++ record_bytes rec.now)) }
        ensures ok { OnOk result (self.new ≡ self.old
            ++ Put key (bytes.now ++ record_bytes rec.now) ∷ []) }
        ensures err { OnErr result (self.new ≡ self.old) }
    {
        let longer = with_record(self.alloc, bytes, rec)?;
        self.batch.put(key, longer)
    }
}
