//! Counts of slices, brought in line with records that went and came.
ghost use Rattle.std.specs.Prelude.{◌≡◌, ℕ, ◌||◌, if◌then◌else◌, is_some, None, Some, MatchOption, OnOk, IfOk, IsTrue};
ghost use Rattle.std.specs.Ordering.{nat_cmp};
ghost use Rattle.std.specs.BTreeMap.{get};
ghost use Rattle.jv_model.specs.declared.row.Row.TheVariants.{OfSlice};
ghost use Rattle.jv_model.specs.promise.rows.RowGrammar.{is_slice};
ghost use Rattle.jv_model.specs.promise.rows.RowKeys.{RowMap};
ghost use Rattle.jv_model.specs.promise.rows.RowPlaces.{slice_key};
ghost use Rattle.jv_rows.specs.Counts.{stored_count, recounted, may_become, with_count, LeavesStored, Recounts, Adjusts};
ghost use Rattle.jv_rows.specs.Drafts.{Sees, Needs, drafted};

use crate::drafts::Draft;
use crate::keys::key_of_slice;
use crate::needing::lacks;
use crate::reading::read_slice;
use jv_model::{Dead, FULL_COUNT, Fault, Rec, RowFault, SliceRow, TxFault};
use jv_outside::Keeper;
use std::alloc::{AllocError, Global};
use std::collections::BTreeMap;

/// How many records name each slice.
fn count_records(alloc: Global, records: &[Rec]) -> Result<BTreeMap<u64, u64>, AllocError>
    ensures { IfOk result (λ counts. (id : ℕ) → get nat_cmp counts id
        ≡ stored_count records.now id) }
{
    let mut counts = BTreeMap::new(alloc);
    for record in records {
        if record.id != 0 {
            let count = counts.get(&record.id).copied().unwrap_or(0);
            counts.insert(record.id, count + 1)?;
        }
    }
    Ok(counts)
}

/// A slice that one of the maps has, where they have any.
fn any_counted(gone: &BTreeMap<u64, u64>, added: &BTreeMap<u64, u64>) -> Option<u64>
    ensures { MatchOption result
        ((id : ℕ) → (get nat_cmp gone.now id ≡ None) × (get nat_cmp added.now id ≡ None))
        (λ id. IsTrue (is_some (get nat_cmp gone.now id) || is_some (get nat_cmp added.now id))) }
{
    if let Some((id, _)) = gone.first_key_value() {
        return Some(*id);
    }
    if let Some((id, _)) = added.first_key_value() {
        return Some(*id);
    }
    None
}

/// A count with `gone` records less and `added` more, or none where it would grow past [`jv_model::FULL_COUNT`].
fn next_count(count: u64, gone: u64, added: u64) -> Option<u64>
    ensures { result ≡ (if may_become count (recounted count gone added)
        then Some (recounted count gone added) else None) }
{
    if added <= gone {
        return Some(count.saturating_sub(gone - added));
    }
    let more = added - gone;
    if FULL_COUNT < count || FULL_COUNT - count < more {
        return None;
    }
    Some(count + more)
}

/// Adds that the slice has this size and count: its row, or where nothing names it, no row and a dead slice. Out of
/// memory the first of these changes is added, or none.
fn put_count(draft: &mut Draft, id: u64, slice: &SliceRow, due: u64) -> Result<(), AllocError>
    ensures { OnOk result ((known : RowMap) → drafted draft.new known
        ≡ with_count id slice.now due (drafted draft.old known)) }
{
    if slice.count > 0 {
        return draft.put_slice(id, slice);
    }
    draft.drop_slice(id)?;
    let size = slice.size;
    draft.put_dead(id, &Dead { size, due })
}

/// A slice, read from the keeper at once where no change is of its row.
fn seen_slice<K: Keeper>(
    alloc: Global,
    k: &mut K,
    draft: &Draft,
    id: u64,
    is_stored: bool,
) -> Result<Option<SliceRow>, RowFault>
    requires { IsTrue is_stored → LeavesStored (slice_key id) draft.now }
    ensures { Sees OfSlice is_slice (slice_key id) draft.now (K.seen k.old) (K.seen k.new) result }
{
    if is_stored {
        return read_slice(alloc, k, id);
    }
    draft.slice(k, id)
}

/// A slice that has to be there.
fn needed_slice<K: Keeper>(
    alloc: Global,
    k: &mut K,
    draft: &Draft,
    id: u64,
    is_stored: bool,
) -> Result<SliceRow, TxFault>
    requires { IsTrue is_stored → LeavesStored (slice_key id) draft.now }
    ensures { Needs OfSlice is_slice (slice_key id) draft.now (K.seen k.old) (K.seen k.new) result }
{
    match seen_slice(alloc, k, draft, id, is_stored)? {
        Some(slice) => Ok(slice),
        None => Err(lacks(alloc, key_of_slice(alloc, id))),
    }
}

/// A slice, and how many of its records went and came.
#[derive(Clone, Copy)]
struct Turnover {
    id: u64,
    gone: u64,
    added: u64,
}

/// Recounts a slice. After an error the first of its changes may be added.
fn recount<K: Keeper>(
    alloc: Global,
    k: &mut K,
    draft: &mut Draft,
    turnover: &Turnover,
    due: u64,
    is_stored: bool,
) -> Result<(), TxFault>
    requires { IsTrue is_stored → LeavesStored (slice_key turnover.now.id) draft.old }
    ensures { Recounts turnover.now.id turnover.now.gone turnover.now.added due
        (K.seen k.old) (K.seen k.new) draft.old draft.new result }
{
    let id = turnover.id;
    let slice = needed_slice(alloc, k, draft, id, is_stored)?;
    let Some(count) = next_count(slice.count, turnover.gone, turnover.added) else {
        return Err(TxFault::Refused(Fault::NoSpace));
    };
    let size = slice.size;
    put_count(draft, id, &SliceRow { size, count }, due)?;
    Ok(())
}

/// Brings the counts of slices in line with records that went and came: the count of each slice that they name is
/// raised by those that came and lowered by those that went. A slice that nothing names any more loses its row and is
/// dead, with its size, and its blocks may be removed from `due` on, in seconds.
///
/// # Errors
///
/// Refused with NoSpace where a count would grow past [`jv_model::FULL_COUNT`]. [`RowFault::Bad`] for a slice's row that is
/// malformed, or without bytes where it is absent; [`RowFault::Failed`] if the keeper failed; [`RowFault::Memory`] out of
/// memory. After an error some of the changes may be added, and the draft is of no use.
pub fn adjust<K: Keeper>(
    alloc: Global,
    k: &mut K,
    draft: &mut Draft,
    gone: &[Rec],
    added: &[Rec],
    due: u64,
) -> Result<(), TxFault>
    ensures { Adjusts gone.now added.now due (K.seen k.old) (K.seen k.new)
        draft.old draft.new result }
{
    let is_stored = !draft.changes_slices();
    let mut fewer = count_records(alloc, gone)?;
    let mut more = count_records(alloc, added)?;
    while let Some(id) = any_counted(&fewer, &more) {
        let turnover = Turnover {
            id,
            gone: fewer.remove(&id).unwrap_or(0),
            added: more.remove(&id).unwrap_or(0),
        };
        recount(alloc, k, draft, &turnover, due, is_stored)?;
    }
    Ok(())
}
