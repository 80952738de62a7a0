//! Each slice gets the next number, which no other one had.
ghost use Rattle.std.specs.Prelude.{◌<◌, IfOk};
ghost use Rattle.jv_data.specs.Records.{TakesNumber};

use jv_model::{Counters, FULL_COUNT, Fault, RowFault, TxFault, Who};
use jv_outside::Keeper;
use jv_rows::{Draft, in_session, needed_counters};
use std::alloc::Global;

/// Returns the number of the next slice, from 1 on, which no other slice gets. JuiceFS, Internals: slices.
///
/// # Errors
///
/// Stale where the session is gone; then NoSpace where the number stands at [`jv_model::FULL_COUNT`]. Bad for a malformed row, or without
/// bytes where the counters are absent. Failed if the keeper failed. Memory. On error no row has changed.
pub fn next_id<K: Keeper>(alloc: Global, k: &mut K, who: &Who) -> Result<u64, TxFault>
    ensures taken { TakesNumber who.entry.now.sid (K.seen k.old) (K.seen k.new) result }
    ensures positive { IfOk result (λ id. 0 < id) }
{
    in_session(alloc, k, who.sid)?;
    let mut draft = Draft::new(alloc);
    let counters = needed_counters(alloc, k, &draft)?;
    let id = counters.slice;
    if id >= FULL_COUNT {
        return Err(TxFault::Refused(Fault::NoSpace));
    }
    let after = Counters {
        slice: id + 1,
        ..counters
    };
    draft.put_counters(&after)?;
    match draft.commit(k) {
        Ok(()) => Ok(id),
        Err(down) => Err(TxFault::Rows(RowFault::from(down))),
    }
}
