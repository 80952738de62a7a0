//! Places of runs in their map: making one, and taking its run out and putting another in.
ghost use Rattle.std.specs.Prelude.{◌≡◌, ◌+◌, ◌<◌, ◌≤◌, ◌^◌, [], ◌∷◌, ◌++◌, length, take, max, OnOk, OnErr, IfOk, Some, unwrap_or, IsSome, if◌then◌else◌};
ghost use Rattle.jv_model.specs.declared.limits.TheConstants.{FILE_END};
ghost use Rattle.jv_pending.specs.Runs.{place_of, bytes_at, Rise, without_run, runs_before, runs_from, with_runs, given_back};

use crate::run::{RunStart, Runs, first_from};
use crate::run_bytes::RunBytes;
use std::alloc::{AllocError, Global};
use std::mem;

/// A run that was taken out of its place, in which no bytes are left.
#[derive(Debug, Drop)]
pub(crate) struct Taken {
    /// The bytes of the run, then zeros.
    pub(crate) run: RunBytes,
    /// The number of bytes of the run.
    pub(crate) len: usize,
    /// Whether there was no run, and its place is new.
    pub(crate) is_new: bool,
}

/// Makes sure that a run is at a place, one with no bytes where there was none. Returns whether there was none.
fn make_place(alloc: Global, runs: &mut Runs, start: RunStart) -> Result<bool, AllocError>
    requires rise { Rise 0 runs.old.entries }
    requires file { start.from < FILE_END }
    ensures rise { Rise 0 runs.new.entries }
    ensures there { OnOk result (bytes_at start runs.new.entries
        ≡ Some (unwrap_or (bytes_at start runs.old.entries) [])) }
    ensures before { OnOk result (runs_before (place_of start) runs.new.entries
        ≡ runs_before (place_of start) runs.old.entries) }
    ensures after { OnOk result (runs_from (place_of start + 1) runs.new.entries
        ≡ runs_from (place_of start + 1) runs.old.entries) }
    ensures old { IfOk result (λ is_new. runs.old.entries
        ≡ (if is_new then without_run start runs.new.entries else runs.new.entries)) }
    ensures err { OnErr result (runs.new.entries ≡ runs.old.entries) }
{
    if runs.contains_key(&start) {
        return Ok(false);
    }
    match runs.insert(start, RunBytes::new(alloc)) {
        Ok(_) => Ok(true),
        Err(_) => Err(AllocError),
    }
}

/// Puts other bytes into the run at a place, and returns those that it had. Takes no memory.
pub(crate) fn swap_bytes(runs: &mut Runs, start: RunStart, bytes: RunBytes) -> RunBytes
    requires rise { Rise 0 runs.old.entries }
    requires file { start.from < FILE_END }
    requires there { IsSome (bytes_at start runs.old.entries) }
    ensures bytes { bytes_at start runs.old.entries ≡ Some result }
    ensures runs { runs.new.entries
        ≡ with_runs ((start, bytes) ∷ []) (place_of start + 1) runs.old.entries }
{
    mem::replace(runs.get_mut(&start).unwrap(), bytes)
}

/// Takes the run at a place out, or no bytes where there was no run, and adds zeros until there are `len` bytes.
/// The place is kept or made. On error nothing has changed.
pub(crate) fn take_run(
    alloc: Global,
    runs: &mut Runs,
    start: RunStart,
    len: usize,
) -> Result<Taken, AllocError>
    requires rise { Rise 0 runs.old.entries }
    requires file { start.from < FILE_END }
    requires small { len < 2 ^ 63 }
    ensures rise { Rise 0 runs.new.entries }
    ensures there { OnOk result (IsSome (bytes_at start runs.new.entries)) }
    ensures before { OnOk result (runs_before (place_of start) runs.new.entries
        ≡ runs_before (place_of start) runs.old.entries) }
    ensures after { OnOk result (runs_from (place_of start + 1) runs.new.entries
        ≡ runs_from (place_of start + 1) runs.old.entries) }
    ensures run { IfOk result (λ taken. take taken.len taken.run
        ≡ unwrap_or (bytes_at start runs.old.entries) []) }
    ensures len { IfOk result (λ taken. taken.len
        ≡ length (unwrap_or (bytes_at start runs.old.entries) [])) }
    ensures long { IfOk result (λ taken. length taken.run ≡ max len taken.len) }
    ensures old { IfOk result (λ taken. given_back start taken.is_new (take taken.len taken.run)
        runs.new.entries
        ≡ runs.old.entries) }
    ensures err { OnErr result (runs.new.entries ≡ runs.old.entries) }
{
    let is_new = make_place(alloc, runs, start)?;
    let mut run = swap_bytes(runs, start, RunBytes::new(alloc));
    let count = run.len();
    let lengthened = run.lengthen(len);
    let taken = Taken {
        run,
        len: count,
        is_new,
    };
    match lengthened {
        Ok(()) => Ok(taken),
        Err(refused) => {
            give_back(runs, start, taken);
            Err(refused)
        }
    }
}

/// Gives a run back that was taken out of a place, with the bytes that it had. Takes no memory.
pub(crate) fn give_back(runs: &mut Runs, start: RunStart, taken: Taken)
    requires rise { Rise 0 runs.old.entries }
    requires file { start.from < FILE_END }
    requires there { IsSome (bytes_at start runs.old.entries) }
    requires small { taken.len < 2 ^ 63 }
    ensures { runs.new.entries ≡ given_back start taken.is_new (take taken.len taken.run)
        runs.old.entries }
{
    if taken.is_new {
        runs.remove(&start);
        return;
    }
    let mut run = taken.run;
    run.truncate(taken.len);
    swap_bytes(runs, start, run);
}

/// Takes the runs out that begin at `first` or later, and before `end`. Takes no memory.
fn remove_runs(runs: &mut Runs, first: RunStart, end: RunStart)
    requires rise { Rise 0 runs.old.entries }
    requires first { first.from ≤ FILE_END }
    requires end { end.from ≤ FILE_END }
    requires forward { place_of first ≤ place_of end }
    ensures { runs.new.entries
        ≡ runs_before (place_of first) runs.old.entries
        ++ runs_from (place_of end) runs.old.entries }
{
    while let Some((start, _)) = first_from(runs, first) {
        if end.cmp(&start).is_le() {
            break;
        }
        runs.remove(&start);
    }
}

/// Puts a run into the place of those that begin from `start` on and before `end`. Takes no memory.
pub(crate) fn put_over(runs: &mut Runs, start: RunStart, end: RunStart, bytes: RunBytes)
    requires rise { Rise 0 runs.old.entries }
    requires start { start.from < FILE_END }
    requires end { end.from ≤ FILE_END }
    requires forward { place_of start < place_of end }
    requires there { IsSome (bytes_at start runs.old.entries) }
    ensures { runs.new.entries ≡ with_runs ((start, bytes) ∷ []) (place_of end) runs.old.entries }
{
    remove_runs(runs, start.next(), end);
    swap_bytes(runs, start, bytes);
}
