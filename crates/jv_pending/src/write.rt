//! Writes over runs. A write is cut where windows end, so that each part touches the runs of one window.
//!
//! `write_runs` writes at once into a run that is the only one touched, as where each write begins at the end of the last.
//!
//! Else it finds the first run that is touched, and `write_from` writes window by window: it asks for the memory of a
//! window, then writes the rest, and then that window, so that nothing fails once something has changed. In the last
//! window `write_window` joins the touched runs: `join_behind` moves the bytes behind the write into the run at its
//! start, and `join_before` those before it into the last run, where that one is longer. So each byte is moved a
//! logarithmic number of times at most.
ghost use Rattle.std.specs.Prelude.{◌≡◌, ◌+◌, ◌-◌, ◌<◌, ◌≤◌, ◌^◌, ◌%◌, [], ◌∷◌, ◌++◌, length, take, OnOk, OnErr, IfOk, Some, unwrap_or, IsSome, IfSome};
ghost use Rattle.jv_model.specs.declared.limits.TheConstants.{FILE_END};
ghost use Rattle.jv_model.specs.promise.client.Pending.{written};
ghost use Rattle.jv_pending.specs.Runs.{place_of, bytes_at, gap, pending_bytes, InOrder, Rise, IsFirst, IsTouched, runs_within, with_runs, tail_of, joined_behind, IsLonger, IsOnly, Starts, Writes};

use crate::place::{give_back, put_over, swap_bytes, take_run};
use crate::run::{RunStart, Runs, count_bytes, last_before};
use crate::run_bytes::RunBytes;
use jv_model::WINDOW;
use std::alloc::{AllocError, Global};
use std::mem;

/// A write, and the runs that it overlaps or touches in a window: those that begin at `first` or later and before `end`.
#[derive(Clone, Copy, Debug)]
struct TouchingWrite<'a> {
    /// Where the first of these runs begins, or the write where it touches none.
    first: RunStart,
    /// Where the first run can begin that the write doesn't touch.
    end: RunStart,
    /// The position of the first byte that is written.
    from: u64,
    bytes: &'a [u8],
}

impl TouchingWrite<'_> {
    /// The position after the last byte that is written.
    fn to(&self) -> u64
        requires { self.now.from + length self.now.bytes.now ≤ FILE_END }
        ensures { result ≡ self.now.from + length self.now.bytes.now }
    {
        self.from + self.bytes.len() as u64
    }

    /// How many bytes of the first run lie before the write.
    fn before(&self) -> u64
        requires { self.now.first.from ≤ self.now.from }
        ensures { result ≡ self.now.from - self.now.first.from }
    {
        self.from - self.first.from
    }
}

/// How many positions must lie free before a run that begins here.
fn free_before(from: u64) -> u64
    ensures { result ≡ gap from }
{
    if from.is_multiple_of(WINDOW) { 0 } else { 1 }
}

/// Where the first run begins that a write overlaps, or touches in a window. That is the write's own start, where no run
/// reaches it.
fn first_touched(runs: &Runs, inode: u64, from: u64) -> RunStart
    requires order { InOrder 0 runs.now.entries }
    requires file { from < FILE_END }
    ensures { IsFirst inode from runs.now.entries result }
{
    let here = RunStart { inode, from };
    let Some((start, bytes)) = last_before(runs, here.next()) else {
        return here;
    };
    if start.inode == inode && from < start.end(bytes) + free_before(from) {
        start
    } else {
        here
    }
}

/// Where the first run begins that a write to a position doesn't touch.
fn end_touched(inode: u64, to: u64) -> RunStart
    requires { to ≤ FILE_END }
    ensures inode { result.inode ≡ inode }
    ensures from { result.from ≡ to + gap to }
{
    RunStart {
        inode,
        from: to + free_before(to),
    }
}

/// The bytes of the run at a place that lie before a position, none where there is no run.
fn head(runs: &Runs, first: RunStart, from: u64) -> &[u8]
    ensures { result.now ≡ take (from - first.from)
        (unwrap_or (bytes_at first runs.now.entries) []) }
{
    let count = from.saturating_sub(first.from) as usize;
    if count == 0 {
        return &[];
    }
    let Some(bytes) = runs.get(&first) else {
        return &[];
    };
    let bytes = bytes.as_slice();
    &bytes[..count.min(bytes.len())]
}

/// The bytes from a position on of the last run that begins at `first` or later, and before `end`.
fn tail(runs: &Runs, first: RunStart, end: RunStart, to: u64) -> &[u8]
    requires rise { Rise 0 runs.now.entries }
    requires first { first.from ≤ FILE_END }
    requires end { end.from ≤ FILE_END }
    ensures { result.now ≡ tail_of to (runs_within (place_of first) (place_of end)
        runs.now.entries) }
{
    match last_before(runs, end) {
        Some((start, bytes)) if first.cmp(&start).is_le() => {
            let bytes = bytes.as_slice();
            let count = to.saturating_sub(start.from) as usize;
            &bytes[count.min(bytes.len())..]
        }
        _ => &[],
    }
}

/// The last touched run, where it isn't the first one, and more of its bytes lie behind the write than bytes of the
/// first one lie before it.
fn longer_tail(runs: &Runs, write: &TouchingWrite<'_>) -> Option<RunStart>
    requires rise { Rise 0 runs.now.entries }
    requires starts { write.now.first.from ≤ write.now.from }
    requires some { 0 < length write.now.bytes.now }
    requires file { write.now.from + length write.now.bytes.now ≤ FILE_END }
    requires end { write.now.end.from ≤ FILE_END }
    ensures { IfSome result (λ last. let w = write.now in
        IsLonger w.first w.end (w.from + length w.bytes.now) (w.from - w.first.from)
        runs.now.entries last) }
{
    let to = write.to();
    let (start, bytes) = last_before(runs, write.end)?;
    let is_longer = to >= start.from && bytes.len() as u64 > write.before() + (to - start.from);
    if write.first.cmp(&start).is_lt() && is_longer {
        Some(start)
    } else {
        None
    }
}

/// Joins a write with `head`, the bytes before it, and with those behind it of the run at `last`, in that run. On error
/// nothing has changed.
fn join_before(
    alloc: Global,
    runs: &mut Runs,
    write: &TouchingWrite<'_>,
    last: RunStart,
    head: &[u8],
) -> Result<(), AllocError>
    requires rise { Rise 0 runs.old.entries }
    requires start { write.now.first.from < FILE_END }
    requires file { write.now.from + length write.now.bytes.now ≤ FILE_END }
    requires end { write.now.end.from ≤ FILE_END }
    requires there { IsSome (bytes_at write.now.first runs.old.entries) }
    requires last { let w = write.now in
        IsLonger w.first w.end (w.from + length w.bytes.now) (length head.now) runs.old.entries
        last }
    requires small { length head.now + length write.now.bytes.now < 2 ^ 63 }
    ensures ok { OnOk result (let w = write.now in let tail = tail_of (w.from + length w.bytes.now)
        (runs_within (place_of w.first + 1) (place_of w.end) runs.old.entries) in
        runs.new.entries
        ≡ with_runs ((w.first, head.now ++ (w.bytes.now ++ tail)) ∷ []) (place_of w.end)
        runs.old.entries) }
    ensures err { OnErr result (runs.new.entries ≡ runs.old.entries) }
{
    let mut run = swap_bytes(runs, last, RunBytes::new(alloc));
    let cut = (write.to() - last.from) as usize;
    match run.write_before(alloc, cut, head, write.bytes) {
        Ok(()) => {
            put_over(runs, write.first, write.end, run);
            Ok(())
        }
        Err(refused) => {
            swap_bytes(runs, last, run);
            Err(refused)
        }
    }
}

/// Joins a write with the bytes of the first run, and with those behind it of the last touched run, in `run`. On error
/// nothing has changed.
fn join_behind(
    alloc: Global,
    runs: &mut Runs,
    write: &TouchingWrite<'_>,
    run: &mut RunBytes,
) -> Result<(), AllocError>
    requires rise { Rise 0 runs.old.entries }
    requires starts { write.now.first.from ≤ write.now.from }
    requires some { 0 < length write.now.bytes.now }
    requires file { write.now.from + length write.now.bytes.now ≤ FILE_END }
    requires end { write.now.end.from ≤ FILE_END }
    requires forward { place_of write.now.first < place_of write.now.end }
    requires there { IsSome (bytes_at write.now.first runs.old.entries) }
    requires reaches { write.now.from - write.now.first.from ≤ length run.old }
    ensures ok { OnOk result (let w = write.now in let tail = tail_of (w.from + length w.bytes.now)
        (runs_within (place_of w.first + 1) (place_of w.end) runs.old.entries) in
        runs.new.entries ≡ with_runs
        ((w.first, joined_behind (w.from - w.first.from) run.old w.bytes.now tail) ∷ [])
        (place_of w.end) runs.old.entries) }
    ensures err { OnErr result (runs.new.entries ≡ runs.old.entries) }
    ensures run { OnErr result (run.new ≡ run.old) }
{
    let tail = tail(runs, write.first.next(), write.end, write.to());
    run.write(write.before() as usize, write.bytes, tail)?;
    let joined = mem::replace(run, RunBytes::new(alloc));
    put_over(runs, write.first, write.end, joined);
    Ok(())
}

/// Joins a write with `run`, the bytes of the first run, and with those behind it of the last touched run. On error
/// nothing has changed.
fn join_runs(
    alloc: Global,
    runs: &mut Runs,
    write: &TouchingWrite<'_>,
    run: &mut RunBytes,
) -> Result<(), AllocError>
    requires rise { Rise 0 runs.old.entries }
    requires starts { write.now.first.from ≤ write.now.from }
    requires some { 0 < length write.now.bytes.now }
    requires file { write.now.from + length write.now.bytes.now ≤ FILE_END }
    requires end { write.now.end.from ≤ FILE_END }
    requires forward { place_of write.now.first < place_of write.now.end }
    requires there { IsSome (bytes_at write.now.first runs.old.entries) }
    requires reaches { write.now.from - write.now.first.from ≤ length run.old }
    ensures ok { OnOk result (let w = write.now in let tail = tail_of (w.from + length w.bytes.now)
        (runs_within (place_of w.first + 1) (place_of w.end) runs.old.entries) in
        runs.new.entries ≡ with_runs
        ((w.first, joined_behind (w.from - w.first.from) run.old w.bytes.now tail) ∷ [])
        (place_of w.end) runs.old.entries) }
    ensures err { OnErr result (runs.new.entries ≡ runs.old.entries) }
    ensures run { OnErr result (run.new ≡ run.old) }
{
    let before = write.before();
    let last = longer_tail(runs, write);
    let ends_before = run.len() as u64 <= before + write.bytes.len() as u64;
    match last {
        Some(last) if ends_before => {
            let head = &run.as_slice()[..before as usize];
            join_before(alloc, runs, write, last, head)
        }
        _ => join_behind(alloc, runs, write, run),
    }
}

/// Writes bytes inside one window, joined with the runs that they overlap or touch. On error nothing has changed.
fn write_window(
    alloc: Global,
    runs: &mut Runs,
    first: RunStart,
    from: u64,
    bytes: &[u8],
) -> Result<(), AllocError>
    requires rise { Rise 0 runs.old.entries }
    requires starts { Starts from runs.old.entries first }
    requires some { 0 < length bytes.now }
    requires file { from + length bytes.now ≤ FILE_END }
    requires window { from % WINDOW + length bytes.now ≤ WINDOW }
    ensures rise { Rise 0 runs.new.entries }
    ensures ok { OnOk result (Writes from bytes.now first runs.old.entries runs.new.entries) }
    ensures err { OnErr result (runs.new.entries ≡ runs.old.entries) }
{
    let end = end_touched(first.inode, from + bytes.len() as u64);
    let write = TouchingWrite {
        first,
        end,
        from,
        bytes,
    };
    let mut taken = take_run(alloc, runs, first, 0)?;
    match join_runs(alloc, runs, &write, &mut taken.run) {
        Ok(()) => Ok(()),
        Err(refused) => {
            give_back(runs, first, taken);
            Err(refused)
        }
    }
}

/// Writes bytes from a position on, joined with the runs that they overlap or touch. `first` is where the first of these
/// begins, or the write. On error nothing has changed.
fn write_from(
    alloc: Global,
    runs: &mut Runs,
    first: RunStart,
    from: u64,
    bytes: &[u8],
) -> Result<(), AllocError>
    requires rise { Rise 0 runs.old.entries }
    requires starts { Starts from runs.old.entries first }
    requires some { 0 < length bytes.now }
    requires file { from + length bytes.now ≤ FILE_END }
    ensures rise { Rise 0 runs.new.entries }
    ensures ok { OnOk result (Writes from bytes.now first runs.old.entries runs.new.entries) }
    ensures err { OnErr result (runs.new.entries ≡ runs.old.entries) }
{
    let room = (WINDOW - from % WINDOW) as usize;
    if bytes.len() <= room {
        return write_window(alloc, runs, first, from, bytes);
    }
    let (part, rest) = bytes.split_at(room);
    let at = (from - first.from) as usize;
    let border = RunStart {
        inode: first.inode,
        from: from + room as u64,
    };
    // Memory is asked for first, in each window, and then nothing fails.
    let mut taken = take_run(alloc, runs, first, at + room)?;
    match write_from(alloc, runs, border, border.from, rest) {
        Ok(()) => {
            taken.run.put(at, part);
            put_over(runs, first, border, taken.run);
            Ok(())
        }
        Err(refused) => {
            give_back(runs, first, taken);
            Err(refused)
        }
    }
}

/// How many bytes there are, of `held` before, once a write is joined with the runs that it touches.
fn count_written(runs: &Runs, held: u64, write: &TouchingWrite<'_>) -> u64
    requires order { InOrder 0 runs.now.entries }
    requires held { held ≡ length (pending_bytes runs.now.entries) }
    requires small { held + length write.now.bytes.now < 2 ^ 64 }
    requires some { 0 < length write.now.bytes.now }
    requires file { write.now.from + length write.now.bytes.now ≤ FILE_END }
    requires touched { let w = write.now in
        IsTouched w.first.inode w.from (w.from + length w.bytes.now) runs.now.entries w.first
        w.end }
    ensures { let w = write.now in
        result ≡ length (written w.first.inode w.from w.bytes.now
        (pending_bytes runs.now.entries)) }
{
    let others = held - count_bytes(runs, write.first, write.end);
    let head = head(runs, write.first, write.from).len() as u64;
    let tail = tail(runs, write.first, write.end, write.to()).len() as u64;
    others + (head + (write.bytes.len() as u64 + tail))
}

/// Where the run begins that a write of `count` bytes lengthens or overwrites, where it touches no other and stays in one
/// window.
fn only_touched(runs: &Runs, inode: u64, from: u64, count: usize) -> Option<RunStart>
    requires order { InOrder 0 runs.now.entries }
    requires some { 0 < count }
    requires file { from + count ≤ FILE_END }
    ensures inode { IfSome result (λ first. first.inode ≡ inode) }
    ensures only { IfSome result (λ first. IsOnly from count runs.now.entries first) }
{
    if from % WINDOW + count as u64 > WINDOW {
        return None;
    }
    let end = end_touched(inode, from + count as u64);
    let (start, bytes) = last_before(runs, end)?;
    if start.inode == inode && start.from <= from && from < start.end(bytes) + free_before(from) {
        Some(start)
    } else {
        None
    }
}

/// Writes bytes into the only run that they touch, and returns how many bytes there are more. On error nothing has
/// changed.
fn write_into(runs: &mut Runs, first: RunStart, from: u64, bytes: &[u8]) -> Result<u64, AllocError>
    requires order { InOrder 0 runs.old.entries }
    requires some { 0 < length bytes.now }
    requires file { from + length bytes.now ≤ FILE_END }
    requires only { IsOnly from (length bytes.now) runs.old.entries first }
    ensures order { OnOk result (InOrder 0 runs.new.entries) }
    ensures ok { OnOk result (pending_bytes runs.new.entries
        ≡ written first.inode from bytes.now (pending_bytes runs.old.entries)) }
    ensures more { IfOk result (λ more. length (pending_bytes runs.old.entries) + more
        ≡ length (pending_bytes runs.new.entries)) }
    ensures err { OnErr result (runs.new.entries ≡ runs.old.entries) }
{
    let at = (from - first.from) as usize;
    match runs.get_mut(&first).unwrap().grow(at, bytes) {
        Ok(more) => Ok(more as u64),
        Err(refused) => Err(refused),
    }
}

/// Writes bytes from a place on, and returns how many bytes there are then, of `held` before. On error nothing has
/// changed.
pub(crate) fn write_runs(
    alloc: Global,
    runs: &mut Runs,
    held: u64,
    at: RunStart,
    bytes: &[u8],
) -> Result<u64, AllocError>
    requires order { InOrder 0 runs.old.entries }
    requires held { held ≡ length (pending_bytes runs.old.entries) }
    requires small { held + length bytes.now < 2 ^ 64 }
    requires some { 0 < length bytes.now }
    requires file { at.from + length bytes.now ≤ FILE_END }
    ensures order { InOrder 0 runs.new.entries }
    ensures ok { OnOk result (pending_bytes runs.new.entries
        ≡ written at.inode at.from bytes.now (pending_bytes runs.old.entries)) }
    ensures count { IfOk result (λ n. n ≡ length (pending_bytes runs.new.entries)) }
    ensures err { OnErr result (runs.new.entries ≡ runs.old.entries) }
{
    let RunStart { inode, from } = at;
    // Most writes begin where the last one ended, and no more than that run has to be found for them.
    if let Some(only) = only_touched(runs, inode, from, bytes.len()) {
        return Ok(held + write_into(runs, only, from, bytes)?);
    }
    let first = first_touched(runs, inode, from);
    let end = end_touched(inode, from + bytes.len() as u64);
    let write = TouchingWrite {
        first,
        end,
        from,
        bytes,
    };
    let count = count_written(runs, held, &write);
    write_from(alloc, runs, first, from, bytes)?;
    Ok(count)
}
