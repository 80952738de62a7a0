//! Runs of pending bytes, and where to find them.
ghost use Rattle.std.specs.Prelude.{◌≡◌, ◌+◌, ◌*◌, ◌<◌, ◌≤◌, ◌^◌, length, Option, Some, None, IfSome};
ghost use Rattle.std.specs.Option.{option_map};
ghost use Rattle.jv_model.specs.client.Pending.{first_segment_of, end_of};
ghost use Rattle.jv_model.specs.Lists.{first_item};
ghost use Rattle.jv_model.specs.promise.Lists.{last_item};
ghost use Rattle.jv_pending.specs.At.{segment_at};
ghost use Rattle.jv_pending.specs.Runs.{place_of, end_of_run, segment_of_run, IsRun, InOrder, Rise, pending_bytes, runs_before, runs_from, runs_within};

use crate::run_bytes::RunBytes;
use crate::segment::SegmentAt;
use jv_model::{FILE_END, WINDOW};
use std::collections::BTreeMap;

/// Where a run begins. Runs go by inode, then by position.
#[derive(Clone, Copy, Debug, Drop, PartialEq, Eq, PartialOrd, Ord)]
pub(crate) struct RunStart {
    pub(crate) inode: u64,
    /// The position of the first byte.
    pub(crate) from: u64,
}

/// Bytes at positions in a row, inside one window, by where they begin.
pub(crate) type Runs = BTreeMap<RunStart, RunBytes>;

impl RunStart {
    /// Where a segment begins.
    pub(crate) fn of(at: SegmentAt) -> RunStart
        ensures inode { result.inode ≡ at.inode }
        ensures from { result.from ≡ (segment_at at).from }
    {
        RunStart {
            inode: at.inode,
            from: u64::from(at.window) * WINDOW + u64::from(at.pos),
        }
    }

    /// The next place.
    pub(crate) fn next(self) -> RunStart
        requires { self.from < FILE_END }
        ensures inode { result.inode ≡ self.inode }
        ensures from { result.from ≡ self.from + 1 }
        ensures place { place_of result ≡ place_of self + 1 }
    {
        RunStart {
            inode: self.inode,
            from: self.from + 1,
        }
    }

    /// The position after the last byte of a run that begins here.
    pub(crate) fn end(self, bytes: &RunBytes) -> u64
        requires { end_of_run (self, bytes.now) < 2 ^ 64 }
        ensures { result ≡ end_of_run (self, bytes.now) }
    {
        self.from + bytes.len() as u64
    }

    /// A run that begins here as a segment.
    pub(crate) fn segment(self, bytes: &RunBytes) -> SegmentAt
        requires { IsRun (self, bytes.now) }
        ensures same { segment_at result ≡ segment_of_run (self, bytes.now) }
        ensures inside { result.pos + result.len ≤ WINDOW }
        ensures file { result.window * WINDOW < FILE_END }
    {
        SegmentAt {
            inode: self.inode,
            window: (self.from / WINDOW) as u32,
            pos: (self.from % WINDOW) as u32,
            len: bytes.len() as u32,
        }
    }
}

/// The first run that begins at a place or after it.
pub(crate) fn first_from(runs: &Runs, start: RunStart) -> Option<(RunStart, &RunBytes)>
    requires rise { Rise 0 runs.now.entries }
    requires file { start.from ≤ FILE_END }
    ensures { option_map (λ r. (r.0, r.1.now)) result
        ≡ first_item (runs_from (place_of start) runs.now.entries) }
{
    let (start, bytes) = runs.range(start..).next()?;
    Some((*start, bytes))
}

/// The last run that begins before a place.
pub(crate) fn last_before(runs: &Runs, end: RunStart) -> Option<(RunStart, &RunBytes)>
    requires rise { Rise 0 runs.now.entries }
    requires file { end.from ≤ FILE_END }
    ensures { option_map (λ r. (r.0, r.1.now)) result
        ≡ last_item (runs_before (place_of end) runs.now.entries) }
{
    let (start, bytes) = runs.range(..end).next_back()?;
    Some((*start, bytes))
}

/// The number of bytes of the runs that begin at `first` or later, and before `end`.
pub(crate) fn count_bytes(runs: &Runs, first: RunStart, end: RunStart) -> u64
    requires rise { Rise 0 runs.now.entries }
    requires first { first.from ≤ FILE_END }
    requires end { end.from ≤ FILE_END }
    requires forward { place_of first < place_of end }
    requires small { length (pending_bytes runs.now.entries) < 2 ^ 64 }
    ensures { result ≡ length (pending_bytes (runs_within (place_of first) (place_of end)
        runs.now.entries)) }
{
    let mut count = 0;
    for (_, bytes) in runs.range(first..end) {
        count += bytes.len() as u64;
    }
    count
}

/// The first run as a segment, of an inode where one is given.
pub(crate) fn find_first(runs: &Runs, inode: Option<u64>) -> Option<SegmentAt>
    requires { InOrder 0 runs.now.entries }
    ensures least { option_map segment_at result
        ≡ first_segment_of inode (pending_bytes runs.now.entries) }
    ensures own { IfSome result (λ at.
        first_segment_of (Some at.inode) (pending_bytes runs.now.entries) ≡ Some (segment_at at)) }
    ensures some { IfSome result (λ at. 0 < at.len) }
    ensures inside { IfSome result (λ at. at.pos + at.len ≤ WINDOW) }
    ensures file { IfSome result (λ at. at.window * WINDOW < FILE_END) }
{
    match inode {
        None => {
            let (start, bytes) = first_from(runs, RunStart { inode: 0, from: 0 })?;
            Some(start.segment(bytes))
        }
        Some(inode) => {
            let (start, bytes) = first_from(runs, RunStart { inode, from: 0 })?;
            if start.inode == inode {
                Some(start.segment(bytes))
            } else {
                None
            }
        }
    }
}

/// The position after the last byte of an inode, 0 where it has none.
pub(crate) fn find_end(runs: &Runs, inode: u64) -> u64
    requires { InOrder 0 runs.now.entries }
    ensures same { result ≡ end_of inode (pending_bytes runs.now.entries) }
    ensures file { result ≤ FILE_END }
{
    let end = RunStart {
        inode,
        from: FILE_END,
    };
    let Some((start, bytes)) = last_before(runs, end) else {
        return 0;
    };
    if start.inode == inode {
        start.end(bytes)
    } else {
        0
    }
}
