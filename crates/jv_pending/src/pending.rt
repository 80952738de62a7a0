//! The pending bytes of a client. They lie in memory as runs, in a map by where these begin.
//!
//! A call takes a time logarithmic in the number of runs. `write` takes one linear in its bytes more, amortized, in
//! whatever order and across whatever borders bytes are written; bytes that join runs are moved a logarithmic number of
//! times at most. `take` takes a time linear in its bytes, `clear` and `clear_all` one for each run that they take out.
ghost use Rattle.std.specs.Prelude.{◌≡◌, ◌+◌, ◌*◌, ◌<◌, ◌≤◌, ◌↔◌, [], length, Some, OnOk, OnErr, IfSome, IsErrOf, IsOk, IsOkUnless, IsTrue};
ghost use Rattle.std.specs.Option.{option_map};
ghost use Rattle.jv_model.specs.declared.limits.TheConstants.{FILE_END, WINDOW};
ghost use Rattle.jv_model.specs.promise.client.Pending.{written, bytes_in_range, without_range, pending_of, pending_of_others};
ghost use Rattle.jv_model.specs.client.Pending.{first_segment_of, end_of, is_rising};
ghost use Rattle.jv_pending.specs.At.{segment_at};

use crate::run::{RunStart, Runs, find_end, find_first};
use crate::segment::{PendingFault, SegmentAt};
use crate::write::write_runs;
use jv_model::Bytes;
use std::alloc::Global;
use std::marker::Model;

/// The bytes that a client wrote and hasn't committed, by inode and position, and how many there may be.
#[derive(Debug, Drop)]
pub struct Pending {
    runs: Runs,
    held: u64,
    limit: u64,
    alloc: Global,
}

impl Model for Pending {
    ghost use Rattle.jv_pending.specs.Held.{PendingValue, IsSound};
    ghost use Rattle.jv_pending.specs.Runs.{pending_bytes};

    ghost Value = { PendingValue };

    ghost view = { λ p. record { bytes = pending_bytes p.runs.entries; limit = p.limit } };

    ghost invariant = { λ p. IsSound p.runs.entries p.held p.limit };
}

impl Pending {
    /// No bytes, of which there may be at most `limit`. Takes no memory.
    pub fn new(alloc: Global, limit: u64) -> Pending
        ensures none { result.bytes ≡ [] }
        ensures limit { result.limit ≡ limit }
    {
        Pending {
            runs: Runs::new(alloc),
            held: 0,
            limit,
            alloc,
        }
    }

    /// The greatest number of bytes that there may be.
    pub fn limit(&self) -> u64
        ensures { result ≡ self.now.limit }
    {
        self.limit
    }

    /// The number of bytes.
    pub fn bytes(&self) -> u64
        ensures count { result ≡ length self.now.bytes }
        ensures limit { result ≤ self.now.limit }
        ensures rising { IsTrue (is_rising self.now.bytes) }
    {
        self.held
    }

    /// Sets the positions of the bytes from `from` on, which end by `FILE_END`. Returns `Full` if and only if the bytes
    /// held and the bytes asked for pass the limit together, and else fails only out of memory. On error nothing has
    /// changed. No bytes need no memory.
    pub fn write(&mut self, inode: u64, from: u64, bytes: &Bytes) -> Result<(), PendingFault>
        requires { from + length bytes.now ≤ FILE_END }
        ensures ok { OnOk result (self.new
            ≡ record self.old { bytes = written inode from bytes.now self.old.bytes }) }
        ensures full { IsErrOf result (PendingFault.Full (length self.old.bytes) (length bytes.now))
            ↔ (self.old.limit < length self.old.bytes + length bytes.now) }
        ensures only_memory_else { length self.old.bytes + length bytes.now ≤ self.old.limit
            → IsOkUnless result PendingFault.Memory }
        ensures err { OnErr result (self.new ≡ self.old) }
        ensures limit { length self.new.bytes ≤ self.old.limit }
        ensures rising { IsTrue (is_rising self.new.bytes) }
        ensures others { pending_of_others inode self.new.bytes
            ≡ pending_of_others inode self.old.bytes }
        ensures nothing { bytes.now ≡ [] → IsOk result }
    {
        let held = self.held;
        let asked = bytes.len() as u64;
        if asked > self.limit - held {
            return Err(PendingFault::Full { held, asked });
        }
        if asked == 0 {
            return Ok(());
        }
        match write_runs(
            self.alloc,
            &mut self.runs,
            held,
            RunStart { inode, from },
            bytes.as_slice(),
        ) {
            Ok(count) => {
                self.held = count;
                Ok(())
            }
            Err(_) => Err(PendingFault::Memory),
        }
    }

    /// The least segment by inode and position, of that inode alone where one is given.
    pub fn first(&self, inode: Option<u64>) -> Option<SegmentAt>
        ensures least { option_map segment_at result ≡ first_segment_of inode self.now.bytes }
        ensures own { IfSome result (λ at.
            first_segment_of (Some at.inode) self.now.bytes ≡ Some (segment_at at)) }
        ensures some { IfSome result (λ at. 0 < at.len) }
        ensures inside { IfSome result (λ at. at.pos + at.len ≤ WINDOW) }
        ensures ends { IfSome result (λ at.
            (segment_at at).from + at.len ≤ end_of at.inode self.now.bytes) }
        ensures file { IfSome result (λ at. at.window * WINDOW < FILE_END) }
    {
        find_first(&self.runs, inode)
    }

    /// The bytes of a segment that is the first one of its inode.
    pub fn segment(&self, at: SegmentAt) -> &[u8]
        requires { first_segment_of (Some at.inode) self.now.bytes ≡ Some (segment_at at) }
        ensures bytes { result.now
            ≡ bytes_in_range at.inode (segment_at at).from at.len self.now.bytes }
        ensures len { length result.now ≡ at.len }
        ensures rising { IsTrue (is_rising self.now.bytes) }
    {
        self.runs.get(&RunStart::of(at)).unwrap().as_slice()
    }

    /// Takes out a segment that is the first one of its inode, and returns its bytes. Takes no memory.
    pub fn take(&mut self, at: SegmentAt) -> Bytes
        requires { first_segment_of (Some at.inode) self.old.bytes ≡ Some (segment_at at) }
        ensures bytes { result
            ≡ bytes_in_range at.inode (segment_at at).from at.len self.old.bytes }
        ensures rest { self.new ≡ record self.old {
          bytes = without_range at.inode (segment_at at).from at.len self.old.bytes;
        } }
        ensures fewer { length self.new.bytes < length self.old.bytes }
    {
        let run = self.runs.remove(&RunStart::of(at)).unwrap();
        self.held -= run.len() as u64;
        run.into_bytes()
    }

    /// Takes out a segment that is the first one of its inode. Takes no memory.
    pub fn remove(&mut self, at: SegmentAt)
        requires { first_segment_of (Some at.inode) self.old.bytes ≡ Some (segment_at at) }
        ensures rest { self.new ≡ record self.old {
          bytes = without_range at.inode (segment_at at).from at.len self.old.bytes;
        } }
        ensures fewer { length self.new.bytes < length self.old.bytes }
    {
        drop(self.take(at));
    }

    /// Takes all bytes of an inode out. Takes no memory.
    pub fn clear(&mut self, inode: u64)
        ensures others { self.new
            ≡ record self.old { bytes = pending_of_others inode self.old.bytes } }
        ensures none { pending_of inode self.new.bytes ≡ [] }
        ensures ends { end_of inode self.new.bytes ≡ 0 }
    {
        while let Some(at) = self.first(Some(inode)) {
            self.remove(at);
        }
    }

    /// Takes all bytes out. Takes no memory.
    pub fn clear_all(&mut self)
        ensures { self.new ≡ record self.old { bytes = [] } }
    {
        self.runs.clear();
        self.held = 0;
    }

    /// The position after the last byte of an inode, 0 where it has none.
    pub fn end_of(&self, inode: u64) -> u64
        ensures last { result ≡ end_of inode self.now.bytes }
        ensures file { result ≤ FILE_END }
    {
        find_end(&self.runs, inode)
    }
}
