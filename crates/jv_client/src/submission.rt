//! How an operation begins.
ghost use Rattle.std.specs.Prelude.{◌≡◌, ℕ, ◌<◌, IfErr, IsSome, IsTrue, is_some, length, OnOk, OnErr, Some, None};
ghost use Rattle.jv_model.specs.declared.act.Told.TheVariants.{Refused};
ghost use Rattle.jv_model.specs.declared.limits.TheConstants.{MAX_HANDLES, FILE_END};
ghost use Rattle.jv_model.specs.promise.client.ModelClient.{ModelClient, open_count};
ghost use Rattle.jv_model.specs.promise.client.Profile.{profile};
ghost use Rattle.jv_model.specs.promise.client.Submission.{submission, submission_of, submitted, names_closed, is_closed, is_mount, by_limits};
ghost use Rattle.jv_client.specs.promise.Built.{is_built_op};
ghost use Rattle.jv_client_shared.specs.promise.Shared.{Known, Shared};
ghost use Rattle.jv_client.specs.Makes.{IsCalm};
ghost use Rattle.jv_client.specs.UnderWay.{IsReady, most_steps, steps_left};
ghost use Rattle.jv_client.specs.Held.{IsClient, begun, flush_here, full_flush, files_here, in_flight, refused_with};

use crate::client::Client;
use crate::doing::{Doing, Flush, Progress};
use jv_client_handles::{Handle, inode_at, named, open_count};
use jv_model::{Does, FILE_END, Fault, Flushes, Handles, Limits, MAX_HANDLES, Op, Profile};

impl Client {
    /// Begins an operation. Refuses, with the operation handed back, by the first of these that holds: `InProgress`
    /// where one is in progress or a mounted client mounts, `NotConnected` where the client isn't mounted, `BadHandle`
    /// where a handle that it names isn't open, `TooManyHandles` where it would open one handle more than there may be,
    /// and `FileTooLarge` where a write ends past the longest file. On error nothing has changed. The operation takes one
    /// step at most, three more for each pending byte of the files that it flushes, and for a read two more and one for
    /// each byte asked. POSIX.1-2017, 2.3 "Error Numbers".
    pub fn submit(&mut self, op: Op) -> Result<(), (Op, Fault)>
        ensures refusal { (g : Known) (v : Shared) (m : ModelClient) (count : ℕ)
            → IsClient g v m count self.old → refused_with result ≡ submission m op }
        ensures calm { IfErr result (λ refused. IsCalm (Refused refused.1)) }
        ensures begun { (g : Known) (v : Shared) (m : ModelClient) (count : ℕ)
            → IsClient g v m count self.old
            → OnOk result (IsClient g v (submitted self.old.limits op m) count self.new) }
        ensures no_flight { OnOk result (in_flight self.new ≡ 0) }
        ensures ready { IsReady self.old → IsTrue (is_built_op self.old.limits op)
            → OnOk result (IsReady self.new) }
        ensures bounded { OnOk result (steps_left self.new < most_steps self.old op) }
        ensures busy { OnOk result (IsSome self.new.doing) }
        ensures still { self.new ≡ record self.old { doing = self.new.doing } }
        ensures err { OnErr result (self.new ≡ self.old) }
    {
        let row = op.profile();
        if let Some(fault) = self.refusal(&row) {
            return Err((op, fault));
        }
        let flush = self.flush_of(&row);
        let does = by_limits(&self.limits, row.does);
        begin(&mut self.doing, begun(op, does, flush));
        Ok(())
    }

    fn refusal(&self, row: &Profile) -> Option<Fault>
        ensures { result ≡ submission_of (is_some self.now.doing) (is_some self.now.session)
            (names_closed self.now.handles row.now.handles) (open_count self.now.handles) row.now }
    {
        let is_mounted = self.session.is_some();
        if self.doing.is_some() || is_mount(row.does) && is_mounted {
            return Some(Fault::InProgress);
        }
        if row.needs_mount && !is_mounted {
            return Some(Fault::NotConnected);
        }
        if names_closed(&self.handles, row.handles) {
            return Some(Fault::BadHandle);
        }
        if row.opens && open_count(&self.handles) >= MAX_HANDLES {
            return Some(Fault::TooManyHandles);
        }
        if row.end > u128::from(FILE_END) {
            return Some(Fault::FileTooLarge);
        }
        None
    }

    /// What the operation commits first.
    fn flush_of(&self, row: &Profile) -> Flush
        ensures { result ≡ flush_here self.now row.now }
    {
        match row.flushes {
            Flushes::Nothing => Flush::Nothing,
            Flushes::ItsFiles => files_of(&self.handles, row.handles),
            Flushes::IfFull(len) => self.flush_if_full(len),
            Flushes::Everything => Flush::All,
        }
    }

    fn flush_if_full(&self, len: u64) -> Flush
        ensures { result ≡ full_flush self.now.limits.buffer (length self.now.pending) len }
    {
        let wanted = u128::from(self.pending.bytes()) + u128::from(len);
        if wanted > u128::from(self.limits.buffer) {
            Flush::All
        } else {
            Flush::Nothing
        }
    }
}

/// An operation before its first step.
fn begun(op: Op, does: Does, flush: Flush) -> Doing
    ensures { result ≡ begun op does flush }
{
    Doing {
        op,
        does,
        flush,
        progress: Progress::FIRST,
        has_moved: false,
    }
}

fn begin(doing: &mut Option<Doing>, next: Doing)
    ensures { doing.new ≡ Some next }
{
    *doing = Some(next);
}

fn is_mount(does: Does) -> bool
    ensures { result ≡ is_mount does }
{
    matches!(does, Does::Mounts(_))
}

/// A mount is in writeback mode where all mounts of the run are.
fn by_limits(limits: &Limits, does: Does) -> Does
    ensures { result ≡ by_limits limits.now does }
{
    match does {
        Does::Mounts(writeback) => Does::Mounts(writeback || limits.writeback),
        other => other,
    }
}

fn names_closed(handles: &[Option<Handle>], named_handles: Handles) -> bool
    ensures { result ≡ names_closed handles.now named_handles }
{
    match named_handles {
        Handles::None => false,
        Handles::One(handle) => is_closed(handles, handle),
        Handles::Two(first, second) => is_closed(handles, first) || is_closed(handles, second),
    }
}

fn is_closed(handles: &[Option<Handle>], handle: u64) -> bool
    ensures { result ≡ is_closed handles.now handle }
{
    named(handles, handle).is_none()
}

/// The files of an operation's handles.
fn files_of(handles: &[Option<Handle>], named_handles: Handles) -> Flush
    ensures { result ≡ files_here handles.now named_handles }
{
    match named_handles {
        Handles::None => Flush::Nothing,
        Handles::One(handle) => Flush::File(inode_at(handles, handle)),
        Handles::Two(first, second) => {
            Flush::Files(inode_at(handles, first), inode_at(handles, second))
        }
    }
}
