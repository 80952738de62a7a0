//! The flush of an operation: of each segment it asks for its slice's number, puts the slice's blocks, and commits it.
ghost use Rattle.std.specs.Prelude.{◌≡◌, ℕ, ◌+◌, ◌*◌, ◌≤◌, ◌<◌, [], length, IfOk, IfSome, IsSome, Option, None, Some};
ghost use Rattle.std.specs.Option.{option_map};
ghost use Rattle.jv_model.specs.declared.act.ActKind.TheVariants.{Commit};
ghost use Rattle.jv_model.specs.declared.act.Told.TheVariants.{Fine};
ghost use Rattle.jv_model.specs.declared.op.Reply.TheVariants.{Count};
ghost use Rattle.jv_model.specs.declared.limits.TheConstants.{FILE_END, WINDOW};
ghost use Rattle.jv_client_shared.specs.Lengths.{IsLength};
ghost use Rattle.jv_model.specs.promise.blocks.Slices.{block_count};
ghost use Rattle.jv_model.specs.client.Pending.{first_segment_of};
ghost use Rattle.jv_outside.specs.promise.Carriage.{Carriage};
ghost use Rattle.jv_outside.specs.promise.Store.{Store};
ghost use Rattle.jv_pending.specs.At.{segment_at};
ghost use Rattle.jv_client.specs.ClientValue.{session_here};
ghost use Rattle.jv_client.specs.promise.Shared.{shared};
ghost use Rattle.jv_yard.specs.promise.YardValue.{YardValue};
ghost use Rattle.jv_client.specs.declared.doing.Progress.TheVariants.{Working};
ghost use Rattle.jv_client.specs.UnderWay.{IsReady, ClosesOpen, left, moved_to, progress_of};
ghost use Rattle.jv_client.specs.Held.{segment_left};
ghost use Rattle.jv_client.specs.Flushing.{Follows, IfWrite, IsWorkingOn, IsWrittenAlone, NextOf, bytes_of, without_segment};
ghost use Rattle.jv_client.specs.Makes.{Makes};

use crate::client::{Client, forget};
use crate::doing::{Flush, Progress};
use crate::made::Made;
use crate::step::go_on;
use jv_client_handles::{Handle, forget_views, inode_at};
use jv_client_puts::put_block;
use jv_data::{commit, next_id};
use jv_model::{ActKind, Fault, InodeList, Moment, Op, Rec, Reply, Told, WINDOW, Who};
use jv_outside::{Carrier, Depot, Keeper, Shelf};
use jv_pending::{Pending, SegmentAt};
use jv_slices::blocks_of;
use jv_yard::{ObservedYard, Yard};
use std::alloc::{AllocError, Global};

/// How far the flush of a segment is.
#[derive(Clone, Copy, Debug, PartialEq, Eq)]
struct Upload {
    quiets: u32,
    started: Moment,
    id: u64,
}

impl Client {
    /// The segment that the operation in progress commits next.
    pub(crate) fn segment_left(&self) -> Option<SegmentAt>
        ensures least { option_map segment_at result ≡ left self.now }
        ensures own { IfSome result (λ at.
            first_segment_of (Some at.inode) self.now.pending ≡ Some (segment_at at)) }
        ensures some { IfSome result (λ at. 0 < at.len) }
        ensures inside { IfSome result (λ at. at.pos + at.len ≤ WINDOW) }
        ensures file { IfSome result (λ at. at.window * WINDOW < FILE_END) }
    {
        match &self.doing {
            Some(doing) => first_left(&self.pending, doing.flush),
            None => None,
        }
    }

    /// Makes the next request for a segment.
    pub(crate) fn flush_on<K: Keeper, D: Depot, H: Shelf>(
        &mut self,
        at: SegmentAt,
        k: &mut K,
        yard: &mut Yard<D, H>,
        carrier: &mut dyn Carrier,
        now: Moment,
    ) -> Made
        requires busy { IsSome self.old.doing }
        requires ready { IsReady self.old }
        requires block { let seen = ⟦<Yard<D, H> as ObservedYard>⟧.seen in
            IsLength (seen yard.old).setting.block }
        requires next { left self.old ≡ Some (segment_at at) }
        requires own { first_segment_of (Some at.inode) self.old.pending ≡ Some (segment_at at) }
        requires some { 0 < at.len }
        requires inside { at.pos + at.len ≤ WINDOW }
        requires window { at.window * WINDOW < FILE_END }
        ensures { let seen = ⟦<Yard<D, H> as ObservedYard>⟧.seen in
            let way = ⟦<dyn Carrier as Carrier>⟧ in
            (entry : ℕ) → Makes now entry self.old self.new
            (shared (K.seen k.old) (seen yard.old) ((way carrier.old.0).seen carrier.old.1))
            (shared (K.seen k.new) (seen yard.new) ((way carrier.new.0).seen carrier.new.1))
            result }
    {
        let upload = self.upload();
        if upload.quiets == 0 {
            return self.ask_number(k, now);
        }
        if upload.quiets <= blocks_of(at.len, yard.setting().block) {
            return self.put(at, upload, yard, carrier, now);
        }
        self.commit(at, upload, k, now)
    }

    /// How far the flush of the next segment is.
    fn upload(&self) -> Upload
        requires busy { IsSome self.now.doing }
        requires ready { IsReady self.now }
        requires next { IsSome (left self.now) }
        ensures { progress_of self.now.doing
            ≡ Some (Working result.quiets result.started result.id) }
    {
        match &self.doing {
            Some(doing) => upload_of(&doing.progress),
            None => unreachable!(),
        }
    }

    /// Makes a request, after which the operation goes on.
    fn request(&mut self, kind: ActKind, next: Progress) -> Made
        ensures asked { self.new
            ≡ record self.old { doing = option_map (moved_to next) self.old.doing } }
        ensures made { result ≡ Made.Request kind }
    {
        go_on(&mut self.doing, next);
        Made::Request(kind)
    }

    /// In whose name rows are read and changed for the bytes of files.
    pub(crate) fn who(&self, now: Moment) -> Who
        ensures { result ≡ record { sid = session_here self.now; held = []; now = now } }
    {
        Who {
            sid: self.sid(),
            held: InodeList::new(self.alloc),
            now,
        }
    }

    /// Takes the number of a segment's slice. Refused with `Stale` where the session is gone, and with `NoSpace` where there
    /// are no more numbers.
    fn ask_number<K: Keeper>(&mut self, k: &mut K, now: Moment) -> Made
        requires busy { (started id : ℕ) × (progress_of self.old.doing
            ≡ Some (Working 0 started id)) }
        requires ready { IsReady self.old }
        requires next { IsSome (left self.old) }
        ensures { (entry : ℕ) (yard : YardValue) (carrier : Carriage)
            → Makes now entry self.old self.new
            (shared (K.seen k.old) yard carrier) (shared (K.seen k.new) yard carrier) result }
    {
        let who = self.who(now);
        match next_id(self.alloc, k, &who) {
            Ok(id) => self.request(
                ActKind::Quiet,
                Progress::Working {
                    quiets: 1,
                    started: Moment(0),
                    id,
                },
            ),
            Err(fault) => self.unmade(ActKind::Quiet, fault),
        }
    }

    /// Puts the next block of a segment's slice. Fails where the carrier or the depot does.
    fn put<D: Depot, H: Shelf>(
        &mut self,
        at: SegmentAt,
        upload: Upload,
        yard: &mut Yard<D, H>,
        carrier: &mut dyn Carrier,
        now: Moment,
    ) -> Made
        requires busy { progress_of self.old.doing
            ≡ Some (Working upload.quiets upload.started upload.id) }
        requires asked { 0 < upload.quiets }
        requires ready { IsReady self.old }
        requires block { let seen = ⟦<Yard<D, H> as ObservedYard>⟧.seen in
            IsLength (seen yard.old).setting.block }
        requires there { let seen = ⟦<Yard<D, H> as ObservedYard>⟧.seen in
            upload.quiets ≤ block_count at.len (seen yard.old).setting.block }
        requires next { left self.old ≡ Some (segment_at at) }
        requires own { first_segment_of (Some at.inode) self.old.pending ≡ Some (segment_at at) }
        requires some { 0 < at.len }
        requires inside { at.pos + at.len ≤ WINDOW }
        requires window { at.window * WINDOW < FILE_END }
        ensures { let seen = ⟦<Yard<D, H> as ObservedYard>⟧.seen in
            let way = ⟦<dyn Carrier as Carrier>⟧ in
            (entry : ℕ) (keeper : Store) → Makes now entry self.old self.new
            (shared keeper (seen yard.old) ((way carrier.old.0).seen carrier.old.1))
            (shared keeper (seen yard.new) ((way carrier.new.0).seen carrier.new.1)) result }
    {
        let Upload {
            quiets,
            started,
            id,
        } = upload;
        let bytes = self.pending.segment(at);
        match put_block(
            self.alloc,
            yard,
            carrier,
            self.id,
            now,
            id,
            quiets - 1,
            bytes,
        ) {
            Ok(()) => self.request(
                ActKind::Quiet,
                Progress::Working {
                    quiets: quiets + 1,
                    started: if quiets == 1 { now } else { started },
                    id,
                },
            ),
            Err(fault) => self.fail(Fault::from(fault)),
        }
    }

    /// Commits a segment's slice, of which all blocks were put. Refused with `Stale` where its session or its file is gone,
    /// with `TimedOut` where its first block is as old as uploads live, and with `NoSpace` where the volume has no room.
    fn commit<K: Keeper>(&mut self, at: SegmentAt, upload: Upload, k: &mut K, now: Moment) -> Made
        requires busy { progress_of self.old.doing
            ≡ Some (Working upload.quiets upload.started upload.id) }
        requires asked { 0 < upload.quiets }
        requires ready { IsReady self.old }
        requires next { left self.old ≡ Some (segment_at at) }
        requires own { first_segment_of (Some at.inode) self.old.pending ≡ Some (segment_at at) }
        requires some { 0 < at.len }
        requires inside { at.pos + at.len ≤ WINDOW }
        requires window { at.window * WINDOW < FILE_END }
        ensures { (entry : ℕ) (yard : YardValue) (carrier : Carriage)
            → block_count at.len yard.setting.block < upload.quiets
            → Makes now entry self.old self.new
            (shared (K.seen k.old) yard carrier) (shared (K.seen k.new) yard carrier) result }
    {
        let Ok(next) = self.write_after(at) else {
            return self.fail(Fault::NoMemory);
        };
        let rec = self.record_of(at, upload.id);
        let who = self.who(now);
        match commit(
            self.alloc,
            k,
            &who,
            at.inode,
            at.window,
            rec,
            upload.started,
        ) {
            Ok(()) => {
                self.drop_segment(at);
                self.after_commit(commit_of(at), next)
            }
            Err(fault) => self.unmade(ActKind::Quiet, fault),
        }
    }

    /// What is pending once this segment is committed and the operation, a write that it is the last segment of, is done:
    /// the bytes of the write alone. None for another operation, and before another segment. It is made before the commit,
    /// since memory may not run out after it.
    fn write_after(&self, at: SegmentAt) -> Result<Option<Pending>, AllocError>
        requires busy { IsSome self.now.doing }
        requires ready { IsReady self.now }
        requires next { left self.now ≡ Some (segment_at at) }
        ensures { IfOk result (λ next. IfSome self.now.doing (λ d.
            NextOf d at.len self.now next)) }
    {
        let Some(doing) = &self.doing else {
            return Ok(None);
        };
        if self.pending.bytes() > u64::from(at.len) {
            return Ok(None);
        }
        written_alone(self.alloc, &doing.op, &self.handles, self.limits.buffer)
    }

    /// The record that shows a segment's slice, which has all of the segment's bytes.
    fn record_of(&self, at: SegmentAt, id: u64) -> Rec
        requires own { first_segment_of (Some at.inode) self.now.pending ≡ Some (segment_at at) }
        ensures shows { result
            ≡ record { pos = at.pos; id = id; size = at.len; off = 0; len = at.len } }
        ensures long { length (bytes_of (segment_at at) self.now.pending) ≡ at.len }
    {
        let len = self.pending.segment(at).len() as u32;
        Rec {
            pos: at.pos,
            id,
            size: len,
            off: 0,
            len,
        }
    }

    /// Drops a segment that was committed, and the views of its file.
    fn drop_segment(&mut self, at: SegmentAt)
        requires own { first_segment_of (Some at.inode) self.old.pending ≡ Some (segment_at at) }
        requires long { length (bytes_of (segment_at at) self.old.pending) ≡ at.len }
        ensures rest { self.new ≡ without_segment (segment_at at) self.old }
        ensures fewer { length self.new.pending + at.len ≡ length self.old.pending }
    {
        self.pending.remove(at);
        forget_views(&mut self.handles, at.inode);
    }

    /// Goes on after a commit, or answers with it where nothing is left to ask for.
    fn after_commit(&mut self, commit: ActKind, next: Option<Pending>) -> Made
        requires busy { IsSome self.old.doing }
        requires closes { IfSome self.old.doing (λ d. ClosesOpen d.op self.old.handles) }
        requires next { IfSome self.old.doing (λ d. NextOf d 0 self.old next) }
        ensures { IfSome self.old.doing (λ d. Follows d commit self.old self.new result) }
    {
        if self.segment_left().is_some() {
            return self.request(commit, Progress::FIRST);
        }
        if let Some(pending) = next {
            let (told, reply) = self.written(pending);
            return Made::Both(commit, told, reply);
        }
        match self.end() {
            Some((told, reply)) => Made::Both(commit, told, reply),
            None => self.request(commit, Progress::FIRST),
        }
    }

    /// Ends a write whose bytes are all that is pending from then on.
    fn written(&mut self, pending: Pending) -> (Told, Reply)
        requires { pending.limit ≡ self.old.limits.buffer }
        ensures told { result ≡ (Fine (length pending.bytes) 0 0 0, Count (length pending.bytes)) }
        ensures kept { self.new ≡ record self.old { pending = pending.bytes; doing = None } }
    {
        let bytes = pending.bytes();
        self.pending = pending;
        forget(&mut self.doing);
        (Told::Fine(bytes, 0, 0, 0), Reply::Count { bytes })
    }
}

/// How far the flush of a segment is, in an operation that flushes.
fn upload_of(progress: &Progress) -> Upload
    requires { IsWorkingOn progress.now }
    ensures { progress.now ≡ Working result.quiets result.started result.id }
{
    match progress {
        Progress::Working {
            quiets,
            started,
            id,
        } => Upload {
            quiets: *quiets,
            started: *started,
            id: *id,
        },
        Progress::Reading { .. } => unreachable!(),
    }
}

/// The segment that is committed first.
fn first_left(pending: &Pending, flush: Flush) -> Option<SegmentAt>
    ensures least { option_map segment_at result ≡ segment_left flush pending.now.bytes }
    ensures own { IfSome result (λ at.
        first_segment_of (Some at.inode) pending.now.bytes ≡ Some (segment_at at)) }
    ensures some { IfSome result (λ at. 0 < at.len) }
    ensures inside { IfSome result (λ at. at.pos + at.len ≤ WINDOW) }
    ensures file { IfSome result (λ at. at.window * WINDOW < FILE_END) }
{
    match flush {
        Flush::Nothing => None,
        Flush::File(inode) => pending.first(Some(inode)),
        Flush::Files(first, second) => match pending.first(Some(first)) {
            Some(at) => Some(at),
            None => pending.first(Some(second)),
        },
        Flush::All => pending.first(None),
    }
}

/// The entry of a segment's commit.
fn commit_of(at: SegmentAt) -> ActKind
    requires inside { at.pos + at.len ≤ WINDOW }
    requires window { at.window * WINDOW < FILE_END }
    ensures { result ≡ Commit at.inode (segment_at at).from at.len 0 }
{
    ActKind::Commit {
        inode: at.inode,
        from: start_of(at),
        len: u64::from(at.len),
        staged: 0,
    }
}

/// The bytes of a write as all that is pending, None for another operation.
fn written_alone(
    alloc: Global,
    op: &Op,
    handles: &[Option<Handle>],
    limit: u64,
) -> Result<Option<Pending>, AllocError>
    requires fits { IfWrite op.now (λ handle offset bytes.
        (offset + length bytes ≤ FILE_END) × (length bytes ≤ limit)) }
    ensures { IfOk result (λ next. IsWrittenAlone op.now handles.now limit next) }
{
    let Op::Write {
        handle,
        offset,
        bytes,
    } = op
    else {
        return Ok(None);
    };
    let mut pending = Pending::new(alloc, limit);
    match pending.write(inode_at(handles, *handle), *offset, bytes) {
        Ok(()) => Ok(Some(pending)),
        Err(_) => Err(AllocError),
    }
}

/// Where a segment begins.
fn start_of(at: SegmentAt) -> u64
    requires inside { at.pos + at.len ≤ WINDOW }
    requires window { at.window * WINDOW < FILE_END }
    ensures from { result ≡ (segment_at at).from }
    ensures end { result + at.len ≤ FILE_END }
{
    u64::from(at.window) * WINDOW + u64::from(at.pos)
}
