//! Answers that need no further request.
ghost use Rattle.std.specs.Prelude.{◌≡◌, ℕ, IfSome, IsSome, IsTrue, IfOk, OnErr, false, None, Some, if◌then◌else◌};
ghost use Rattle.jv_model.specs.declared.act.Told.TheVariants.{Looks};
ghost use Rattle.jv_model.specs.promise.client.ModelClient.{file_of};
ghost use Rattle.jv_model.specs.promise.client.Profile.{handle_of};
ghost use Rattle.jv_model.specs.client.OpForms.{closed_by};
ghost use Rattle.jv_client_shared.specs.promise.Shared.{Shared};
ghost use Rattle.jv_client.specs.Ending.{Finishes, closed, finished_here, refused_here, told_here, without};
ghost use Rattle.jv_client.specs.UnderWay.{IsReady, ClosesOpen, Ends, HasKept, MayKeep, does_of, ends_itself, keeps, left, says_stats};
ghost use Rattle.jv_client.specs.Stats.{AnswersStats, IsStatsOf, numbers_in};
ghost use Rattle.jv_client.specs.Transacting.{Fails, Refuses};
ghost use Rattle.jv_client.specs.Makes.{Makes};

use crate::client::{Client, forget};
use crate::made::Made;
use jv_cache::BlockCache;
use jv_client_handles::{Handle, clear, inode_at, named};
use jv_model::{ActKind, Answer, Does, Fault, Gone, Op, Reply, Sequence, Told};
use jv_pending::Pending;
use std::alloc::AllocError;

impl Client {
    /// Ends the operation with an answer, and does what that says of the client. A close, whose handle has to be open, takes it
    /// away, and after an `umount` the client is as before any mount.
    pub(crate) fn end_as(&mut self, told: Told)
        requires busy { IsSome self.old.doing }
        requires closes { IfSome self.old.doing (λ d. ClosesOpen d.op self.old.handles) }
        ensures { IfSome self.old.doing (λ d. self.new ≡ told_here d.op told self.old) }
    {
        match told {
            Told::Refused(fault) => self.give_up(fault),
            _ => self.finish(),
        }
    }

    /// Ends an operation that is refused. Where its session is gone, the client is as before any mount; what is pending of an
    /// inode that is gone is dropped.
    fn give_up(&mut self, fault: Fault)
        ensures { self.new ≡ refused_here fault self.old }
    {
        match fault {
            Fault::Stale(Gone::Session(_)) => self.crash(),
            Fault::Stale(Gone::Node(inode)) => {
                self.pending.clear(inode);
                forget(&mut self.doing);
            }
            _ => forget(&mut self.doing),
        }
    }

    /// Ends an operation that is done.
    fn finish(&mut self)
        requires busy { IsSome self.old.doing }
        requires closes { IfSome self.old.doing (λ d. ClosesOpen d.op self.old.handles) }
        ensures { IfSome self.old.doing (λ d. self.new ≡ finished_here d.op self.old) }
    {
        let (leaves, closes) = match &self.doing {
            Some(doing) => ends_of(&doing.op),
            None => unreachable!(),
        };
        if leaves {
            self.crash();
        } else if let Some(handle) = closes {
            self.drop_handle(handle);
        } else {
            forget(&mut self.doing);
        }
    }

    /// Ends a close.
    fn drop_handle(&mut self, handle: u64)
        requires { IsSome (file_of self.old.handles handle) }
        ensures { self.new ≡ closed handle self.old }
    {
        let is_last = self.is_last(handle);
        let inode = inode_at(&self.handles, handle);
        release(&mut self.sustained, inode, is_last);
        clear(&mut self.handles, handle);
        forget(&mut self.doing);
    }

    /// Ends the operation with a refusal, after a request of this kind.
    pub(crate) fn refuse(&mut self, kind: ActKind, fault: Fault) -> Made
        ensures { Refuses kind fault self.old self.new result }
    {
        self.give_up(fault);
        Made::Both(kind, Told::Refused(fault), Reply::Refused(fault))
    }

    /// Ends the operation where a device failed or memory ran out.
    pub(crate) fn fail(&mut self, fault: Fault) -> Made
        ensures { Fails fault self.old self.new result }
    {
        forget(&mut self.doing);
        Made::Answer(Told::Refused(fault), Reply::Refused(fault))
    }

    /// What the operation in progress does once it has flushed.
    pub(crate) fn does(&self) -> Does
        requires { IsSome self.now.doing }
        ensures { does_of self.now.doing ≡ Some result }
    {
        match &self.doing {
            Some(doing) => doing.does,
            None => unreachable!(),
        }
    }

    /// The first handle that the operation in progress names, 0 where it names none.
    pub(crate) fn handle_in_use(&self) -> u64
        requires { IsSome self.now.doing }
        ensures { IfSome self.now.doing (λ d. result ≡ handle_of d.op) }
    {
        match &self.doing {
            Some(doing) => doing.op.handle(),
            None => unreachable!(),
        }
    }

    /// Ends an operation that has nothing to ask for once it has flushed: a close, a flush, or a read of no bytes.
    pub(crate) fn end(&mut self) -> Option<(Told, Reply)>
        requires busy { IsSome self.old.doing }
        requires closes { IfSome self.old.doing (λ d. ClosesOpen d.op self.old.handles) }
        ensures { IfSome self.old.doing (λ d. Ends d self.old self.new result) }
    {
        let handle = self.handle_in_use();
        let (told, reply) = match self.does() {
            Does::Answers(Answer::NoData) => {
                (looks(0, 0, 0), Reply::Data(Sequence::new(self.alloc)))
            }
            Does::Answers(_) => (Told::Fine(0, 0, 0, 0), Reply::Done),
            Does::Releases if !self.is_last(handle) => (Told::Fine(0, 0, 0, 0), Reply::Done),
            _ => return None,
        };
        self.end_as(told);
        Some((told, reply))
    }

    /// Answers an operation that has nothing to ask for, and whose files have nothing pending.
    pub(crate) fn end_at_once(&mut self) -> Made
        requires busy { IsSome self.old.doing }
        requires ready { IsReady self.old }
        requires flushed { left self.old ≡ None }
        requires not_write { IfSome self.old.doing (λ d. keeps d.does ≡ false) }
        requires not_stats { IfSome self.old.doing (λ d. says_stats d.does ≡ false) }
        requires ends { IfSome self.old.doing (λ d. IsTrue (ends_itself self.old d)) }
        ensures made { (now entry : ℕ) (v : Shared) → Makes now entry self.old self.new v v result }
        ensures stats { AnswersStats self.old result }
    {
        match self.end() {
            Some((told, reply)) => Made::Answer(told, reply),
            None => unreachable!(),
        }
    }

    /// Keeps what is written as pending.
    pub(crate) fn write(&mut self) -> Made
        requires busy { IsSome self.old.doing }
        requires ready { IsReady self.old }
        requires flushed { left self.old ≡ None }
        requires writes { IfSome self.old.doing (λ d. IsTrue (keeps d.does)) }
        ensures { (now entry : ℕ) (v : Shared) → Makes now entry self.old self.new v v result }
    {
        let kept = match &self.doing {
            Some(doing) => keep(&doing.op, &self.handles, &mut self.pending),
            None => unreachable!(),
        };
        let Ok(count) = kept else {
            return self.fail(Fault::NoMemory);
        };
        forget(&mut self.doing);
        Made::Answer(Told::Fine(count, 0, 0, 0), Reply::Count { bytes: count })
    }
}

impl Client {
    /// Answers with the numbers of the cache and of the pending bytes.
    pub(crate) fn say_stats(&mut self) -> Made
        requires busy { IsSome self.old.doing }
        requires ready { IsReady self.old }
        requires flushed { left self.old ≡ None }
        requires says { IfSome self.old.doing (λ d. IsTrue (says_stats d.does)) }
        ensures made { (now entry : ℕ) (v : Shared) → Makes now entry self.old self.new v v result }
        ensures numbers { IsStatsOf self.old result }
    {
        let (hits, misses, cached) = cache_numbers(&self.cache);
        let pending = self.pending.bytes();
        forget(&mut self.doing);
        Made::Answer(
            Told::Fine(hits, misses, cached, pending),
            Reply::CacheStats {
                hits,
                misses,
                cached,
                pending,
            },
        )
    }
}

/// The hits and misses of a cache, and the number of blocks that it keeps.
fn cache_numbers(cache: &Option<BlockCache>) -> (u64, u64, u64)
    ensures hits { result.0 ≡ (numbers_in cache.now).hits }
    ensures misses { result.1 ≡ (numbers_in cache.now).misses }
    ensures cached { result.2 ≡ (numbers_in cache.now).cached }
{
    match cache {
        Some(cache) => (cache.hits(), cache.misses(), cache.len() as u64),
        None => (0, 0, 0),
    }
}

/// Whether an operation ends its client's mount, and which handle it closes.
fn ends_of(op: &Op) -> (bool, Option<u64>)
    ensures finishes { Finishes op.now result }
    ensures closes { result.1 ≡ closed_by op.now }
{
    match op {
        Op::Umount => (true, None),
        Op::Close { handle } => (false, Some(*handle)),
        _ => (false, None),
    }
}

/// Drops a file from those that the client's session keeps, where it does so by its last handle.
fn release(sustained: &mut Vec<u64>, inode: u64, is_last: bool)
    ensures { sustained.new.items
        ≡ (if is_last then without inode sustained.old.items else sustained.old.items) }
{
    if is_last {
        sustained.retain(|kept| *kept != inode);
    }
}

/// Keeps the bytes of a write, and returns their number. On error nothing has changed.
fn keep(op: &Op, handles: &[Option<Handle>], pending: &mut Pending) -> Result<u64, AllocError>
    requires { MayKeep op.now handles.now pending.old }
    ensures ok { IfOk result (λ count. HasKept op.now handles.now pending.old pending.new count) }
    ensures err { OnErr result (pending.new ≡ pending.old) }
{
    let Op::Write {
        handle,
        offset,
        bytes,
    } = op
    else {
        unreachable!();
    };
    let Some(open) = named(handles, *handle) else {
        unreachable!();
    };
    match pending.write(open.inode, *offset, bytes) {
        Ok(()) => Ok(bytes.len() as u64),
        Err(_) => Err(AllocError),
    }
}

/// What a read is answered that cites these looks, or none by 0.
pub(crate) fn looks(first: u64, second: u64, len: u64) -> Told
    ensures { result ≡ Looks first second len }
{
    Told::Looks { first, second, len }
}
