//! Reading: looks at windows that the handle didn't see, then blocks that the cache doesn't have, one a step.
ghost use Rattle.std.specs.Prelude.{◌≡◌, ◌≢◌, ◌≤◌, ℕ, length, IfOk, IfSome, IsSome, OnErr, OnOk, None, Some};
ghost use Rattle.std.specs.Option.{option_map};
ghost use Rattle.jv_model.specs.declared.limits.TheConstants.{LAST_CLIENT};
ghost use Rattle.jv_model.specs.declared.profile.Does.TheVariants.{Reads};
ghost use Rattle.jv_outside.specs.promise.Carriage.{Carriage};
ghost use Rattle.jv_outside.specs.promise.Store.{Store};
ghost use Rattle.jv_yard.specs.promise.YardValue.{YardValue};
ghost use Rattle.jv_client_shared.specs.Lengths.{IsLength};
ghost use Rattle.jv_client_reads.specs.Fetching.{block_needed, first_window};
ghost use Rattle.jv_client.specs.declared.doing.Progress.TheVariants.{Reading, Working};
ghost use Rattle.jv_client.specs.ClientValue.{ClientValue};
ghost use Rattle.jv_client.specs.promise.Shared.{shared};
ghost use Rattle.jv_client.specs.UnderWay.{IsReady, does_of, left, names_open};
ghost use Rattle.jv_client.specs.Makes.{Makes};
ghost use Rattle.jv_yard.specs.Refusals.{yard_fault};
ghost use Rattle.jv_client.specs.Getting.{HasFilled, IsBlockIn, IsMissedBy, ReadsBlock};
ghost use Rattle.jv_client.specs.Reading.{Begins, ClientComesTo, ComesTo, GoesOnAfter, IsAhead, IsCachedAs, IsMade, LooksOn, OnlyLooksUp, Shows, came, fetch_at, fetch_in, need_at, need_in, put_at};

use crate::answers::looks;
use crate::client::{Client, forget};
use crate::doing::{Doing, Progress};
use crate::made::Made;
use crate::step::go_on;
use jv_cache::BlockCache;
use jv_client_handles::{View, Views, drop_view, inode_at, named, set_view};
use jv_client_reads::{Fetch, Need};
use jv_data::look;
use jv_model::{ActKind, BlockId, Bytes, ClientId, Device, Fault, Moment, Reply};
use jv_outside::{Depot, Keeper, Shelf};
use jv_slices::block_name;
use jv_yard::{ObservedYard, Yard, YardFault};
use std::alloc::{AllocError, Global};
use std::mem::replace;

/// The outcome of a reading: the looks that it cites, and its bytes.
#[derive(Drop)]
struct Found {
    first: u64,
    second: u64,
    bytes: Bytes,
}

/// How a reading stands once it has gone as far as it needs no request.
#[derive(Drop)]
enum Ahead {
    /// It needs this next.
    Needs(Fetch, Need),
    /// All was read.
    Read(Found),
}

impl Client {
    /// Begins a reading, whose file has nothing pending: makes its first request, or answers where it needs none.
    pub(crate) fn read<K: Keeper, D: Depot, H: Shelf>(
        &mut self,
        offset: u64,
        len: u32,
        k: &mut K,
        yard: &mut Yard<D, H>,
        entry: u64,
    ) -> Made
        requires reads { does_of self.old.doing ≡ Some (Reads offset len) }
        requires ready { IsReady self.old }
        requires flushed { left self.old ≡ None }
        requires first { need_in self.old.doing ≡ None }
        requires block { let seen = ⟦<Yard<D, H> as ObservedYard>⟧.seen in
            IsLength (seen yard.old).setting.block }
        ensures { let seen = ⟦<Yard<D, H> as ObservedYard>⟧.seen in
            (now : ℕ) (carrier : Carriage) → Makes now entry self.old self.new
            (shared (K.seen k.old) (seen yard.old) carrier)
            (shared (K.seen k.new) (seen yard.new) carrier) result }
    {
        match self.begin_reading(offset, len, yard.setting().block) {
            Ok(Some(found)) => self.show(None, found),
            Ok(None) => match self.need() {
                Some(need) => self.ask(need, k, yard, entry),
                None => unreachable!(),
            },
            Err(AllocError) => self.fail(Fault::NoMemory),
        }
    }

    /// What a reading that has begun needs next.
    pub(crate) fn need(&self) -> Option<Need>
        ensures { result ≡ need_in self.now.doing }
    {
        match &self.doing {
            Some(doing) => need_of(&doing.progress),
            None => None,
        }
    }

    /// Asks for what a reading needs.
    pub(crate) fn ask<K: Keeper, D: Depot, H: Shelf>(
        &mut self,
        need: Need,
        k: &mut K,
        yard: &mut Yard<D, H>,
        entry: u64,
    ) -> Made
        requires ready { IsReady self.old }
        requires flushed { left self.old ≡ None }
        requires needs { need_in self.old.doing ≡ Some need }
        requires block { let seen = ⟦<Yard<D, H> as ObservedYard>⟧.seen in
            IsLength (seen yard.old).setting.block }
        ensures { let seen = ⟦<Yard<D, H> as ObservedYard>⟧.seen in
            (now : ℕ) (carrier : Carriage) (h : ClientValue)
            → IsAhead (seen yard.old).setting.block h self.old → IsReady h
            → Makes now entry h self.new (shared (K.seen k.old) (seen yard.old) carrier)
            (shared (K.seen k.new) (seen yard.new) carrier) result }
    {
        match need {
            Need::Look(window) => self.look(window, k, entry),
            Need::Block(block) => self.get(block, yard),
            Need::Nothing => unreachable!(),
        }
    }

    /// Begins a reading, and goes ahead as far as it needs no request. Returns what it found where it needs none at all.
    fn begin_reading(
        &mut self,
        offset: u64,
        len: u32,
        block: u32,
    ) -> Result<Option<Found>, AllocError>
        requires reads { does_of self.old.doing ≡ Some (Reads offset len) }
        requires ready { IsReady self.old }
        requires flushed { left self.old ≡ None }
        requires first { need_in self.old.doing ≡ None }
        requires block { IsLength block }
        ensures ok { IfOk result (Begins offset len block self.old self.new) }
        ensures err { OnErr result (IsCachedAs offset len block self.old self.new) }
    {
        let fetch = Fetch::new(self.alloc, offset, len, block)?;
        make_cache(self.alloc, self.limits.entries, &mut self.cache)?;
        match self.ahead(fetch)? {
            Ahead::Read(found) => Ok(Some(found)),
            Ahead::Needs(fetch, need) => {
                read_from(&mut self.doing, fetch, need);
                Ok(None)
            }
        }
    }

    /// Goes ahead with a reading by the views of its handle and by the cache.
    fn ahead(&mut self, fetch: Fetch) -> Result<Ahead, AllocError>
        requires busy { IsSome self.old.doing }
        requires opened { IfSome self.old.doing (names_open self.old) }
        requires cached { IsSome self.old.cache }
        ensures looks { OnlyLooksUp fetch (came result) self.old self.new }
        ensures comes { IfOk result (ClientComesTo fetch self.old) }
    {
        let handle = self.handle_in_use();
        match (named(&self.handles, handle), &mut self.cache) {
            (Some(open), Some(cache)) => read_ahead(fetch, &open.views, cache),
            _ => unreachable!(),
        }
    }

    /// Looks at a window of the file. Refused with `Stale` where the session or the file is gone.
    fn look<K: Keeper>(&mut self, window: u32, k: &mut K, entry: u64) -> Made
        requires ready { IsReady self.old }
        requires flushed { left self.old ≡ None }
        requires needs { need_in self.old.doing ≡ Some (Need.Look window) }
        ensures { (now : ℕ) (yard : YardValue) (carrier : Carriage) (h : ClientValue)
            → IsAhead yard.setting.block h self.old → IsReady h → Makes now entry h self.new
            (shared (K.seen k.old) yard carrier) (shared (K.seen k.new) yard carrier) result }
    {
        let handle = self.handle_in_use();
        let inode = inode_at(&self.handles, handle);
        let who = self.who(Moment(0));
        let seen = match look(self.alloc, k, &who, inode, window) {
            Ok(seen) => seen,
            Err(fault) => return self.unmade(ActKind::Quiet, fault),
        };
        let view = View {
            entry,
            length: seen.length,
            list: seen.list,
        };
        if set_view(&mut self.handles, handle, window, view).is_err() {
            return self.fail(Fault::NoMemory);
        }
        let fetch = take_fetch(&mut self.doing);
        match self.ahead(fetch) {
            Ok(ahead) => self.go_on_reading(ActKind::Look { inode, window }, ahead),
            Err(AllocError) => {
                drop_view(&mut self.handles, handle, window);
                self.fail(Fault::NoMemory)
            }
        }
    }

    /// Gets a block that the cache doesn't have. Fails where the depot or the shelf does. Where the block isn't there, which
    /// no whole volume has, the read is refused with `TryAgain`, and no commit is named.
    fn get<D: Depot, H: Shelf>(&mut self, block: BlockId, yard: &mut Yard<D, H>) -> Made
        requires ready { IsReady self.old }
        requires flushed { left self.old ≡ None }
        requires needs { need_in self.old.doing ≡ Some (Need.Block block) }
        requires length { let seen = ⟦<Yard<D, H> as ObservedYard>⟧.seen in
            IsLength (seen yard.old).setting.block }
        ensures { let seen = ⟦<Yard<D, H> as ObservedYard>⟧.seen in
            (now entry : ℕ) (keeper : Store) (carrier : Carriage) (h : ClientValue)
            → IsAhead (seen yard.old).setting.block h self.old → IsReady h
            → Makes now entry h self.new (shared keeper (seen yard.old) carrier)
            (shared keeper (seen yard.new) carrier) result }
    {
        let bytes = match read_block(self.alloc, yard, self.id, block) {
            Ok(Some(bytes)) => bytes,
            Ok(None) => return self.miss(),
            Err(fault) => return self.fail(fault),
        };
        let mut fetch = take_fetch(&mut self.doing);
        fill(&mut fetch, &mut self.cache, block, bytes);
        match self.ahead(fetch) {
            Ok(ahead) => self.go_on_reading(ActKind::Quiet, ahead),
            Err(AllocError) => self.fail(Fault::NoMemory),
        }
    }

    /// Ends a read whose block isn't there.
    fn miss(&mut self) -> Made
        requires { IsSome (fetch_in self.old.doing) }
        ensures { IfSome self.old.doing (λ d.
            IsMissedBy self.old d (fetch_at d.progress) self.new result) }
    {
        let inode = inode_at(&self.handles, self.handle_in_use());
        let window = window_of(&self.doing);
        self.refuse(
            ActKind::Miss { inode, window },
            Fault::TryAgain { commit: 0 },
        )
    }

    /// Goes on after a request, or answers with it where the reading needs nothing more.
    fn go_on_reading(&mut self, kind: ActKind, ahead: Ahead) -> Made
        ensures { GoesOnAfter kind ahead self.old self.new result }
    {
        match ahead {
            Ahead::Read(found) => self.show(Some(kind), found),
            Ahead::Needs(fetch, need) => {
                go_on(&mut self.doing, Progress::Reading { fetch, need });
                Made::Request(kind)
            }
        }
    }

    /// Answers with what was read.
    fn show(&mut self, kind: Option<ActKind>, found: Found) -> Made
        ensures { Shows kind found self.old self.new result }
    {
        let Found {
            first,
            second,
            bytes,
        } = found;
        forget(&mut self.doing);
        let told = looks(first, second, bytes.len() as u64);
        match kind {
            Some(kind) => Made::Both(kind, told, Reply::Data(bytes)),
            None => Made::Answer(told, Reply::Data(bytes)),
        }
    }
}

/// Makes a cache for this many blocks, where there is none. On error nothing has changed.
fn make_cache(
    alloc: Global,
    entries: usize,
    cache: &mut Option<BlockCache>,
) -> Result<(), AllocError>
    ensures made { OnOk result (IsMade entries cache.old cache.new) }
    ensures err { OnErr result (cache.new ≡ cache.old) }
{
    if cache.is_none() {
        *cache = Some(BlockCache::new(alloc, entries)?);
    }
    Ok(())
}

/// What a reading needs next, where it has begun.
fn need_of(progress: &Progress) -> Option<Need>
    ensures { result ≡ need_at progress.now }
{
    match progress {
        Progress::Working { .. } => None,
        Progress::Reading { need, .. } => Some(*need),
    }
}

/// The operation reads from here on.
fn read_from(doing: &mut Option<Doing>, fetch: Fetch, need: Need)
    ensures { doing.new ≡ option_map (put_at (Reading fetch need)) doing.old }
{
    if let Some(doing) = doing {
        doing.progress = Progress::Reading { fetch, need };
    }
}

/// The window that an operation reads.
fn window_of(doing: &Option<Doing>) -> u32
    requires { IsSome (fetch_in doing.now) }
    ensures { IfSome (fetch_in doing.now) (λ fetch. result ≡ first_window fetch.parts) }
{
    match doing {
        Some(doing) => window_at(&doing.progress),
        None => unreachable!(),
    }
}

/// The window that is read in the progress of an operation that reads.
fn window_at(progress: &Progress) -> u32
    requires { IsSome (fetch_at progress.now) }
    ensures { IfSome (fetch_at progress.now) (λ fetch. result ≡ first_window fetch.parts) }
{
    match progress {
        Progress::Reading { fetch, .. } => fetch.window(),
        Progress::Working { .. } => unreachable!(),
    }
}

/// Takes the reading out of an operation that reads.
fn take_fetch(doing: &mut Option<Doing>) -> Fetch
    requires { IsSome (fetch_in doing.old) }
    ensures taken { fetch_in doing.old ≡ Some result }
    ensures left { doing.new ≡ option_map (put_at (Working 0 0 0)) doing.old }
{
    match doing {
        Some(doing) => take_from(&mut doing.progress),
        None => unreachable!(),
    }
}

/// Takes the reading out of the progress of an operation that reads.
fn take_from(progress: &mut Progress) -> Fetch
    requires { IsSome (fetch_at progress.old) }
    ensures taken { fetch_at progress.old ≡ Some result }
    ensures left { progress.new ≡ Working 0 0 0 }
{
    match replace(progress, Progress::FIRST) {
        Progress::Reading { fetch, .. } => fetch,
        Progress::Working { .. } => unreachable!(),
    }
}

/// Goes ahead with a reading as far as it needs no request.
fn read_ahead(mut fetch: Fetch, views: &Views, cache: &mut BlockCache) -> Result<Ahead, AllocError>
    ensures looks { LooksOn views.now fetch (came result) cache.old cache.new }
    ensures comes { IfOk result (ComesTo views.now cache.old fetch) }
{
    match fetch.advance(views, cache)? {
        Need::Nothing => {
            let (first, second, bytes) = fetch.into_parts()?;
            Ok(Ahead::Read(Found {
                first,
                second,
                bytes,
            }))
        }
        need => Ok(Ahead::Needs(fetch, need)),
    }
}

/// The bytes of a block, or `None` where it isn't there, or has another length than its name says.
fn read_block<D: Depot, H: Shelf>(
    alloc: Global,
    yard: &mut Yard<D, H>,
    client: ClientId,
    block: BlockId,
) -> Result<Option<Bytes>, Fault>
    ensures low { client ≤ LAST_CLIENT }
    ensures read { let seen = ⟦<Yard<D, H> as ObservedYard>⟧.seen in
        ReadsBlock client block (seen yard.old) (seen yard.new) result }
{
    let BlockId { id, index, size } = block;
    let Ok(name) = block_name(alloc, yard.setting(), id, index, size) else {
        return Err(Fault::NoMemory);
    };
    match yard.get_block(client, &name) {
        Ok(value) => Ok(block_in(value, size)),
        Err(fault) => Err(fault_of(fault)),
    }
}

/// The bytes of a block of this size, by what was read at its name.
fn block_in(value: Option<Bytes>, size: u32) -> Option<Bytes>
    ensures { IsBlockIn size value result }
{
    match value {
        Some(bytes) if bytes.len() == size as usize => Some(bytes),
        _ => None,
    }
}

/// What a yard's fault is to a client.
fn fault_of(fault: YardFault) -> Fault
    ensures { result ≡ yard_fault fault }
{
    match fault {
        YardFault::Depot => Fault::DeviceFailed(Device::Depot),
        YardFault::Shelf => Fault::DeviceFailed(Device::Shelf),
        YardFault::Memory => Fault::NoMemory,
    }
}

/// Fills in the block that a reading needs, and keeps it where memory allows.
fn fill(fetch: &mut Fetch, cache: &mut Option<BlockCache>, block: BlockId, bytes: Bytes)
    requires there { IsSome cache.old }
    requires needed { block_needed fetch.old ≡ Some block }
    requires long { length bytes ≡ block.size }
    ensures { HasFilled block bytes fetch.old fetch.new cache.old cache.new }
{
    match cache {
        Some(cache) => {
            // What the cache has no memory for is read all the same.
            let _ = fetch.fill(cache, block, bytes);
        }
        None => unreachable!(),
    }
}
