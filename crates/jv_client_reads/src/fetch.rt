//! A reading of a range of a file, window by window.
ghost use Rattle.std.specs.Prelude.{◌≡◌, ◌≤◌, ◌++◌, IfOk, IsOk, IsSome, IsSomeAnd, OnErr, length};
ghost use Rattle.jv_client_reads.specs.Ahead.{parts_after};
ghost use Rattle.jv_client_reads.specs.Calls.{KeepsBy};
ghost use Rattle.jv_client_reads.specs.Fetching.{bytes_read, entry_at};
ghost use Rattle.jv_client_reads.specs.Inside.{parts_of, reads_of};

use crate::begun::{Begun, Read, Start, begin_first, fill_cached};
use crate::need::Need;
use crate::spans::{Spans, spans_of};
use jv_cache::{BlockCache, BlockKey};
use jv_client_handles::Views;
use jv_model::{BlockId, Bytes};
use std::alloc::{AllocError, Global};
use std::marker::Model;

/// How far a reading is.
#[derive(Drop)]
struct FetchCourse {
    /// The parts that aren't read yet.
    parts: Spans,
    /// The first of them, once it has begun.
    begun: Option<Begun>,
    first: Option<Read>,
    second: Option<Read>,
}

/// A reading of a range of at most a window's length, which touches at most two windows. It goes from left to right;
/// where the file ends inside a part, the part after it isn't read. Its memory is that of the bytes read and of one
/// window's pieces. A box has how far it is: the operation that it is a part of moves at each step, and most read nothing.
#[derive(Drop)]
pub struct Fetch {
    alloc: Global,
    /// The length of the volume's blocks.
    block: u32,
    course: Box<FetchCourse>,
}

impl Model for Fetch {
    ghost use Rattle.jv_client_reads.specs.Fetching.{Fetching};
    ghost use Rattle.jv_client_reads.specs.Inside.{fetching_of, IsSound};

    ghost Value = { Fetching };

    ghost view = { fetching_of };

    ghost invariant = { IsSound };
}

impl Fetch {
    ghost use Rattle.std.specs.Prelude.{ℕ, ◌-◌, ◌<◌, List, [], ◌∷◌, OnOk, Some, None};
    ghost use Rattle.jv_model.specs.declared.limits.TheConstants.{WINDOW, FILE_END};
    ghost use Rattle.jv_model.specs.promise.journal.Reading.{Asked, asked_parts};
    ghost use Rattle.jv_volume_bytes.specs.promise.Blocks.{Blocks};
    ghost use Rattle.jv_client_handles.specs.Views.{SeenViews};
    ghost use Rattle.jv_client_reads.specs.Fetching.{begins, block_needed, fetch_left, fetched_of, first_window};
    ghost use Rattle.jv_client_reads.specs.Going.{CanFetch, IsFetching};
    ghost use Rattle.jv_client_reads.specs.Ahead.{blocks_ahead};
    ghost use Rattle.jv_client_reads.specs.Calls.{Asks, AsksSome, HasCached, Wants, first_seen};
    ghost use Rattle.jv_client_reads.specs.Inside.{BeginsPart, EndsPart, FillsBegun, FillsFrom, FitsNext, GoesOnAny, GoesTo, Stops, ended};

    /// The reading of `len` bytes from `offset` on, 1 to [`jv_model::WINDOW`] of them, over a volume whose blocks have `block`
    /// bytes, at least 1. Nothing is read yet. The only error is out of memory. POSIX.1-2017, pread.
    pub fn new(alloc: Global, offset: u64, len: u32, block: u32) -> Result<Fetch, AllocError>
        requires some { 0 < block }
        requires low { offset < FILE_END }
        requires len { (0 < len) × (len ≤ WINDOW) }
        ensures { IfOk result (λ fetch. fetch ≡ begins block (asked_parts offset len)) }
    {
        let course = FetchCourse {
            parts: spans_of(offset, len),
            begun: None,
            first: None,
            second: None,
        };
        Ok(Fetch {
            alloc,
            block,
            course: Box::new(alloc, course)?,
        })
    }

    /// Goes on as far as views and cached blocks reach, and returns what it needs then: a look at the window of the
    /// next part, a block that the cache lacks, or nothing. Each block on the way is looked up once, in the order of the
    /// bytes, a hit or, at the last, a miss; bytes of another length than the block's aren't it. Out of memory, the
    /// reading is over.
    pub fn advance(&mut self, views: &Views, cache: &mut BlockCache) -> Result<Need, AllocError>
        ensures block { self.new.block ≡ self.old.block }
        ensures wants { IfOk result (Wants views.now self.new) }
        ensures can { CanFetch views.now self.old → OnOk result (CanFetch views.now self.new) }
        ensures falls { OnOk result (fetch_left self.new ≤ fetch_left self.old) }
        ensures begins_part { self.old.begun ≡ None → first_seen views.now self.old.parts
            → OnOk result (fetch_left self.new < fetch_left self.old) }
        ensures asks { IfOk result (λ need. Asks (blocks_ahead views.now self.old)
            (blocks_ahead views.now self.new) need cache.old cache.new) }
        ensures cache { OnErr result
            (AsksSome (blocks_ahead views.now self.old) cache.old cache.new) }
        ensures reads { (blocks : Blocks) (all : List Asked)
            → HasCached blocks views.now self.old.block cache.old
            → IsFetching blocks views.now all self.old
            → OnOk result (IsFetching blocks views.now all self.new) }
    {
        if let Some(need) = self.read_part(views, cache)? {
            return Ok(need);
        }
        if let Some(need) = self.read_part(views, cache)? {
            return Ok(need);
        }
        Ok(Need::Nothing)
    }

    /// Reads the first of the parts, and returns what it needs for that, or `None` where the part was read or there is
    /// none.
    fn read_part(
        &mut self,
        views: &Views,
        cache: &mut BlockCache,
    ) -> Result<Option<Need>, AllocError>
        ensures block { self.new.block ≡ self.old.block }
        ensures few { length self.old.parts ≤ 2 }
        ensures stops { IfOk result (Stops views.now self.old self.new) }
        ensures cache { OnErr result (cache.new ≡ cache.old) }
        ensures goes { IfOk result (GoesTo views.now cache.old cache.new self.old self.new) }
    {
        if let Some(window) = self.begin_part(views)? {
            return Ok(Some(Need::Look(window)));
        }
        Ok(self.go_on(cache))
    }

    /// Begins with the first of the parts, unless one has begun or none is left. Returns the window that is looked at
    /// first.
    fn begin_part(&mut self, views: &Views) -> Result<Option<u32>, AllocError>
        ensures few { length self.old.parts ≤ 2 }
        ensures block { self.new.block ≡ self.old.block }
        ensures begins { IfOk result (BeginsPart views.now self.old self.new) }
    {
        if self.course.begun.is_some() {
            return Ok(None);
        }
        match begin_first(self.alloc, self.block, &self.course.parts, views)? {
            Start::Over => Ok(None),
            Start::Look(window) => Ok(Some(window)),
            Start::Begun(begun) => {
                self.wait(begun);
                Ok(None)
            }
        }
    }

    /// Keeps the first of the parts, which has begun.
    fn wait(&mut self, begun: Begun)
        requires { 1 ≤ length self.old.parts }
        ensures { self.new ≡ record self.old { begun = Some begun } }
    {
        self.course.begun = Some(begun);
    }

    /// Goes on with the part that has begun by the cache's blocks, where one has.
    fn go_on(&mut self, cache: &mut BlockCache) -> Option<Need>
        ensures { GoesOnAny cache.old cache.new self.old self.new self.old.begun result }
    {
        if self.course.begun.is_none() {
            return None;
        }
        if let Some(block) = self.fill_from(cache) {
            return Some(Need::Block(block));
        }
        self.end_part();
        None
    }

    /// Fills in what the cache has of the part that has begun, and returns the block that it lacks.
    fn fill_from(&mut self, cache: &mut BlockCache) -> Option<BlockId>
        requires { IsSome self.old.begun }
        ensures { FillsFrom cache.old cache.new self.old self.new result }
    {
        match &mut self.course.begun {
            Some(begun) => fill_cached(&mut begun.part, cache),
            None => unreachable!(),
        }
    }

    /// Ends the part that has begun, whose blocks are all filled in.
    fn end_part(&mut self)
        requires { IsSomeAnd self.old.begun (λ begun. begun.part.left ≡ []) }
        ensures { EndsPart self.old self.new }
    {
        match self.course.begun.take() {
            Some(begun) => self.end(begun.entry, begun.is_full, begun.part.into_bytes()),
            None => unreachable!(),
        }
    }

    /// Keeps the bytes of the first of the parts. Where the file has all of them, the other part is next.
    fn end(&mut self, entry: u64, is_full: bool, bytes: Bytes)
        requires { 1 ≤ length self.old.parts }
        ensures { self.new ≡ ended entry is_full bytes self.old }
    {
        let course = &mut *self.course;
        course.begun = None;
        course.parts = after(course.parts, is_full);
        let read = Some(Read { entry, bytes });
        if course.first.is_none() {
            course.first = read;
        } else {
            course.second = read;
        }
    }

    /// The window of the part that is being read, or of the next one. 0 where all was read.
    pub fn window(&self) -> u32
        ensures { result ≡ first_window self.now.parts }
    {
        match self.course.parts {
            Spans::Over => 0,
            Spans::Last(span) | Spans::Two(span, _) => span.window,
        }
    }

    /// Fills in the block that is needed, and keeps it in the cache. It has as many bytes as its `size` says. The only
    /// error is out of memory: then the cache is as before, and the block is filled in all the same. The reading goes
    /// on by the next `advance`.
    pub fn fill(
        &mut self,
        cache: &mut BlockCache,
        block: BlockId,
        bytes: Bytes,
    ) -> Result<(), AllocError>
        requires needed { block_needed self.old ≡ Some block }
        requires long { length bytes ≡ block.size }
        ensures block { self.new.block ≡ self.old.block }
        ensures can { (views : SeenViews) → CanFetch views self.old → CanFetch views self.new }
        ensures falls { fetch_left self.new < fetch_left self.old }
        ensures ahead { (views : SeenViews)
            → blocks_ahead views self.old ≡ block ∷ blocks_ahead views self.new }
        ensures cache { KeepsBy result block bytes cache.old cache.new }
        ensures reads { (blocks : Blocks) (views : SeenViews) (all : List Asked)
            → blocks block ≡ Some bytes → IsFetching blocks views all self.old
            → IsFetching blocks views all self.new }
    {
        self.fill_in(bytes.as_slice());
        keep(cache, block, bytes)
    }

    /// Fills in the block that is needed.
    fn fill_in(&mut self, bytes: &[u8])
        requires { FitsNext bytes.now self.old.begun }
        ensures { FillsBegun bytes.now self.old self.new }
    {
        match &mut self.course.begun {
            Some(begun) => begun.part.fill(bytes),
            None => unreachable!(),
        }
    }

    /// The entries of the looks that the reading cites, 0 for a window that wasn't read, and its bytes. It needs
    /// nothing more. Takes memory only where two parts were read: the bytes of one are moved. The only error is out of
    /// memory.
    pub fn into_parts(self) -> Result<(u64, u64, Bytes), AllocError>
        requires { self.parts ≡ [] }
        ensures parts { IfOk result (λ parts. parts ≡ fetched_of self) }
        ensures moved { length self.read ≤ 1 → IsOk result }
    {
        let course = Box::into_inner(self.course);
        parts_read(self.alloc, course.first, course.second)
    }
}

/// The parts that are left once the first was read.
fn after(parts: Spans, is_full: bool) -> Spans
    ensures { parts_of result ≡ parts_after is_full (parts_of parts) }
{
    match parts {
        Spans::Two(_, other) if is_full => Spans::Last(other),
        _ => Spans::Over,
    }
}

/// Keeps a block. On error, which is out of memory, the cache is as before.
fn keep(cache: &mut BlockCache, block: BlockId, bytes: Bytes) -> Result<(), AllocError>
    ensures { KeepsBy result block bytes cache.old cache.new }
{
    let key = BlockKey {
        id: block.id,
        index: block.index,
    };
    match cache.keep(key, bytes) {
        Ok(()) => Ok(()),
        Err(_) => Err(AllocError),
    }
}

/// The entries and the bytes of at most two parts that were read.
fn parts_read(
    alloc: Global,
    first: Option<Read>,
    second: Option<Read>,
) -> Result<(u64, u64, Bytes), AllocError>
    ensures parts { let reads = reads_of first second in
        IfOk result (λ parts. parts ≡ (entry_at 0 reads, entry_at 1 reads, bytes_read reads)) }
    ensures moved { length (reads_of first second) ≤ 1 → IsOk result }
{
    let Some(first) = first else {
        return Ok((0, 0, Bytes::new(alloc)));
    };
    let Some(second) = second else {
        return Ok((first.entry, 0, first.bytes));
    };
    let bytes = joined(first.bytes, second.bytes.as_slice())?;
    Ok((first.entry, second.entry, bytes))
}

/// Bytes with others after them.
fn joined(bytes: Bytes, more: &[u8]) -> Result<Bytes, AllocError>
    ensures { IfOk result (λ both. both ≡ bytes ++ more.now) }
{
    let mut both = bytes.into_vec();
    both.extend_from_slice(more)?;
    Ok(Bytes::from_vec(both))
}
