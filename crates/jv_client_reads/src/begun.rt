//! A part of a range, while its blocks come.
ghost use Rattle.std.specs.Prelude.{◌≡◌, ◌≢◌, ◌≤◌, ◌<◌, ◌-◌, Some, length, slice_get, IfOk, true, false};
ghost use Rattle.std.specs.List.{AllByRecursion};
ghost use Rattle.jv_volume_bytes.specs.promise.Blocks.{Blocks};
ghost use Rattle.jv_cache.specs.Cached.{noted_in};
ghost use Rattle.jv_client_handles.specs.Views.{HasRecords};
ghost use Rattle.jv_slices_reading.specs.Laws.{ReadsBlocks};
ghost use Rattle.jv_client_reads.specs.Ahead.{part_blocks};
ghost use Rattle.jv_client_reads.specs.Calls.{IsMissing, cache_key};
ghost use Rattle.jv_client_reads.specs.Going.{IsBegunBy};
ghost use Rattle.jv_client_reads.specs.Inside.{IsWithin, FillsOne, FillsUp, HasFilled, Starts, asked_of, parts_of};

use crate::spans::{Span, Spans};
use jv_cache::{BlockCache, BlockKey};
use jv_client_handles::{View, Views};
use jv_model::{BlockId, Bytes, WINDOW};
use jv_slices_reading::WindowRead;
use std::alloc::{AllocError, Global};

/// A part of a range whose blocks come.
#[derive(Drop)]
pub(crate) struct Begun {
    /// The entry of the look that it is read by.
    pub(crate) entry: u64,
    /// Whether the file has all positions that are asked for.
    pub(crate) is_full: bool,
    /// The positions that the file has.
    pub(crate) part: WindowRead,
}

/// A part of a range that was read.
#[derive(Drop)]
pub(crate) struct Read {
    /// The entry of the look that it was read by.
    pub(crate) entry: u64,
    pub(crate) bytes: Bytes,
}

/// What comes before the blocks of the next part.
#[derive(Drop)]
pub(crate) enum Start {
    /// There is no part.
    Over,
    /// A look at its window.
    Look(u32),
    /// Nothing: it has begun.
    Begun(Begun),
}

/// Begins with the first of the parts.
pub(crate) fn begin_first(
    alloc: Global,
    block: u32,
    parts: &Spans,
    views: &Views,
) -> Result<Start, AllocError>
    requires some { 0 < block }
    requires within { AllByRecursion IsWithin (parts_of parts.now) }
    ensures { IfOk result (Starts views.now block (parts_of parts.now)) }
{
    let span = match parts {
        Spans::Over => return Ok(Start::Over),
        Spans::Last(span) => *span,
        Spans::Two(span, _) => *span,
    };
    match views.at(span.window) {
        None => Ok(Start::Look(span.window)),
        Some(view) => Ok(Start::Begun(begin(alloc, block, span, view)?)),
    }
}

/// Begins with a part by the view of its window: with the positions that the file had then.
fn begin(alloc: Global, block: u32, span: Span, view: &View) -> Result<Begun, AllocError>
    requires some { 0 < block }
    requires within { IsWithin (asked_of span) }
    requires records { HasRecords view.now }
    ensures begun { IfOk result (IsBegunBy block (asked_of span) view.now) }
    ensures few { IfOk result (λ begun. length begun.part.left ≤ span.to - span.from) }
    ensures left { IfOk result (λ begun.
        begun.part.left ≡ part_blocks block view.now (asked_of span)) }
    ensures reads { IfOk result (λ begun. (blocks : Blocks) → ReadsBlocks blocks begun.part) }
{
    let from = (span.from - u64::from(span.window) * WINDOW) as u32;
    let len = span.to.min(view.length).saturating_sub(span.from) as u32;
    let part = WindowRead::new(alloc, &view.list, from, from + len, block)?;
    Ok(Begun {
        entry: view.entry,
        is_full: span.to <= view.length,
        part,
    })
}

/// Fills in the blocks that the cache has up to the first that it hasn't, which is returned. Each is looked up once.
pub(crate) fn fill_cached(part: &mut WindowRead, cache: &mut BlockCache) -> Option<BlockId>
    ensures { FillsUp cache.old cache.new part.old part.new result }
{
    while let Some(block) = part.next() {
        if !fill_next(part, cache, block) {
            return Some(block);
        }
    }
    None
}

/// Looks up the next block, and fills it in where the cache has it; returns whether it has. Bytes of another length
/// aren't it.
fn fill_next(part: &mut WindowRead, cache: &mut BlockCache, block: BlockId) -> bool
    requires { slice_get part.old.left 0 ≡ Some block }
    ensures cache { cache.new ≡ noted_in cache.old (cache_key block) }
    ensures hit { result ≡ true → HasFilled cache.old block part.old part.new }
    ensures miss { result ≡ false → part.new ≡ part.old }
    ensures missing { result ≡ false → IsMissing cache.old block }
{
    let key = BlockKey {
        id: block.id,
        index: block.index,
    };
    match cache.find(key) {
        Some(bytes) => fill_fitting(part, block, bytes),
        None => false,
    }
}

/// Fills in the next block, if these bytes are as many as it has.
fn fill_fitting(part: &mut WindowRead, block: BlockId, bytes: &Bytes) -> bool
    requires { slice_get part.old.left 0 ≡ Some block }
    ensures hit { result ≡ true → FillsOne bytes.now part.old part.new }
    ensures miss { result ≡ false → part.new ≡ part.old }
    ensures long { result ≡ true → length bytes.now ≡ block.size }
    ensures other { result ≡ false → length bytes.now ≢ block.size }
{
    if bytes.len() != block.size as usize {
        return false;
    }
    part.fill(bytes.as_slice());
    true
}
