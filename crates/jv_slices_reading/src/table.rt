//! Which positions of a part show which bytes of which block.
ghost use Rattle.std.specs.Prelude.{◌≡◌, ℕ, ◌+◌, ◌-◌, ◌<◌, ◌≤◌, List, [], length, IfOk, OnOk, All, ◌↔◌};
ghost use Rattle.jv_model.specs.declared.slice.Rec.{Rec as RecSeen};
ghost use Rattle.jv_model.specs.declared.slice.BlockId.{BlockId as BlockSeen};
ghost use Rattle.jv_model.specs.declared.slice.Spot.{Spot as SpotSeen};
ghost use Rattle.jv_model.specs.blocks.Slices.{IsPart, IsPlan, IsAsStored};
ghost use Rattle.jv_model.specs.promise.blocks.Slices.{stored_place};
ghost use Rattle.jv_slices.specs.Listing.{AreFew, ordered_of};
ghost use Rattle.jv_slices.specs.Shown.{EndsBy};
ghost use Rattle.jv_model.specs.declared.limits.TheConstants.{WINDOW};
ghost use Rattle.jv_slices_reading.specs.Copies.{Fits, HasBytes, IsCopied};
ghost use Rattle.jv_slices_reading.specs.Overlaps.{HasOverlaps, IsFew, ShowsPiece, BeginsBy};
ghost use Rattle.jv_slices_reading.specs.Overlaps.{overlaps_at, overlaps_under, with_overlap};

use crate::copying::{Overlap, Shown, copy_few, copy_overlaps};
use jv_model::{BlockId, Piece, Pieces, Spot};
use jv_slices::{OrderedBlock, are_few, block_len};
use std::alloc::{AllocError, Global};
use std::collections::BTreeMap;

/// Overlaps, by their blocks.
pub(crate) type ByBlock = BTreeMap<OrderedBlock, Vec<Overlap>>;

/// The overlaps of blocks with a part.
#[derive(Drop)]
pub(crate) enum Table {
    /// Few of them, in the order of the part. To pass over those of other blocks takes less time than a tree.
    Few(Vec<Shown>),
    /// Many of them, by block.
    Many(ByBlock),
}

fn key_of(block: BlockId) -> OrderedBlock
    ensures { result ≡ ordered_of block }
{
    let BlockId { id, index, size } = block;
    OrderedBlock { id, index, size }
}

/// Copies the bytes of a block to each position of a part that shows one of them.
pub(crate) fn copy_shown(table: &Table, block: BlockId, part: &mut [u8], bytes: &[u8])
    requires { All (Fits (length bytes.now) (length part.old)) (overlaps_at table.now block) }
    ensures { (byte : ℕ → ℕ) → All (HasBytes byte bytes.now) (overlaps_at table.now block) →
        IsCopied byte (overlaps_at table.now block) part.old part.new }
{
    match table {
        Table::Few(few) => copy_few(part, few.as_slice(), block, bytes),
        Table::Many(many) => copy_overlaps(part, overlaps_of(many, block), bytes),
    }
}

/// The overlaps of a block, where there are many.
fn overlaps_of(many: &ByBlock, block: BlockId) -> &[Overlap]
    ensures { result.now ≡ overlaps_under many.now.entries block }
{
    match many.get(&key_of(block)) {
        Some(overlaps) => overlaps.as_slice(),
        None => &[],
    }
}

fn add_overlap(
    alloc: Global,
    table: &mut Table,
    block: BlockId,
    overlap: Overlap,
) -> Result<(), AllocError>
    ensures { OnOk result ((b : BlockSeen) → overlaps_at table.new b
        ≡ with_overlap (overlaps_at table.old) block overlap b) }
{
    match table {
        Table::Few(few) => few.push(Shown { block, overlap })?,
        Table::Many(many) => add_to_many(alloc, many, block, overlap)?,
    }
    Ok(())
}

fn add_to_many(
    alloc: Global,
    many: &mut ByBlock,
    block: BlockId,
    overlap: Overlap,
) -> Result<(), AllocError>
    ensures { OnOk result ((b : BlockSeen) → overlaps_under many.new.entries b
        ≡ with_overlap (overlaps_under many.old.entries) block overlap b) }
{
    let key = key_of(block);
    let mut overlaps = match many.remove(&key) {
        Some(overlaps) => overlaps,
        None => Vec::new(alloc),
    };
    overlaps.push(overlap)?;
    many.insert(key, overlaps)?;
    Ok(())
}

/// Adds the overlaps of a piece whose first position stands at `start` of the part. The table has all of those before it.
fn add_piece(
    alloc: Global,
    table: &mut Table,
    start: u32,
    piece: Piece,
    block: u32,
) -> Result<(), AllocError>
    requires some { 0 < block }
    requires part { IsPart piece }
    requires in_window { start + piece.len ≤ WINDOW }
    ensures { OnOk result ((places : ℕ → SpotSeen) (len : ℕ) →
        ShowsPiece places start piece → start + piece.len ≤ len →
        HasOverlaps block places len start (overlaps_at table.old) →
        HasOverlaps block places len (start + piece.len) (overlaps_at table.new)) }
{
    let Spot::Slice { id, size, at } = piece.spot else {
        return Ok(());
    };
    let mut done = 0;
    while done < piece.len {
        let index = (at + done) / block;
        let inside = (at + done) % block;
        let size = block_len(size, block, index);
        let len = (piece.len - done).min(size - inside);
        let overlap = Overlap {
            start: start + done,
            place: inside,
            len,
        };
        add_overlap(alloc, table, BlockId { id, index, size }, overlap)?;
        done += len;
    }
    Ok(())
}

/// A table for the overlaps of these pieces, with none of them yet.
fn new_table(alloc: Global, pieces: &[Piece], block: u32) -> Result<Table, AllocError>
    ensures none { IfOk result (λ table. (b : BlockSeen) → overlaps_at table b ≡ []) }
    ensures few { IfOk result (λ table. IsFew table ↔ AreFew block pieces.now) }
{
    if are_few(pieces, block) {
        // A piece no longer than a block shows two blocks at most.
        Ok(Table::Few(Vec::with_capacity(alloc, 2 * pieces.len())?))
    } else {
        Ok(Table::Many(BTreeMap::new(alloc)))
    }
}

/// The overlaps of all blocks with the part of a window whose pieces these are.
pub(crate) fn table_of(
    alloc: Global,
    pieces: &Pieces,
    from: u32,
    to: u32,
    block: u32,
) -> Result<Table, AllocError>
    requires some { 0 < block }
    requires parts { All IsPart pieces.now }
    requires begins { All (BeginsBy from) pieces.now }
    requires ends { All (EndsBy to) pieces.now }
    requires in_window { to ≤ WINDOW }
    ensures { IfOk result (λ table. (list : List RecSeen) →
        IsPlan list from to pieces.now → All (IsAsStored list) pieces.now →
        HasOverlaps block (λ n. stored_place list (from + n)) (to - from) (to - from)
        (overlaps_at table)) }
{
    let mut table = new_table(alloc, pieces.as_slice(), block)?;
    for piece in pieces.as_slice() {
        add_piece(alloc, &mut table, piece.from - from, *piece, block)?;
    }
    Ok(table)
}
