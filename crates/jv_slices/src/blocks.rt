//! Blocks of slices, and which of them pieces need.
ghost use Rattle.std.specs.Prelude.{◌≡◌, ◌<◌, ◌/◌, ◌+◌, ◌-◌, ◌↔◌, [], All, IfOk, IsNone, IsTrue, OnOk, not, sum, fold};
ghost use Rattle.std.specs.List.{list_any};
ghost use Rattle.jv_slices.specs.Listing.{AreFew, ListsIn};
ghost use Rattle.jv_model.specs.blocks.Slices.{IsPart, is_same_block, block_lengths, needed_blocks, with_block, blocks_of_piece};
ghost use Rattle.jv_model.specs.promise.blocks.Slices.{block_count, block_length};

use jv_model::{BlockId, BlockKeys, Piece, Pieces, Spot};
use std::alloc::{AllocError, Global};
use std::collections::BTreeSet;

/// How many blocks of at most `block` bytes a slice of `size` bytes has. Their lengths add up to its size.
pub fn blocks_of(size: u32, block: u32) -> u32
    requires { 0 < block }
    ensures count { result ≡ block_count size block }
    ensures lengths { sum (block_lengths size block) ≡ size }
{
    size.div_ceil(block)
}

/// The length in bytes of the block at an index of a slice of `size` bytes: `block` for each but the last.
pub fn block_len(size: u32, block: u32, index: u32) -> u32
    requires some { 0 < block }
    requires within { index < block_count size block }
    ensures length { result ≡ block_length size block index }
    ensures some { 0 < result }
{
    block.min(size - index * block)
}

/// The blocks that pieces need, each once, as a reader reaches them from piece to piece. Lengths are in bytes. The only
/// error is out of memory.
#[tactic(auto, unfolding(jv_model::specs::blocks::Slices::needed_blocks))]
pub fn needs(alloc: Global, pieces: &Pieces, block: u32) -> Result<BlockKeys, AllocError>
    requires some { 0 < block }
    requires parts { All IsPart pieces.now }
    ensures { IfOk result (λ keys. keys ≡ needed_blocks block pieces.now) }
{
    let mut keys = Vec::new(alloc);
    let mut listed = no_blocks(alloc, pieces.as_slice(), block);
    for piece in pieces.as_slice() {
        add_piece(&mut keys, &mut listed, *piece, block)?;
    }
    Ok(BlockKeys::from_vec(keys))
}

/// The most pieces that are few. Where none is longer than a block, they need at most twice as many blocks, and to look
/// through these takes less time than a set.
const FEW: usize = 8;

/// The set of the listed blocks, still empty, or no set where they will be few.
fn no_blocks(alloc: Global, pieces: &[Piece], block: u32) -> Option<BTreeSet<OrderedBlock>>
    ensures listed { ListsIn [] result }
    ensures few { IsNone result ↔ AreFew block pieces.now }
{
    if are_few(pieces, block) {
        None
    } else {
        Some(BTreeSet::new(alloc))
    }
}

/// Whether pieces are so few and short that to look through their blocks takes less time than a set or a map of these.
pub fn are_few(pieces: &[Piece], block: u32) -> bool
    ensures { IsTrue result ↔ AreFew block pieces.now }
{
    pieces.len() <= FEW && pieces.iter().all(|piece| piece.len <= block)
}

/// A block in the order of sets and maps: by id, index and size.
#[derive(Clone, Copy, Debug, Drop, PartialEq, Eq, PartialOrd, Ord)]
pub struct OrderedBlock {
    pub id: u64,
    pub index: u32,
    pub size: u32,
}

fn add_piece(
    keys: &mut Vec<BlockId>,
    listed: &mut Option<BTreeSet<OrderedBlock>>,
    piece: Piece,
    block: u32,
) -> Result<(), AllocError>
    requires some { 0 < block }
    requires part { IsPart piece }
    requires listed { ListsIn keys.old.items listed.old }
    ensures listed { OnOk result (ListsIn keys.new.items listed.new) }
    ensures keys { OnOk result
        (keys.new.items ≡ fold with_block keys.old.items (blocks_of_piece block piece)) }
{
    let Spot::Slice { id, size, at } = piece.spot else {
        return Ok(());
    };
    let first = at / block;
    let last = (at + piece.len - 1) / block;
    for index in first..last + 1 {
        let size = block_len(size, block, index);
        add_block(keys, listed, BlockId { id, index, size })?;
    }
    Ok(())
}

fn add_block(
    keys: &mut Vec<BlockId>,
    listed: &mut Option<BTreeSet<OrderedBlock>>,
    block: BlockId,
) -> Result<(), AllocError>
    requires listed { ListsIn keys.old.items listed.old }
    ensures listed { OnOk result (ListsIn keys.new.items listed.new) }
    ensures keys { OnOk result (keys.new.items ≡ with_block keys.old.items block) }
{
    if is_new(keys, listed, block)? {
        keys.push(block)?;
    }
    Ok(())
}

/// Whether a block isn't among the keys. The set has it afterwards, where there is one.
fn is_new(
    keys: &[BlockId],
    listed: &mut Option<BTreeSet<OrderedBlock>>,
    block: BlockId,
) -> Result<bool, AllocError>
    requires listed { ListsIn keys.now listed.old }
    ensures listed { OnOk result (ListsIn (with_block keys.now block) listed.new) }
    ensures new { IfOk result (λ new. new ≡ not (list_any (is_same_block block) keys.now)) }
{
    let Some(set) = listed else {
        return Ok(!has_block(keys, block));
    };
    let BlockId { id, index, size } = block;
    Ok(set.insert(OrderedBlock { id, index, size })?)
}

fn has_block(keys: &[BlockId], block: BlockId) -> bool
    ensures { result ≡ list_any (is_same_block block) keys.now }
{
    keys.contains(&block)
}
