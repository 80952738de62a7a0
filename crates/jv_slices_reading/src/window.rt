ghost use Rattle.std.specs.Prelude.{◌≡◌, ℕ, ◌-◌, ◌<◌, ◌≤◌, List, [], drop, length, slice_get, slice_index, All, IfOk, IfSome, IsSomeAnd, None};
ghost use Rattle.jv_model.specs.declared.limits.TheConstants.{WINDOW};
ghost use Rattle.jv_model.specs.promise.blocks.Slices.{IsRecord};
ghost use Rattle.jv_model.specs.promise.journal.Reading.{bytes_from};
ghost use Rattle.jv_volume_bytes.specs.promise.Bytes.{KnownBytes};
ghost use Rattle.jv_slices_reading.specs.Parts.{IsPartOf, IsNamed, FillsIn, ReadsAs, blocks_between, window_byte};

use crate::table::{Table, copy_shown, table_of};
use jv_model::{BlockId, Bytes, List};
use jv_slices::{needs, plan};
use std::alloc::{AllocError, Global};
use std::marker::Model;
use std::snapshot::Snapshot;

/// The bytes of a part of a window, while the blocks that it needs come one by one. It keeps the bytes and where each block
/// shows in them, and no block: its memory is that of the part and of its pieces, whatever the length of blocks.
#[derive(Drop)]
pub struct WindowRead {
    list: Snapshot<List>,
    from: u32,
    to: u32,
    block: u32,
    needed: Vec<BlockId>,
    filled: usize,
    table: Table,
    bytes: Vec<u8>,
}

impl Model for WindowRead {
    ghost use Rattle.jv_slices_reading.specs.Parts.{Part};

    ghost Value = { Part };

    ghost use Rattle.jv_slices_reading.specs.Inside.{part_of, IsSound};

    ghost view = { part_of };

    ghost invariant = { IsSound };
}

impl WindowRead {
    /// The positions of a window from `from` up to `to`, at most [`jv_model::WINDOW`], by the window's list, over slices in
    /// blocks of `block` bytes, at least 1. No block is filled in yet, and each byte is 0. Takes n log n time for n
    /// records and blocks. The only error is out of memory.
    pub fn new(
        alloc: Global,
        list: &List,
        from: u32,
        to: u32,
        block: u32,
    ) -> Result<WindowRead, AllocError>
        requires some { 0 < block }
        requires records { All IsRecord list.now }
        requires rising { from ≤ to }
        requires in_window { to ≤ WINDOW }
        ensures part { IfOk result (IsPartOf list.now from to block) }
        ensures left { IfOk result (λ part.
            part.left ≡ blocks_between block list.now from to) }
        ensures few { IfOk result (λ part. length part.left ≤ to - from) }
        ensures named { IfOk result (λ part. All (IsNamed list.now block) part.left) }
        ensures reads { IfOk result (λ part.
            (known_bytes : KnownBytes) → ReadsAs known_bytes part) }
    {
        let pieces = plan(alloc, list, from, to)?;
        let needed = needs(alloc, &pieces, block)?.into_vec();
        let table = table_of(alloc, &pieces, from, to, block)?;
        let bytes = zeros(alloc, to - from)?;
        Ok(WindowRead {
            list: Snapshot::of(list),
            from,
            to,
            block,
            needed,
            filled: 0,
            table,
            bytes,
        })
    }

    /// The block to be filled in next, or `None` where none is left. Takes no memory.
    pub fn next(&self) -> Option<BlockId>
        ensures next { result ≡ slice_get self.now.left 0 }
        ensures none { result ≡ None → self.now.left ≡ [] }
        ensures named { IfSome result (IsNamed self.now.list self.now.block) }
    {
        self.needed.get(self.filled).copied()
    }

    /// Fills in the bytes of the block that is next, at each position that shows one of them, and takes it off those that are
    /// left. There is one, and these are as many bytes as its `size` says. Takes no memory.
    pub fn fill(&mut self, bytes: &[u8])
        requires { IsSomeAnd (slice_get self.old.left 0) (λ b. length bytes.now ≡ b.size) }
        ensures part { IsPartOf self.old.list self.old.from self.old.to self.old.block self.new }
        ensures left { self.new.left ≡ drop 1 self.old.left }
        ensures reads { FillsIn bytes.now self.old self.new }
    {
        let block = self.needed[self.filled];
        copy_shown(&self.table, block, &mut self.bytes, bytes);
        self.filled += 1;
    }

    /// The bytes, where no block is left. Takes no memory.
    pub fn into_bytes(self) -> Bytes
        requires { self.left ≡ [] }
        ensures { (known_bytes : KnownBytes) → ReadsAs known_bytes self →
            result ≡ bytes_from (window_byte known_bytes self.list) self.from
            (self.to - self.from) }
    {
        Bytes::from_vec(self.bytes)
    }
}

fn zeros(alloc: Global, len: u32) -> Result<Vec<u8>, AllocError>
    ensures length { IfOk result (λ bytes. length bytes.items ≡ len) }
    ensures zeros { IfOk result (λ bytes. (n : ℕ) → n < len → slice_index bytes.items n ≡ 0) }
{
    vec![in alloc; 0; len as usize]
}
