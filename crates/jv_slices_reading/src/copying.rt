//! Bytes copied from a block to the positions that show them.
ghost use Rattle.std.specs.Prelude.{ℕ, [], ◌∷◌, length, All};
ghost use Rattle.jv_slices_reading.specs.Copies.{Fits, HasBytes, IsCopied};
ghost use Rattle.jv_slices_reading.specs.Overlaps.{overlaps_in};

use jv_model::BlockId;

/// Positions in a row of a part that show bytes in a row of a block.
#[derive(Clone, Copy, Debug, Drop, PartialEq, Eq)]
pub(crate) struct Overlap {
    /// The first position, counted from the part's first.
    pub(crate) start: u32,
    /// Where in the block its byte is.
    pub(crate) place: u32,
    /// How many positions.
    pub(crate) len: u32,
}

/// An overlap, and the block whose bytes it shows.
#[derive(Clone, Copy, Debug, Drop, PartialEq, Eq)]
pub(crate) struct Shown {
    pub(crate) block: BlockId,
    pub(crate) overlap: Overlap,
}

/// Copies the bytes of a block, `id`, to those of a few overlaps that are its own.
pub(crate) fn copy_few(bytes: &mut [u8], few: &[Shown], id: BlockId, block: &[u8])
    requires { All (Fits (length block.now) (length bytes.old)) (overlaps_in few.now id) }
    ensures { (byte : ℕ → ℕ) → All (HasBytes byte block.now) (overlaps_in few.now id) →
        IsCopied byte (overlaps_in few.now id) bytes.old bytes.new }
{
    for shown in few {
        if shown.block == id {
            copy_overlap(bytes, shown.overlap, block);
        }
    }
}

/// Copies the bytes of a block to all its overlaps with a part.
pub(crate) fn copy_overlaps(bytes: &mut [u8], overlaps: &[Overlap], block: &[u8])
    requires { All (Fits (length block.now) (length bytes.old)) overlaps.now }
    ensures { (byte : ℕ → ℕ) → All (HasBytes byte block.now) overlaps.now →
        IsCopied byte overlaps.now bytes.old bytes.new }
{
    for overlap in overlaps {
        copy_overlap(bytes, *overlap, block);
    }
}

fn copy_overlap(bytes: &mut [u8], overlap: Overlap, block: &[u8])
    requires { Fits (length block.now) (length bytes.old) overlap }
    ensures { (byte : ℕ → ℕ) → HasBytes byte block.now overlap →
        IsCopied byte (overlap ∷ []) bytes.old bytes.new }
{
    let start = overlap.start as usize;
    let place = overlap.place as usize;
    let len = overlap.len as usize;
    bytes[start..start + len].copy_from_slice(&block[place..place + len]);
}
