//! Records of a window's list, the pieces that a reader sees, and blocks.
use crate::basics::Moment;
use crate::sequence::Sequence;
use crate::texts::Name;

/// One contiguous write inside a window: the positions from `pos` on show the bytes of a slice from `off` on.
#[derive(Clone, Copy, Debug, PartialEq, Eq)]
pub struct Rec {
    /// The first position in the window, below [`crate::WINDOW`].
    pub pos: u32,
    /// The slice, or 0 for a part that reads zero.
    pub id: u64,
    /// The length of the slice in bytes.
    pub size: u32,
    /// Where in the slice the part begins.
    pub off: u32,
    /// The length of the part in bytes, from 1 on; it ends by the window's end.
    pub len: u32,
}

/// The records of a window, the latest last.
pub type List = Sequence<Rec>;

/// Where a position's byte comes from.
#[derive(Clone, Copy, Debug, PartialEq, Eq)]
pub enum Spot {
    /// It reads zero.
    Zero,
    /// It is the byte at `at` of a slice of `size` bytes.
    Slice { id: u64, size: u32, at: u32 },
}

/// Positions in a row that one record shows, or none.
#[derive(Clone, Copy, Debug, PartialEq, Eq)]
pub struct Piece {
    /// The first position in the window.
    pub from: u32,
    /// How many positions.
    pub len: u32,
    /// Where the byte of the first position comes from.
    pub spot: Spot,
}

/// What a reader sees of a window, in order.
pub type Pieces = Sequence<Piece>;

/// A block of a slice.
#[derive(Clone, Copy, Debug, PartialEq, Eq)]
pub struct BlockId {
    /// The slice's number.
    pub id: u64,
    /// Which of the slice's blocks, from 0.
    pub index: u32,
    /// The block's length in bytes.
    pub size: u32,
}

/// Blocks, as a reader needs them one after another.
pub type BlockKeys = Sequence<BlockId>;

/// An object as a listing shows it.
#[derive(Debug, Drop, PartialEq, Eq)]
pub struct Seen {
    pub name: Name,
    /// The object's length in bytes.
    pub size: u64,
    /// The moment at which it was made ready to be published, in seconds since 1970.
    pub at: Moment,
}

/// Objects that a depot lists, in the order of their names.
pub type SeenList = Sequence<Seen>;

/// Names of blocks that a shelf lists, in their order.
pub type NameList = Sequence<Name>;

/// Entries of a directory: names with the inodes that they name.
pub type EntryList = Sequence<(Name, u64)>;
