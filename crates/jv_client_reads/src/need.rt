//! What a reading asks for.
use jv_model::BlockId;

/// What a reading needs next.
#[derive(Clone, Copy, Debug, PartialEq, Eq)]
pub enum Need {
    /// A look at this window of the file.
    Look(u32),
    /// This block.
    Block(BlockId),
    /// Nothing: all bytes are there.
    Nothing,
}
