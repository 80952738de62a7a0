use thiserror::Error;

/// Pending positions in a row, inside one window.
#[derive(Clone, Copy, Debug, PartialEq, Eq)]
pub struct SegmentAt {
    pub inode: u64,
    /// The window: the position divided by [`jv_model::WINDOW`].
    pub window: u32,
    /// The first position, in the window.
    pub pos: u32,
    /// The number of positions, at most [`jv_model::WINDOW`].
    pub len: u32,
}

/// Why a write failed. The pending bytes are unchanged.
#[derive(Clone, Copy, Debug, PartialEq, Eq, Error)]
pub enum PendingFault {
    /// The bytes held and the bytes asked for pass the limit together.
    #[error("{held} bytes are pending, and {asked} more pass the limit")]
    Full { held: u64, asked: u64 },
    /// Out of memory.
    #[error("out of memory")]
    Memory,
}
