//! Why a text isn't read as a line.
use thiserror::Error;

/// Why a text isn't read as a line.
#[derive(Clone, Copy, Debug, PartialEq, Eq, Error)]
pub enum BadLine {
    /// The text is malformed.
    #[error("not a script line")]
    Off,
    /// Out of memory for a path, a target or the bytes of a write; the text is well-formed.
    #[error("out of memory")]
    Memory,
}
