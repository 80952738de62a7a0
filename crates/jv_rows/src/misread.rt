//! Why bytes weren't read as a row.
ghost use Rattle.std.specs.Prelude.{◌≡◌};
ghost use Rattle.jv_rows.specs.declared.misread.Misread.TheVariants.{Memory};

use std::alloc::{AllocError, AllocFailed};

/// Why bytes weren't read as a row.
#[derive(Clone, Copy, Debug, PartialEq, Eq)]
pub enum Misread {
    /// The bytes are malformed: no row of their table has them.
    Malformed,
    /// Out of memory.
    Memory,
}

impl From<AllocError> for Misread {
    ghost from_gives = { λ _ e. e ≡ Memory };

    fn from(_e: AllocError) -> Misread {
        Misread::Memory
    }
}

impl<T: Drop> From<AllocFailed<T>> for Misread {
    ghost from_gives = { λ _ e. e ≡ Memory };

    fn from(_e: AllocFailed<T>) -> Misread {
        Misread::Memory
    }
}
