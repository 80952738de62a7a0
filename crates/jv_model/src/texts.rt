//! Byte strings, which are sequences of bytes, and copies of bytes.
ghost use Rattle.std.specs.Prelude.{◌≡◌, IfOk};
ghost use Rattle.jv_model.specs.promise.Lists.{has_no_zero};

use crate::sequence::Sequence;
use std::alloc::{AllocError, Global};

/// Bytes of a file, a value or a printed line.
pub type Bytes = Sequence<u8>;

/// A file's name (1 to [`crate::MAX_NAME`] bytes, none of them `/` or 0), or an object's.
pub type Name = Sequence<u8>;

/// A path as its bytes, at most [`crate::MAX_PATH`] of them where it is walked.
pub type Path = Sequence<u8>;

/// Text in UTF-8, as a volume's name, a bucket or a place.
pub type Text = Sequence<u8>;

/// A copy of bytes. The only error is out of memory.
pub fn copied(alloc: Global, bytes: &[u8]) -> Result<Bytes, AllocError>
    ensures { IfOk result (λ copy. copy ≡ bytes.now) }
{
    Ok(Sequence::from_vec(bytes.to_vec(alloc)?))
}

/// Whether no byte is 0: paths and the targets of symlinks have none.
pub fn has_no_zero(bytes: &[u8]) -> bool
    ensures { result ≡ has_no_zero bytes.now }
{
    bytes.iter().all(|byte| *byte != 0)
}
