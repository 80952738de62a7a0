//! The texts of lines that answer no operation.
ghost use Rattle.std.specs.Prelude.{◌≡◌, ◌++◌, IfOk, codes, decimal};
ghost use Rattle.jv_model.specs.promise.script.ReplyText.{with_feed};

use itoa::Buffer;
use jv_model::{Bytes, Sequence};
use std::alloc::{AllocError, Global};

/// A copy of a text.
pub(crate) fn text(alloc: Global, text: &[u8]) -> Result<Bytes, AllocError>
    ensures { IfOk result (λ bytes. bytes ≡ text.now) }
{
    Ok(Sequence::from_vec(text.to_vec(alloc)?))
}

/// What a tick prints: the moment in seconds.
pub(crate) fn moment_text(alloc: Global, seconds: u64) -> Result<Bytes, AllocError>
    ensures { IfOk result (λ bytes. bytes ≡ with_feed (codes "now " ++ decimal seconds)) }
{
    let mut bytes = b"now ".to_vec(alloc)?;
    bytes.extend_from_slice(Buffer::new().format(seconds).as_bytes())?;
    bytes.push(b'\n')?;
    Ok(Sequence::from_vec(bytes))
}
