//! The parts of DATA that a line may have many of: a pair of digits, alone or with a count of one digit.
ghost use Rattle.std.specs.Prelude.{◌≤◌, replicate, IfOk, IfSome};
ghost use Rattle.jv_script.specs.Reading.{Leaves, IsFirstPart};

use crate::hex_digits::byte_of_pair;
use std::alloc::AllocError;

/// Appends the bytes of the short parts at the front, without a search for the end of each. Returns the text from the
/// first other part on, or the last part.
pub(crate) fn push_short_parts<'a>(
    bytes: &mut Vec<u8>,
    text: &'a [u8],
) -> Result<&'a [u8], AllocError>
    ensures { IfOk result (λ rest. Leaves bytes.old.items text.now bytes.new.items rest.now) }
{
    let mut rest = text;
    while let Some((byte, count, after)) = short_part(rest) {
        bytes.resize(bytes.len() + count, byte)?;
        rest = after;
    }
    Ok(rest)
}

// The byte of the part at the front, how often it stands, and the text after the part's `+`.
fn short_part(text: &[u8]) -> Option<(u8, usize, &[u8])>
    ensures part { IfSome result (λ r. IsFirstPart text.now (replicate r.1 r.0) r.2.now) }
    ensures few { IfSome result (λ r. r.1 ≤ 9) }
{
    match text {
        [high, low, b'+', after @ ..] => Some((byte_of_pair(*high, *low)?, 1, after)),
        [high, low, b'x', count, b'+', after @ ..] if matches!(*count, b'1'..=b'9') => {
            Some((byte_of_pair(*high, *low)?, (*count - b'0') as usize, after))
        }
        _ => None,
    }
}
