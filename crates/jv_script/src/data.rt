//! Reads DATA, the bytes of a write: `-` for none, or parts joined by `+`.
ghost use Rattle.std.specs.Prelude.{◌≡◌, true, is_some, IfOk, option_map};
ghost use Rattle.jv_model.specs.promise.script.Spelling.{bytes_of_digits};
ghost use Rattle.jv_model.specs.promise.script.Printed.{Repeated};
ghost use Rattle.jv_model.specs.promise.script.Grammar.{is_pairs, repeated_of, part_of, part_length, bytes_of_parts, data_of};
ghost use Rattle.jv_model.specs.promise.Lists.{parted};
ghost use Rattle.jv_script.specs.Reading.{has_x, pairs_of, Reads, Appends};

use crate::bad_line::BadLine;
use crate::fields::number;
use crate::hex_digits::{byte_of_pair, decode_into, is_pairs};
use crate::short_parts::push_short_parts;
use crate::word_cuts::cut;
use jv_model::{Bytes, MAX_DATA, Sequence};
use std::alloc::{AllocError, Global};

/// The least number of digits that are read faster in blocks than pair by pair.
const MANY_DIGITS: usize = 32;

/// Reads the bytes of a write, as a line or an answer spells them.
///
/// # Errors
///
/// - `Off` where the text isn't DATA, or spells more than `MAX_DATA` bytes; reported even where memory runs out before
///   all of the text is read.
/// - `Memory` where it is DATA, and no memory is left for its bytes.
pub fn read_data(alloc: Global, text: &[u8]) -> Result<Bytes, BadLine>
    ensures { Reads result (data_of text.now) }
{
    if text == b"-".as_slice() {
        return Ok(Sequence::new(alloc));
    }
    if is_pairs(text) {
        return plain(alloc, text);
    }
    match joined(alloc, text) {
        Ok(bytes) => bytes.ok_or(BadLine::Off),
        Err(_) => Err(out_of_memory(text)),
    }
}

// Reads DATA that is one plain part, as that of most writes is.
fn plain(alloc: Global, digits: &[u8]) -> Result<Bytes, BadLine>
    requires { is_pairs digits.now ≡ true }
    ensures { Reads result (bytes_of_parts (parted 43 digits.now)) }
{
    let count = digits.len() / 2;
    if count as u64 > MAX_DATA {
        return Err(BadLine::Off);
    }
    match decoded(alloc, digits) {
        Ok(bytes) => Ok(Sequence::from_vec(bytes)),
        Err(_) => Err(out_of_memory(digits)),
    }
}

// The bytes of pairs of digits.
fn decoded(alloc: Global, digits: &[u8]) -> Result<Vec<u8>, AllocError>
    requires { is_pairs digits.now ≡ true }
    ensures { IfOk result (λ bytes. bytes.items ≡ bytes_of_digits digits.now) }
{
    let mut bytes = vec![in alloc; 0; digits.len() / 2]?;
    decode_into(digits, &mut bytes[0..]);
    Ok(bytes)
}

// Why the parts weren't read where memory ran out: the text may be malformed behind the place that was reached.
fn out_of_memory(text: &[u8]) -> BadLine
    ensures { Reads (Err result) (bytes_of_parts (parted 43 text.now)) }
{
    if are_parts(text) {
        BadLine::Memory
    } else {
        BadLine::Off
    }
}

// Whether the text is parts joined by `+` that have at most MAX_DATA bytes together.
fn are_parts(text: &[u8]) -> bool
    ensures { result ≡ is_some (bytes_of_parts (parted 43 text.now)) }
{
    let mut total = 0;
    let mut rest = Some(text);
    while let Some(parts) = rest {
        let (part, after) = cut(parts, b'+');
        let Some(length) = part_length(part) else {
            return false;
        };
        if length > MAX_DATA - total {
            return false;
        }
        total += length;
        rest = after;
    }
    true
}

fn part_length(part: &[u8]) -> Option<u64>
    ensures { result ≡ option_map part_length (part_of part.now) }
{
    if is_pairs(part) {
        return Some(part.len() as u64 / 2);
    }
    let (_, count) = repeated(part)?;
    Some(count)
}

// The byte of a part `HHxN`, and how often it stands.
#[tactic(auto, unfolding(jv_model::specs::promise::script::Grammar::repeated_of))]
fn repeated(part: &[u8]) -> Option<(u8, u64)>
    ensures { option_map (λ r. Repeated (record { byte = r.0; count = r.1 })) result
        ≡ repeated_of part.now }
{
    let [high, low, x, digits @ ..] = part else {
        return None;
    };
    let byte = byte_of_pair(*high, *low)?;
    let count = number(digits)?;
    if *x != b'x' || count == 0 {
        return None;
    }
    Some((byte, count))
}

// The bytes of parts joined by `+`. None where the text is no parts, or they have more than MAX_DATA bytes together.
#[inline(never)]
fn joined(alloc: Global, text: &[u8]) -> Result<Option<Bytes>, AllocError>
    ensures { IfOk result (λ bytes. bytes ≡ bytes_of_parts (parted 43 text.now)) }
{
    let mut bytes = Vec::with_capacity(alloc, text.len() / 2)?;
    let mut rest = Some(text);
    while let Some(parts) = rest {
        let parts = push_short_parts(&mut bytes, parts)?;
        let (part, after) = cut(parts, b'+');
        if !push_part(&mut bytes, part)? {
            return Ok(None);
        }
        rest = after;
    }
    if bytes.len() as u64 > MAX_DATA {
        return Ok(None);
    }
    Ok(Some(Sequence::from_vec(bytes)))
}

// Whether the third byte is an `x`, as it is in a part `HHxN` alone.
fn has_x(part: &[u8]) -> bool
    ensures { result ≡ has_x part.now }
{
    match part {
        [_, _, x, ..] => *x == b'x',
        _ => false,
    }
}

// Appends the bytes of a part. False where the text is no part, or a count makes the bytes more than MAX_DATA.
fn push_part(bytes: &mut Vec<u8>, part: &[u8]) -> Result<bool, AllocError>
    ensures { IfOk result
        (λ is_part. Appends is_part bytes.old.items (part_of part.now) bytes.new.items) }
{
    if has_x(part) {
        return push_repeated(bytes, part);
    }
    if part.len() < MANY_DIGITS {
        return push_few_pairs(bytes, part);
    }
    push_pairs(bytes, part)
}

fn push_repeated(bytes: &mut Vec<u8>, part: &[u8]) -> Result<bool, AllocError>
    ensures { IfOk result
        (λ is_part. Appends is_part bytes.old.items (repeated_of part.now) bytes.new.items) }
{
    let Some((byte, count)) = repeated(part) else {
        return Ok(false);
    };
    if count > MAX_DATA.saturating_sub(bytes.len() as u64) {
        return Ok(false);
    }
    bytes.resize(bytes.len() + count as usize, byte)?;
    Ok(true)
}

// One pair after the other.
fn push_few_pairs(bytes: &mut Vec<u8>, digits: &[u8]) -> Result<bool, AllocError>
    ensures { IfOk result
        (λ are_pairs. Appends are_pairs bytes.old.items (pairs_of digits.now) bytes.new.items) }
{
    if digits.is_empty() {
        return Ok(false);
    }
    let mut rest = digits;
    while let [high, low, after @ ..] = rest {
        let Some(byte) = byte_of_pair(*high, *low) else {
            return Ok(false);
        };
        bytes.push(byte)?;
        rest = after;
    }
    Ok(rest.is_empty())
}

// Many pairs at a time.
fn push_pairs(bytes: &mut Vec<u8>, digits: &[u8]) -> Result<bool, AllocError>
    ensures { IfOk result
        (λ are_pairs. Appends are_pairs bytes.old.items (pairs_of digits.now) bytes.new.items) }
{
    if !is_pairs(digits) {
        return Ok(false);
    }
    let start = bytes.len();
    let end = start.checked_add(digits.len() / 2).ok_or(AllocError)?;
    bytes.resize(end, 0)?;
    decode_into(digits, &mut bytes[start..]);
    Ok(true)
}
