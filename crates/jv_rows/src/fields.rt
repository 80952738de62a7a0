//! Fields at the front of bytes. Numbers are big-endian.
ghost use Rattle.jv_model.specs.promise.rows.RowFields.{byte_at, half_at, word_at, long_at, front_at};
ghost use Rattle.jv_rows.specs.Reads.{Takes};

use crate::misread::Misread;

/// A number of 8 bits, and the bytes after it.
pub(crate) fn take_byte(bytes: &[u8]) -> Result<(u8, &[u8]), Misread>
    ensures { Takes (λ x. (x.0, x.1.now)) result (byte_at bytes.now) }
{
    match bytes.split_first() {
        Some((first, rest)) => Ok((*first, rest)),
        None => Err(Misread::Malformed),
    }
}

/// A number of 16 bits, and the bytes after it.
pub(crate) fn take_half(bytes: &[u8]) -> Result<(u16, &[u8]), Misread>
    ensures { Takes (λ x. (x.0, x.1.now)) result (half_at bytes.now) }
{
    if bytes.len() < 2 {
        return Err(Misread::Malformed);
    }
    let (front, rest) = bytes.split_at(2);
    Ok((u16::from_be_bytes([front[0], front[1]]), rest))
}

/// A number of 32 bits, and the bytes after it.
pub(crate) fn take_word(bytes: &[u8]) -> Result<(u32, &[u8]), Misread>
    ensures { Takes (λ x. (x.0, x.1.now)) result (word_at bytes.now) }
{
    if bytes.len() < 4 {
        return Err(Misread::Malformed);
    }
    let (front, rest) = bytes.split_at(4);
    let number = u32::from_be_bytes([front[0], front[1], front[2], front[3]]);
    Ok((number, rest))
}

/// A number of 64 bits, and the bytes after it.
pub(crate) fn take_long(bytes: &[u8]) -> Result<(u64, &[u8]), Misread>
    ensures { Takes (λ x. (x.0, x.1.now)) result (long_at bytes.now) }
{
    if bytes.len() < 8 {
        return Err(Misread::Malformed);
    }
    let (front, rest) = bytes.split_at(8);
    let number = u64::from_be_bytes([
        front[0], front[1], front[2], front[3], front[4], front[5], front[6], front[7],
    ]);
    Ok((number, rest))
}

/// The first `count` bytes, and those after them.
pub(crate) fn take_front(count: usize, bytes: &[u8]) -> Result<(&[u8], &[u8]), Misread>
    ensures { Takes (λ x. (x.0.now, x.1.now)) result (front_at count bytes.now) }
{
    if bytes.len() < count {
        return Err(Misread::Malformed);
    }
    Ok(bytes.split_at(count))
}
