//! Lines of a script, and the text of answers.
use jv_model::tables::ROWS_VERSION;
use jv_model::{Bytes, Down, Line, MIN_BLOCK, Op, Reply, Sequence, Setting, copied};
use jv_script::{BadLine, print_reply, read_line};
use std::alloc::{AllocError, Global};

/// Lines of several operations.
const LINES: [&str; 12] = [
    "A mount",
    "A create /directory/file 0644",
    "A open /directory/file",
    "A write 1 4096 000102030405060708090a0b0c0d0e0f",
    "A read 1 0 65536",
    "A flush 1",
    "A close 1",
    "B rename /directory/file /directory/other noreplace",
    "B symlink target%20of%20it /link",
    "B begin readdir /directory",
    "B run",
    "tick 30",
];

/// What a number is multiplied by, so that bytes don't repeat.
const SPREAD: u32 = 2_654_435_769;

/// What a number is multiplied by then, so that what is made of it can't be foretold from those before it.
const SPREAD_AGAIN: u32 = 2_246_822_507;

/// Hexadecimal digits.
const DIGITS: [u8; 16] = *b"0123456789abcdef";

/// Reads `count` lines. Returns the number of those that are read.
pub fn lines_read(alloc: Global, count: u32) -> Result<u64, Down> {
    let mut read = 0u64;
    for number in 0..count {
        let text = LINES[(number % 12) as usize];
        if read_line(alloc, text.as_bytes()).is_ok() {
            read = read.saturating_add(1);
        }
    }
    Ok(read)
}

/// What the parts of a line's data are.
#[derive(Clone, Copy)]
enum Parts {
    Single,
    Double,
    Triple,
    Once,
    Counted,
    Alternating,
    Runs,
    Lengths,
    Chance,
    Sparse,
    Tens,
    Mixed,
}

/// A number made of another one, with nothing regular in the order of those of numbers in turn.
fn scattered(number: u32) -> u32 {
    let spread = number.wrapping_mul(SPREAD);
    let spread = (spread ^ spread / 32_768).wrapping_mul(SPREAD_AGAIN);
    spread ^ spread / 8_192
}

/// The two digits of a number's low byte.
fn push_byte(text: &mut Vec<u8>, number: u32) -> Result<(), AllocError> {
    text.push(DIGITS[(number / 16 % 16) as usize])?;
    text.push(DIGITS[(number % 16) as usize])?;
    Ok(())
}

/// A line that writes `count` bytes, as digits.
fn spelled(alloc: Global, count: u32) -> Result<Vec<u8>, AllocError> {
    let mut text = Vec::new(alloc);
    text.extend_from_slice(b"A write 1 0 ")?;
    for number in 0..count {
        push_byte(&mut text, number.wrapping_mul(SPREAD) / 65_536)?;
    }
    Ok(text)
}

/// An `x` and a count of one digit.
fn push_count(text: &mut Vec<u8>, count: u32) -> Result<(), AllocError> {
    text.push(b'x')?;
    text.push(DIGITS[(count % 10) as usize])?;
    Ok(())
}

/// A part: one byte, two bytes, three, one byte once, one byte one to nine times, one to four times; or by chance one
/// byte or one byte once, one byte or, of sixteen, one four times, one byte or one byte ten times, or one byte, two, or
/// one byte one to nine times. Or two parts: one byte and another once, or one byte four times and another.
fn push_part(text: &mut Vec<u8>, parts: Parts, number: u32) -> Result<(), AllocError> {
    push_byte(text, number)?;
    match (parts, number / 256 % 3) {
        (Parts::Double, _) | (Parts::Mixed, 1) => push_byte(text, number / 16),
        (Parts::Triple, _) => {
            push_byte(text, number / 16)?;
            push_byte(text, number / 4)
        }
        (Parts::Once, _) => push_count(text, 1),
        (Parts::Alternating, _) => {
            text.push(b'+')?;
            push_byte(text, number / 16)?;
            push_count(text, 1)
        }
        (Parts::Runs, _) => {
            push_count(text, 4)?;
            text.push(b'+')?;
            push_byte(text, number.wrapping_add(1))
        }
        (Parts::Counted, _) | (Parts::Mixed, 2) => push_count(text, 1 + number / 1024 % 9),
        (Parts::Lengths, _) => push_count(text, 1 + number / 1024 % 4),
        (Parts::Chance, _) if number / 1024 % 2 == 0 => push_count(text, 1),
        (Parts::Sparse, _) if number / 1024 % 16 == 0 => push_count(text, 4),
        (Parts::Tens, _) if number / 1024 % 2 == 0 => text.extend_from_slice(b"x10"),
        _ => Ok(()),
    }
}

/// A line that writes bytes in `count` parts.
fn spelled_in_parts(alloc: Global, parts: Parts, count: u32) -> Result<Vec<u8>, AllocError> {
    let mut text = Vec::new(alloc);
    text.extend_from_slice(b"A write 1 0 ")?;
    for number in 0..count {
        if number > 0 {
            text.push(b'+')?;
        }
        push_part(&mut text, parts, scattered(number))?;
    }
    Ok(text)
}

/// What parts a word names.
fn parts_named(kind: &str) -> Option<Parts> {
    match kind {
        "single" => Some(Parts::Single),
        "double" => Some(Parts::Double),
        "triple" => Some(Parts::Triple),
        "once" => Some(Parts::Once),
        "alternating" => Some(Parts::Alternating),
        "runs" => Some(Parts::Runs),
        "lengths" => Some(Parts::Lengths),
        "chance" => Some(Parts::Chance),
        "sparse" => Some(Parts::Sparse),
        "tens" => Some(Parts::Tens),
        "counted" => Some(Parts::Counted),
        "mixed" => Some(Parts::Mixed),
        _ => None,
    }
}

/// The bytes that a line writes. None where it is no line of a write.
fn data_of(alloc: Global, text: &[u8]) -> Result<Option<Bytes>, Down> {
    match read_line(alloc, text) {
        Ok(Line::Do(_, Op::Write { bytes, .. })) => Ok(Some(bytes)),
        Err(BadLine::Memory) => Err(Down::Memory),
        _ => Ok(None),
    }
}

/// A line's bytes, `count` of them. None where they are more than a line may have.
fn data(alloc: Global, count: u32) -> Result<Option<Bytes>, Down> {
    let text = spelled(alloc, count)?;
    data_of(alloc, &text)
}

/// Spells a line that writes bytes in `count` parts of a kind. Returns the length of the line, or None where there is
/// no such kind.
pub fn parts_spelled(alloc: Global, kind: &str, count: u32) -> Result<Option<u64>, Down> {
    let Some(parts) = parts_named(kind) else {
        return Ok(None);
    };
    let text = spelled_in_parts(alloc, parts, count)?;
    Ok(Some(text.len() as u64))
}

/// Spells a line that writes bytes in `count` parts of a kind, and reads it. Returns the number of bytes, or None where
/// there is no such kind.
pub fn parts_read(alloc: Global, kind: &str, count: u32) -> Result<Option<u64>, Down> {
    let Some(parts) = parts_named(kind) else {
        return Ok(None);
    };
    let text = spelled_in_parts(alloc, parts, count)?;
    match data_of(alloc, &text)? {
        Some(bytes) => Ok(Some(bytes.len() as u64)),
        None => Ok(Some(0)),
    }
}

/// Spells a line that writes bytes in `count` parts of a kind, reads it, and prints the answer that has the bytes
/// again. Returns the length of the printed text, or None where there is no such kind.
pub fn parts_printed(alloc: Global, kind: &str, count: u32) -> Result<Option<u64>, Down> {
    let Some(parts) = parts_named(kind) else {
        return Ok(None);
    };
    let text = spelled_in_parts(alloc, parts, count)?;
    let bytes = data_of(alloc, &text)?.unwrap_or(Sequence::new(alloc));
    let printed = print_reply(alloc, &setting(alloc)?, &Reply::Data(bytes))?;
    Ok(Some(printed.len() as u64))
}

fn setting(alloc: Global) -> Result<Setting, AllocError> {
    Ok(Setting {
        version: ROWS_VERSION,
        block: MIN_BLOCK,
        trash_days: 1,
        capacity: 0,
        inodes: 0,
        hash: 0,
        name: copied(alloc, b"test")?,
        bucket: copied(alloc, b"/tmp")?,
    })
}

/// Spells a line that writes `count` bytes. Returns the length of the line.
pub fn data_spelled(alloc: Global, count: u32) -> Result<u64, Down> {
    Ok(spelled(alloc, count)?.len() as u64)
}

/// Spells a line that writes `count` bytes, and reads it. Returns the number of bytes.
pub fn data_read(alloc: Global, count: u32) -> Result<u64, Down> {
    match data(alloc, count)? {
        Some(bytes) => Ok(bytes.len() as u64),
        None => Ok(0),
    }
}

/// Spells a line that writes `count` bytes, reads it, and prints the answer that has the bytes again. Returns the
/// length of the printed text.
pub fn data_printed(alloc: Global, count: u32) -> Result<u64, Down> {
    let bytes = data(alloc, count)?.unwrap_or(Sequence::new(alloc));
    let text = print_reply(alloc, &setting(alloc)?, &Reply::Data(bytes))?;
    Ok(text.len() as u64)
}
