//! Prints DATA, the bytes of a read: `-` for none, or parts joined by `+`. What is printed of short parts waits in a
//! room of its own and goes behind the text together: a call for each takes longer than the part.
ghost use Rattle.std.specs.Prelude.{◌≡◌, ◌<◌, ◌≤◌, [], ◌++◌, false, true, length, IfOk, OnOk};
ghost use Rattle.std.specs.List.{flat_map};
ghost use Rattle.jv_model.specs.promise.script.Printed.{data_text, hex_pair, part_text, Repeated};
ghost use Rattle.jv_script.specs.declared.data_text.TheConstants.{WAITING};
ghost use Rattle.jv_script.specs.Printing.{begins_long, joint, PrintsTo};

use crate::hex_text::{hex_pair, push_digits};
use crate::repeats::{begins_long_repeat, long_repeat_length, plain_length};
use arrayvec::ArrayVec;
use jv_slices::push_decimal;
use std::alloc::AllocError;

/// The room for printed bytes that wait.
const WAITING: usize = 128;

/// The greatest number of plain bytes that are printed one by one.
const FEW_BYTES: usize = 8;

/// Printed bytes that wait for their place behind a text.
type Waiting = ArrayVec<u8, WAITING>;

#[tactic(auto, unfolding(jv_model::specs::promise::script::Printed::data_text))]
pub(crate) fn push_data(text: &mut Vec<u8>, bytes: &[u8]) -> Result<(), AllocError>
    ensures { OnOk result (text.new.items ≡ text.old.items ++ data_text bytes.now) }
{
    if bytes.is_empty() {
        text.push(b'-')?;
        return Ok(());
    }
    let mut waiting = ArrayVec::new();
    let mut rest = bytes;
    while !rest.is_empty() {
        rest = if begins_long_repeat(rest) {
            push_long(text, &mut waiting, rest)?
        } else {
            push_plain(text, &mut waiting, rest)?
        };
    }
    text.extend_from_slice(waiting.as_slice())
}

// Prints the long repeat at the front, and a `+` if there are more bytes. Returns those.
fn push_long<'a>(
    text: &mut Vec<u8>,
    waiting: &mut Waiting,
    bytes: &'a [u8],
) -> Result<&'a [u8], AllocError>
    requires { begins_long bytes.now ≡ true }
    ensures { IfOk result (λ rest. PrintsTo (text.old.items ++ waiting.old.items) bytes.now
        (text.new.items ++ waiting.new.items) rest.now) }
{
    let count = long_repeat_length(bytes);
    let rest = bytes.split_at(count).1;
    push_repeat(text, waiting, bytes[0], count, !rest.is_empty())?;
    Ok(rest)
}

// Prints the bytes before the first long repeat, and a `+` if there are more bytes. Returns those.
fn push_plain<'a>(
    text: &mut Vec<u8>,
    waiting: &mut Waiting,
    bytes: &'a [u8],
) -> Result<&'a [u8], AllocError>
    requires some { 0 < length bytes.now }
    requires plain { begins_long bytes.now ≡ false }
    ensures { IfOk result (λ rest. PrintsTo (text.old.items ++ waiting.old.items) bytes.now
        (text.new.items ++ waiting.new.items) rest.now) }
{
    let (plain, rest) = bytes.split_at(plain_length(bytes));
    push_bytes(text, waiting, plain)?;
    push_joint(text, waiting, !rest.is_empty())?;
    Ok(rest)
}

// Prints bytes as digits: a few one by one, more together.
fn push_bytes(text: &mut Vec<u8>, waiting: &mut Waiting, bytes: &[u8]) -> Result<(), AllocError>
    ensures { OnOk result (text.new.items ++ waiting.new.items
        ≡ (text.old.items ++ waiting.old.items) ++ flat_map hex_pair bytes.now) }
{
    if bytes.len() <= FEW_BYTES {
        return push_pairs(text, waiting, bytes);
    }
    push_waiting(text, waiting)?;
    push_digits(text, bytes)
}

fn push_pairs(text: &mut Vec<u8>, waiting: &mut Waiting, bytes: &[u8]) -> Result<(), AllocError>
    ensures { OnOk result (text.new.items ++ waiting.new.items
        ≡ (text.old.items ++ waiting.old.items) ++ flat_map hex_pair bytes.now) }
{
    for byte in bytes {
        push_piece(text, waiting, hex_pair(*byte))?;
    }
    Ok(())
}

fn push_joint(text: &mut Vec<u8>, waiting: &mut Waiting, is_wanted: bool) -> Result<(), AllocError>
    ensures { OnOk result (text.new.items ++ waiting.new.items
        ≡ (text.old.items ++ waiting.old.items) ++ joint is_wanted) }
{
    if is_wanted {
        push_piece(text, waiting, [b'+'])?;
    }
    Ok(())
}

// Prints a repeat, and a `+` if there are more bytes.
fn push_repeat(
    text: &mut Vec<u8>,
    waiting: &mut Waiting,
    byte: u8,
    count: usize,
    has_more: bool,
) -> Result<(), AllocError>
    ensures { OnOk result (text.new.items ++ waiting.new.items
        ≡ (text.old.items ++ waiting.old.items)
        ++ part_text (Repeated (record { byte = byte; count = count })) ++ joint has_more) }
{
    if count < 10 {
        return push_short_repeat(text, waiting, byte, count, has_more);
    }
    let [high, low] = hex_pair(byte);
    push_waiting(text, waiting)?;
    text.extend_from_slice(&[high, low, b'x'])?;
    push_decimal(text, count as u64)?;
    push_joint(text, waiting, has_more)
}

// Prints a repeat with a count of one digit, and a `+` if there are more bytes.
#[tactic(auto, using(std::proofs::lemmas::Fmt::decimal_digit, std::proofs::lemmas::List::append_assoc))]
fn push_short_repeat(
    text: &mut Vec<u8>,
    waiting: &mut Waiting,
    byte: u8,
    count: usize,
    has_more: bool,
) -> Result<(), AllocError>
    requires { count < 10 }
    ensures { OnOk result (text.new.items ++ waiting.new.items
        ≡ (text.old.items ++ waiting.old.items)
        ++ part_text (Repeated (record { byte = byte; count = count })) ++ joint has_more) }
{
    let [high, low] = hex_pair(byte);
    let digit = b'0' + count as u8;
    if has_more {
        push_piece(text, waiting, [high, low, b'x', digit, b'+'])
    } else {
        push_piece(text, waiting, [high, low, b'x', digit])
    }
}

// Puts a few printed bytes behind those that wait.
#[tactic(auto, using(std::proofs::lemmas::List::append_assoc))]
fn push_piece<const N: usize>(
    text: &mut Vec<u8>,
    waiting: &mut Waiting,
    piece: [u8; N],
) -> Result<(), AllocError>
    requires { N ≤ WAITING }
    ensures { OnOk result (text.new.items ++ waiting.new.items
        ≡ (text.old.items ++ waiting.old.items) ++ piece.entry) }
{
    if waiting.try_extend_from_slice(&piece).is_ok() {
        return Ok(());
    }
    push_waiting(text, waiting)?;
    waiting.try_extend_from_slice(&piece).unwrap();
    Ok(())
}

// Puts the bytes that wait behind the text.
fn push_waiting(text: &mut Vec<u8>, waiting: &mut Waiting) -> Result<(), AllocError>
    ensures text { OnOk result (text.new.items ≡ text.old.items ++ waiting.old.items) }
    ensures none { OnOk result (waiting.new.items ≡ []) }
{
    text.extend_from_slice(waiting.as_slice())?;
    waiting.clear();
    Ok(())
}
