//! Paths and the targets of symlinks, read.
ghost use Rattle.std.specs.Prelude.{◌≡◌, ◌&&◌, ◌++◌, true, IsSome, IfOk, OnOk, is_some};
ghost use Rattle.std.specs.List.{list_all, flat_map};
ghost use Rattle.jv_model.specs.promise.script.Grammar.{is_plain, is_escape, escape_bytes, unescaped, path_of, target_of};
ghost use Rattle.jv_model.specs.Lists.{first_item};
ghost use Rattle.jv_script.specs.Reading.{escapes_left, Reads, first_of};

use crate::bad_line::BadLine;
use crate::hex_digits::{byte_of, is_hex_digit};
use crate::word_cuts::cut;
use jv_model::{Bytes, Path, Sequence};
use std::alloc::{AllocError, Global};

/// A path as its bytes.
pub(crate) fn path(alloc: Global, text: &[u8]) -> Result<Path, BadLine>
    ensures { Reads result (path_of text.now) }
{
    if !is_path(text) {
        return Err(BadLine::Off);
    }
    unescaped(alloc, text).map_err(|_| BadLine::Memory)
}

/// The target of a symlink as its bytes.
pub(crate) fn target(alloc: Global, text: &[u8]) -> Result<Bytes, BadLine>
    ensures { Reads result (target_of text.now) }
{
    if !is_target(text) {
        return Err(BadLine::Off);
    }
    unescaped(alloc, text).map_err(|_| BadLine::Memory)
}

/// Whether a text is a path.
pub(crate) fn is_path(text: &[u8]) -> bool
    ensures { result ≡ is_some (path_of text.now) }
{
    match first_byte(text) {
        Some(byte) => byte == b'/',
        None => false,
    }
}

fn is_target(text: &[u8]) -> bool
    ensures { result ≡ is_some (target_of text.now) }
{
    first_byte(text).is_some()
}

// The first byte that a text with escapes spells, where it spells one.
fn first_byte(text: &[u8]) -> Option<u8>
    ensures { result ≡ first_of (unescaped text.now) }
{
    let (plain, escapes) = cut(text, b'%');
    if !is_sound(plain, escapes) {
        return None;
    }
    first_spelled(plain, escapes)
}

fn is_sound(plain: &[u8], escapes: Option<&[u8]>) -> bool
    ensures { result
        ≡ (list_all is_plain plain.now && list_all is_escape (escapes_left escapes.entry)) }
{
    all_plain(plain) && all_escapes(escapes)
}

fn first_spelled(plain: &[u8], escapes: Option<&[u8]>) -> Option<u8>
    requires { list_all is_escape (escapes_left escapes) ≡ true }
    ensures { result ≡ first_item (plain.now
        ++ flat_map escape_bytes (escapes_left escapes.entry)) }
{
    match plain {
        [first, ..] => Some(*first),
        [] => first_escaped(escapes),
    }
}

// The byte of the first escape.
fn first_escaped(escapes: Option<&[u8]>) -> Option<u8>
    requires { list_all is_escape (escapes_left escapes) ≡ true }
    ensures { result ≡ first_item (flat_map escape_bytes (escapes_left escapes.entry)) }
{
    let (escape, _) = cut(escapes?, b'%');
    match escape {
        [high, low, ..] => Some(byte_of(*high, *low)),
        _ => None,
    }
}

fn all_escapes(escapes: Option<&[u8]>) -> bool
    ensures { result ≡ list_all is_escape (escapes_left escapes.entry) }
{
    let mut rest = escapes;
    while let Some(text) = rest {
        let (escape, after) = cut(text, b'%');
        if !is_escape(escape) {
            return false;
        }
        rest = after;
    }
    true
}

fn is_escape(part: &[u8]) -> bool
    ensures { result ≡ is_escape part.now }
{
    match part {
        [high, low, plain @ ..] => {
            is_hex_digit(*high)
                && is_hex_digit(*low)
                && byte_of(*high, *low) > 0
                && all_plain(plain)
        }
        _ => false,
    }
}

fn all_plain(bytes: &[u8]) -> bool
    ensures { result ≡ list_all is_plain bytes.now }
{
    bytes.iter().all(|c| is_plain(*c))
}

fn is_plain(c: u8) -> bool
    ensures { result ≡ is_plain c }
{
    c >= 33 && c <= 126 && c != b'%'
}

fn unescaped(alloc: Global, text: &[u8]) -> Result<Bytes, AllocError>
    requires { IsSome (unescaped text.now) }
    ensures { IfOk result (λ bytes. unescaped text.now ≡ Some bytes) }
{
    let (plain, escapes) = cut(text, b'%');
    let mut bytes = plain.to_vec(alloc)?;
    let mut rest = escapes;
    while let Some(text) = rest {
        let (escape, after) = cut(text, b'%');
        push_escape(&mut bytes, escape)?;
        rest = after;
    }
    Ok(Sequence::from_vec(bytes))
}

fn push_escape(bytes: &mut Vec<u8>, escape: &[u8]) -> Result<(), AllocError>
    requires { is_escape escape.now ≡ true }
    ensures { OnOk result (bytes.new.items ≡ bytes.old.items ++ escape_bytes escape.now) }
{
    match escape {
        [high, low, plain @ ..] => {
            bytes.push(byte_of(*high, *low))?;
            bytes.extend_from_slice(plain)
        }
        _ => Ok(()),
    }
}
