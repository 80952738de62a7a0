//! Names, paths and targets, attributes and the names of blocks, printed.
ghost use Rattle.std.specs.Prelude.{◌≡◌, ◌∷◌, ◌+◌, ◌/◌, ◌%◌, ◌++◌, OnOk};
ghost use Rattle.std.specs.List.{flat_map};
ghost use Rattle.jv_model.specs.promise.script.ReplyText.{is_kept_in_name, is_kept_in_path, escaped_byte, name_text, path_text, kind_letter, mode_digits, attr_words, entry_text, entries_text, uploaded_text};

use crate::numbers::{push_number, push_numbers};
use jv_model::{Attr, BlockId, FileKind, Name, Setting};
use jv_slices::{block_name, push_decimal, upper_pair};
use std::alloc::{AllocError, Global};

#[tactic(auto, unfolding(jv_model::specs::promise::script::ReplyText::path_text))]
pub(crate) fn push_path(text: &mut Vec<u8>, path: &[u8]) -> Result<(), AllocError>
    ensures { OnOk result (text.new.items ≡ text.old.items ++ path_text path.now) }
{
    for byte in path {
        push_escaped(text, is_kept_in_path(*byte), *byte)?;
    }
    Ok(())
}

#[tactic(auto, unfolding(jv_model::specs::promise::script::ReplyText::name_text))]
fn push_name(text: &mut Vec<u8>, name: &[u8]) -> Result<(), AllocError>
    ensures { OnOk result (text.new.items ≡ text.old.items ++ name_text name.now) }
{
    for byte in name {
        push_escaped(text, is_kept_in_name(*byte), *byte)?;
    }
    Ok(())
}

fn push_escaped(text: &mut Vec<u8>, is_kept: bool, byte: u8) -> Result<(), AllocError>
    ensures { OnOk result (text.new.items ≡ text.old.items ++ escaped_byte is_kept byte) }
{
    if is_kept {
        return text.push(byte).map_err(AllocError::from);
    }
    text.push(b'%')?;
    text.extend_from_slice(&upper_pair(byte))
}

fn is_kept_in_path(byte: u8) -> bool
    ensures { result ≡ is_kept_in_path byte }
{
    is_kept_in_name(byte) || byte == b'/'
}

fn is_kept_in_name(byte: u8) -> bool
    ensures { result ≡ is_kept_in_name byte }
{
    byte.is_ascii_alphanumeric() || byte == b'.' || byte == b'_' || byte == b'-' || byte == b'~'
}

pub(crate) fn push_entries(text: &mut Vec<u8>, entries: &[(Name, u64)]) -> Result<(), AllocError>
    ensures { OnOk result (text.new.items ≡ text.old.items ++ entries_text entries.now) }
{
    let Some((first, others)) = entries.split_first() else {
        return text.push(b'-').map_err(AllocError::from);
    };
    push_entry(text, first)?;
    push_more_entries(text, others)
}

// Each entry with a space before it.
fn push_more_entries(text: &mut Vec<u8>, entries: &[(Name, u64)]) -> Result<(), AllocError>
    ensures { OnOk result (text.new.items
        ≡ text.old.items ++ flat_map (λ entry. 32 ∷ entry_text entry) entries.now) }
{
    for entry in entries {
        text.push(b' ')?;
        push_entry(text, entry)?;
    }
    Ok(())
}

fn push_entry(text: &mut Vec<u8>, entry: &(Name, u64)) -> Result<(), AllocError>
    ensures { OnOk result (text.new.items ≡ text.old.items ++ entry_text entry.now) }
{
    push_name(text, entry.0.as_slice())?;
    text.push(b':')?;
    push_decimal(text, entry.1)
}

#[tactic(auto, unfolding(jv_model::specs::promise::script::ReplyText::attr_words))]
pub(crate) fn push_attr(text: &mut Vec<u8>, attr: &Attr) -> Result<(), AllocError>
    ensures { OnOk result (text.new.items ≡ text.old.items ++ attr_words attr.now) }
{
    push_number(text, attr.inode)?;
    push_kind_and_mode(text, attr.kind, attr.mode)?;
    push_numbers(
        text,
        &[
            u64::from(attr.nlink),
            u64::from(attr.uid),
            u64::from(attr.gid),
            attr.size,
            attr.mtime,
            attr.ctime,
        ],
    )
}

fn push_kind_and_mode(text: &mut Vec<u8>, kind: FileKind, mode: u16) -> Result<(), AllocError>
    ensures { OnOk result (text.new.items
        ≡ text.old.items ++ (32 ∷ kind_letter kind ∷ 32 ∷ mode_digits mode)) }
{
    text.extend_from_slice(&[b' ', kind_letter(kind), b' '])?;
    text.extend_from_slice(&mode_digits(mode))
}

/// The last four octal digits of a mode, in ASCII.
pub fn mode_digits(mode: u16) -> [u8; 4]
    ensures { result ≡ mode_digits mode }
{
    [
        octal_digit(mode / 512),
        octal_digit(mode / 64),
        octal_digit(mode / 8),
        octal_digit(mode),
    ]
}

fn kind_letter(kind: FileKind) -> u8
    ensures { result ≡ kind_letter kind }
{
    match kind {
        FileKind::File => b'f',
        FileKind::Directory => b'd',
        FileKind::Symlink => b'l',
    }
}

/// The last octal digit of a number.
fn octal_digit(number: u16) -> u8
    ensures { result ≡ 48 + number % 8 }
{
    b'0' + (number % 8) as u8
}

#[tactic(auto, unfolding(jv_model::specs::promise::script::ReplyText::uploaded_text))]
pub(crate) fn push_uploaded(
    alloc: Global,
    text: &mut Vec<u8>,
    setting: &Setting,
    block: &Option<BlockId>,
) -> Result<(), AllocError>
    ensures { OnOk result (text.new.items ≡ text.old.items ++ uploaded_text setting.now block.now) }
{
    match block {
        None => text.push(b'-').map_err(AllocError::from),
        Some(block) => {
            let name = block_name(alloc, setting, block.id, block.index, block.size)?;
            text.extend_from_slice(name.as_slice())
        }
    }
}
