//! Operations, read from their words.
ghost use Rattle.std.specs.Prelude.{◌≡◌, bytes_eq};
ghost use Rattle.jv_model.specs.promise.script.Spelling.{number_of};
ghost use Rattle.jv_model.specs.promise.script.Grammar.{operation_of, operation_of_none, operation_of_one, operation_of_path, operation_of_two, operation_of_two_names, operation_of_three, symlink_of, two_paths_of, path_and_mode_of, truncate_of, utimes_of, compact_of, read_of, write_of, chown_of, how_of, rename_of, copy_of};
ghost use Rattle.jv_model.specs.promise.Optional.{provided};
ghost use Rattle.jv_script.specs.Reading.{Reads, words_left};

use crate::bad_line::BadLine;
use crate::data::read_data;
use crate::escapes::{is_path, path, target};
use crate::fields::{mode, number, number_up_to, read_length, short_number};
use crate::word_cuts::next_word;
use jv_model::{How, LAST_MOMENT, Op, Path};
use std::alloc::Global;

/// The operation of a name and of the words that follow it.
#[tactic(auto, unfolding(jv_model::specs::promise::script::Grammar::operation_of))]
pub(crate) fn operation(alloc: Global, name: &[u8], words: Option<&[u8]>) -> Result<Op, BadLine>
    ensures { Reads result (operation_of name.now (words_left words.entry)) }
{
    let Some((first, rest)) = next_word(words) else {
        return operation_of_none(name).ok_or(BadLine::Off);
    };
    let Some((second, rest)) = next_word(rest) else {
        return operation_of_one(alloc, name, first);
    };
    let Some((third, rest)) = next_word(rest) else {
        return operation_of_two(alloc, name, first, second);
    };
    let Some((fourth, rest)) = next_word(rest) else {
        return operation_of_three(alloc, name, first, second, third);
    };
    let Some((fifth, rest)) = next_word(rest) else {
        return Err(BadLine::Off);
    };
    if next_word(rest).is_some() || name != b"copy".as_slice() {
        return Err(BadLine::Off);
    }
    copy(first, second, third, fourth, fifth).ok_or(BadLine::Off)
}

#[tactic(auto, unfolding(jv_model::specs::promise::script::Grammar::operation_of_none))]
fn operation_of_none(name: &[u8]) -> Option<Op>
    ensures { result ≡ operation_of_none name.now }
{
    if name == b"mount".as_slice() {
        return Some(Op::Mount { writeback: false });
    }
    if name == b"umount".as_slice() {
        return Some(Op::Umount);
    }
    if name == b"beat".as_slice() {
        return Some(Op::Beat);
    }
    if name == b"statfs".as_slice() {
        return Some(Op::Statfs);
    }
    if name == b"clean".as_slice() {
        return Some(Op::Clean);
    }
    if name == b"gc".as_slice() {
        return Some(Op::Gc { delete: false });
    }
    if name == b"upload".as_slice() {
        return Some(Op::Upload);
    }
    if name == b"stats".as_slice() {
        return Some(Op::Stats);
    }
    None
}

#[tactic(auto, unfolding(jv_model::specs::promise::script::Grammar::operation_of_one))]
fn operation_of_one(alloc: Global, name: &[u8], word: &[u8]) -> Result<Op, BadLine>
    ensures { Reads result (operation_of_one name.now word.now) }
{
    if name == b"mount".as_slice() {
        return with_keyword(word, b"writeback", Op::Mount { writeback: true });
    }
    if name == b"gc".as_slice() {
        return with_keyword(word, b"delete", Op::Gc { delete: true });
    }
    if name == b"fstat".as_slice() {
        let handle = handle(word)?;
        return Ok(Op::Fstat { handle });
    }
    if name == b"close".as_slice() {
        let handle = handle(word)?;
        return Ok(Op::Close { handle });
    }
    if name == b"flush".as_slice() {
        let handle = handle(word)?;
        return Ok(Op::Flush { handle });
    }
    operation_of_path(alloc, name, word)
}

fn with_keyword(word: &[u8], keyword: &[u8], op: Op) -> Result<Op, BadLine>
    ensures { Reads result (provided (bytes_eq word.now keyword.now) op) }
{
    if word == keyword {
        return Ok(op);
    }
    Err(BadLine::Off)
}

fn handle(word: &[u8]) -> Result<u64, BadLine>
    ensures { Reads result (number_of word.now) }
{
    number(word).ok_or(BadLine::Off)
}

#[tactic(auto, unfolding(jv_model::specs::promise::script::Grammar::operation_of_path))]
fn operation_of_path(alloc: Global, name: &[u8], word: &[u8]) -> Result<Op, BadLine>
    ensures { Reads result (operation_of_path name.now word.now) }
{
    if name == b"lookup".as_slice() {
        let path = path(alloc, word)?;
        return Ok(Op::Lookup { path });
    }
    if name == b"stat".as_slice() {
        let path = path(alloc, word)?;
        return Ok(Op::Stat { path });
    }
    if name == b"lstat".as_slice() {
        let path = path(alloc, word)?;
        return Ok(Op::Lstat { path });
    }
    if name == b"open".as_slice() {
        let path = path(alloc, word)?;
        return Ok(Op::Open { path });
    }
    if name == b"readdir".as_slice() {
        let path = path(alloc, word)?;
        return Ok(Op::Readdir { path });
    }
    if name == b"readlink".as_slice() {
        let path = path(alloc, word)?;
        return Ok(Op::Readlink { path });
    }
    if name == b"unlink".as_slice() {
        let path = path(alloc, word)?;
        return Ok(Op::Unlink { path });
    }
    if name == b"rmdir".as_slice() {
        let path = path(alloc, word)?;
        return Ok(Op::Rmdir { path });
    }
    Err(BadLine::Off)
}

#[tactic(auto, unfolding(jv_model::specs::promise::script::Grammar::operation_of_two))]
fn operation_of_two(alloc: Global, name: &[u8], first: &[u8], second: &[u8]) -> Result<Op, BadLine>
    ensures { Reads result (operation_of_two name.now first.now second.now) }
{
    if name == b"mkdir".as_slice() {
        let (path, mode) = path_and_mode(alloc, first, second)?;
        return Ok(Op::Mkdir { path, mode });
    }
    if name == b"create".as_slice() {
        let (path, mode) = path_and_mode(alloc, first, second)?;
        return Ok(Op::Create { path, mode });
    }
    if name == b"chmod".as_slice() {
        let (path, mode) = path_and_mode(alloc, first, second)?;
        return Ok(Op::Chmod { path, mode });
    }
    if name == b"truncate".as_slice() {
        return truncate(first, second).ok_or(BadLine::Off);
    }
    if name == b"utimes".as_slice() {
        return utimes(alloc, first, second);
    }
    if name == b"compact".as_slice() {
        return compact(alloc, first, second);
    }
    operation_of_two_names(alloc, name, first, second)
}

#[tactic(auto, unfolding(jv_model::specs::promise::script::Grammar::operation_of_two_names))]
fn operation_of_two_names(
    alloc: Global,
    name: &[u8],
    first: &[u8],
    second: &[u8],
) -> Result<Op, BadLine>
    ensures { Reads result (operation_of_two_names name.now first.now second.now) }
{
    if name == b"symlink".as_slice() {
        return symlink(alloc, first, second);
    }
    if name == b"link".as_slice() {
        let (path, to) = two_paths(alloc, first, second)?;
        return Ok(Op::Link { path, to });
    }
    if name == b"rename".as_slice() {
        let (path, to) = two_paths(alloc, first, second)?;
        let how = How::Plain;
        return Ok(Op::Rename { path, to, how });
    }
    Err(BadLine::Off)
}

#[tactic(auto, unfolding(jv_model::specs::promise::script::Grammar::path_and_mode_of))]
fn path_and_mode(alloc: Global, first: &[u8], second: &[u8]) -> Result<(Path, u16), BadLine>
    ensures { Reads result (path_and_mode_of first.now second.now) }
{
    let mode = mode(second).ok_or(BadLine::Off)?;
    let path = path(alloc, first)?;
    Ok((path, mode))
}

// Both are tested before memory is taken for the first: a malformed line is reported as such.
#[tactic(auto, unfolding(jv_model::specs::promise::script::Grammar::two_paths_of))]
fn two_paths(alloc: Global, first: &[u8], second: &[u8]) -> Result<(Path, Path), BadLine>
    ensures { Reads result (two_paths_of first.now second.now) }
{
    if !is_path(second) {
        return Err(BadLine::Off);
    }
    let path = path(alloc, first)?;
    let to = crate::escapes::path(alloc, second)?;
    Ok((path, to))
}

#[tactic(auto, unfolding(jv_model::specs::promise::script::Grammar::symlink_of))]
fn symlink(alloc: Global, first: &[u8], second: &[u8]) -> Result<Op, BadLine>
    ensures { Reads result (symlink_of first.now second.now) }
{
    if !is_path(second) {
        return Err(BadLine::Off);
    }
    let target = target(alloc, first)?;
    let path = path(alloc, second)?;
    Ok(Op::Symlink { target, path })
}

#[tactic(auto, unfolding(jv_model::specs::promise::script::Grammar::truncate_of))]
fn truncate(first: &[u8], second: &[u8]) -> Option<Op>
    ensures { result ≡ truncate_of first.now second.now }
{
    let handle = number(first)?;
    let len = number(second)?;
    Some(Op::Truncate { handle, len })
}

#[tactic(auto, unfolding(jv_model::specs::promise::script::Grammar::utimes_of))]
fn utimes(alloc: Global, first: &[u8], second: &[u8]) -> Result<Op, BadLine>
    ensures { Reads result (utimes_of first.now second.now) }
{
    let mtime = number_up_to(LAST_MOMENT, second).ok_or(BadLine::Off)?;
    let path = path(alloc, first)?;
    Ok(Op::Utimes { path, mtime })
}

#[tactic(auto, unfolding(jv_model::specs::promise::script::Grammar::compact_of))]
fn compact(alloc: Global, first: &[u8], second: &[u8]) -> Result<Op, BadLine>
    ensures { Reads result (compact_of first.now second.now) }
{
    let window = short_number(second).ok_or(BadLine::Off)?;
    let path = path(alloc, first)?;
    Ok(Op::Compact { path, window })
}

#[tactic(auto, unfolding(jv_model::specs::promise::script::Grammar::operation_of_three))]
fn operation_of_three(
    alloc: Global,
    name: &[u8],
    first: &[u8],
    second: &[u8],
    third: &[u8],
) -> Result<Op, BadLine>
    ensures { Reads result (operation_of_three name.now first.now second.now third.now) }
{
    if name == b"read".as_slice() {
        return read(first, second, third).ok_or(BadLine::Off);
    }
    if name == b"write".as_slice() {
        return write(alloc, first, second, third);
    }
    if name == b"chown".as_slice() {
        return chown(alloc, first, second, third);
    }
    if name == b"rename".as_slice() {
        return rename(alloc, first, second, third);
    }
    Err(BadLine::Off)
}

#[tactic(auto, unfolding(jv_model::specs::promise::script::Grammar::read_of))]
fn read(first: &[u8], second: &[u8], third: &[u8]) -> Option<Op>
    ensures { result ≡ read_of first.now second.now third.now }
{
    let handle = number(first)?;
    let offset = number(second)?;
    let len = read_length(third)?;
    Some(Op::Read {
        handle,
        offset,
        len,
    })
}

#[tactic(auto, unfolding(jv_model::specs::promise::script::Grammar::write_of))]
fn write(alloc: Global, first: &[u8], second: &[u8], third: &[u8]) -> Result<Op, BadLine>
    ensures { Reads result (write_of first.now second.now third.now) }
{
    let handle = number(first).ok_or(BadLine::Off)?;
    let offset = number(second).ok_or(BadLine::Off)?;
    let bytes = read_data(alloc, third)?;
    Ok(Op::Write {
        handle,
        offset,
        bytes,
    })
}

#[tactic(auto, unfolding(jv_model::specs::promise::script::Grammar::chown_of))]
fn chown(alloc: Global, first: &[u8], second: &[u8], third: &[u8]) -> Result<Op, BadLine>
    ensures { Reads result (chown_of first.now second.now third.now) }
{
    let uid = short_number(second).ok_or(BadLine::Off)?;
    let gid = short_number(third).ok_or(BadLine::Off)?;
    let path = path(alloc, first)?;
    Ok(Op::Chown { path, uid, gid })
}

#[tactic(auto, unfolding(jv_model::specs::promise::script::Grammar::rename_of))]
fn rename(alloc: Global, first: &[u8], second: &[u8], third: &[u8]) -> Result<Op, BadLine>
    ensures { Reads result (rename_of first.now second.now third.now) }
{
    let how = how(third).ok_or(BadLine::Off)?;
    let (path, to) = two_paths(alloc, first, second)?;
    Ok(Op::Rename { path, to, how })
}

#[tactic(auto, unfolding(jv_model::specs::promise::script::Grammar::how_of))]
fn how(word: &[u8]) -> Option<How>
    ensures { result ≡ how_of word.now }
{
    if word == b"noreplace".as_slice() {
        return Some(How::NoReplace);
    }
    if word == b"exchange".as_slice() {
        return Some(How::Exchange);
    }
    None
}

#[tactic(auto, unfolding(jv_model::specs::promise::script::Grammar::copy_of))]
fn copy(first: &[u8], second: &[u8], third: &[u8], fourth: &[u8], fifth: &[u8]) -> Option<Op>
    ensures { result ≡ copy_of first.now second.now third.now fourth.now fifth.now }
{
    Some(Op::Copy {
        source: number(first)?,
        from: number(second)?,
        target: number(third)?,
        to: number(fourth)?,
        len: number(fifth)?,
    })
}
