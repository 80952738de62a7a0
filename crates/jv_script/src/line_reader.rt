//! Lines of a script, read by the grammar.
ghost use Rattle.std.specs.Prelude.{◌≡◌, ◌↔◌, None, Err, IfOk, Some, option_map};
ghost use Rattle.jv_model.specs.promise.script.Spelling.{is_silent, words, client_of};
ghost use Rattle.jv_model.specs.promise.script.Grammar.{line_of, command_of, client_line_of, begin_of, where_last, seconds_of};
ghost use Rattle.jv_model.specs.declared.op.Line.TheVariants.{Drain, Tick};
ghost use Rattle.jv_script.specs.Reading.{Reads, words_left};

use crate::bad_line::BadLine;
use crate::fields::{client, tick_seconds};
use crate::operation_words::operation;
use crate::word_cuts::{cut, next_word};
use jv_model::{ClientId, Line};
use std::alloc::Global;

/// Reads a line, which is passed without its line feed.
///
/// # Errors
///
/// [`BadLine::Off`] if and only if the text is malformed, also when memory runs out. [`BadLine::Memory`] for a line
/// whose path, target or DATA finds no memory.
#[tactic(auto, unfolding(jv_model::specs::promise::script::Grammar::line_of))]
pub fn read_line(alloc: Global, text: &[u8]) -> Result<Line, BadLine>
    ensures read { IfOk result (λ line. line_of text.now ≡ Some line) }
    // A malformed text is reported as such, also when memory runs out.
    ensures off { (result ≡ Err BadLine.Off) ↔ (line_of text.now ≡ None) }
{
    if is_silent(text) {
        return Ok(Line::Empty);
    }
    command(alloc, text)
}

/// Whether a line is empty or a comment, and so does nothing.
pub fn is_silent(text: &[u8]) -> bool
    ensures { result ≡ is_silent text.now }
{
    match text.first() {
        None => true,
        Some(first) => *first == b'#',
    }
}

#[tactic(auto, unfolding(jv_model::specs::promise::script::Grammar::command_of))]
fn command(alloc: Global, text: &[u8]) -> Result<Line, BadLine>
    ensures { Reads result (command_of (words text.now)) }
{
    let (first, rest) = cut(text, b' ');
    let Some((second, rest)) = next_word(rest) else {
        return Err(BadLine::Off);
    };
    if first == b"drain".as_slice() {
        return drain(second, rest).ok_or(BadLine::Off);
    }
    if first == b"tick".as_slice() {
        return tick(second, rest).ok_or(BadLine::Off);
    }
    let client = client(first).ok_or(BadLine::Off)?;
    client_line(alloc, client, second, rest)
}

fn drain(letter: &[u8], rest: Option<&[u8]>) -> Option<Line>
    ensures { result
        ≡ where_last (words_left rest.entry) (option_map Drain (client_of letter.now)) }
{
    let client = client(letter)?;
    where_last(rest, Line::Drain(client))
}

fn tick(digits: &[u8], rest: Option<&[u8]>) -> Option<Line>
    ensures { result
        ≡ where_last (words_left rest.entry) (option_map Tick (seconds_of digits.now)) }
{
    let seconds = tick_seconds(digits)?;
    where_last(rest, Line::Tick(seconds))
}

fn where_last(rest: Option<&[u8]>, line: Line) -> Option<Line>
    ensures { result ≡ where_last (words_left rest.entry) (Some line) }
{
    match next_word(rest) {
        None => Some(line),
        Some(_) => None,
    }
}

// What follows a client's letter.
#[tactic(auto, unfolding(jv_model::specs::promise::script::Grammar::client_line_of))]
fn client_line(
    alloc: Global,
    client: ClientId,
    name: &[u8],
    rest: Option<&[u8]>,
) -> Result<Line, BadLine>
    ensures { Reads result (client_line_of client name.now (words_left rest.entry)) }
{
    if name == b"begin".as_slice() {
        return begin(alloc, client, rest);
    }
    if name == b"step".as_slice() {
        return where_last(rest, Line::Step(client)).ok_or(BadLine::Off);
    }
    if name == b"run".as_slice() {
        return where_last(rest, Line::Run(client)).ok_or(BadLine::Off);
    }
    if name == b"crash".as_slice() {
        return where_last(rest, Line::Crash(client)).ok_or(BadLine::Off);
    }
    let op = operation(alloc, name, rest)?;
    Ok(Line::Do(client, op))
}

// An operation that is submitted alone.
#[tactic(auto, unfolding(jv_model::specs::promise::script::Grammar::begin_of))]
fn begin(alloc: Global, client: ClientId, rest: Option<&[u8]>) -> Result<Line, BadLine>
    ensures { Reads result (begin_of client (words_left rest.entry)) }
{
    let (name, arguments) = next_word(rest).ok_or(BadLine::Off)?;
    let op = operation(alloc, name, arguments)?;
    Ok(Line::Begin(client, op))
}
