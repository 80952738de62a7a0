//! Sessions whose script is drawn from a seed. The lines run as those of a source that has the script's text, over an
//! out that keeps what they print, and their summary goes to the session's own out.
ghost use Rattle.std.specs.Prelude.{◌≡◌, ◌≤◌, ◌++◌, ◌∷◌, [], codes, drop, IfOk, IsSome, IsSomeAnd, MatchOption, OnOk, Some};
ghost use Rattle.jv_model.specs.declared.limits.TheConstants.{MAX_DATA};
ghost use Rattle.jv_model.specs.promise.script.Printed.{number_word};
ghost use Rattle.jv_script_drawn.specs.promise.Summary.{totals_of, with_reply};
ghost use Rattle.jv_script_drawn.specs.promise.Script.{script};
ghost use Rattle.jv_cmd.specs.Generating.{EndsScript};
ghost use Rattle.jv_cmd.specs.promise.Generating.{PrintsSummary, SumsUp, words_of_create, is_read_line, line_text, operation_text, words_of_read, repeated_text, replies_said, reply_said, script_text, spelled_bytes, summary_of, words_of_write};
ghost use Rattle.jv_cmd.specs.Stages.{IsFirst};
ghost use Rattle.jv_cmd.specs.promise.Texts.{texts_of};

use crate::ended::Ended;
use crate::lines::{discard, run_script};
use crate::reader::feed_in;
use crate::stage::{ObservedStage, RunStage};
use itoa::Buffer;
use jv_model::{Bytes, Fault, Line, Op, Reply, Setting};
use jv_outside::{Clock, Depot, Keeper, NeverSink, NeverSource, Shelf, Sink, Source, write_whole};
use jv_script::{BadLine, hex_pair, mode_digits, push_number, read_data};
use jv_script_drawn::{Generator, Totals};
use jv_yard::{Alone, YardDoor};
use std::alloc::{AllocError, Global};

/// Adds the bytes of a write, all of which are the first one.
fn push_repeated(text: &mut Vec<u8>, bytes: &[u8]) -> Result<(), AllocError>
    ensures { OnOk result (text.new.items ≡ text.old.items ++ repeated_text bytes.now) }
{
    let Some(byte) = bytes.first() else {
        text.push(b'-')?;
        return Ok(());
    };
    text.extend_from_slice(&hex_pair(*byte))?;
    text.push(b'x')?;
    text.extend_from_slice(Buffer::new().format(bytes.len()).as_bytes())
}

fn push_create(text: &mut Vec<u8>, path: &[u8], mode: u16) -> Result<(), AllocError>
    ensures { OnOk result (text.new.items ≡ text.old.items ++ words_of_create path.now mode) }
{
    text.extend_from_slice(b"create ")?;
    text.extend_from_slice(path)?;
    text.push(b' ')?;
    text.extend_from_slice(&mode_digits(mode))
}

fn push_read(text: &mut Vec<u8>, handle: u64, offset: u64, len: u32) -> Result<(), AllocError>
    ensures { OnOk result (text.new.items ≡ text.old.items ++ words_of_read handle offset len) }
{
    text.extend_from_slice(b"read")?;
    push_number(text, handle)?;
    push_number(text, offset)?;
    push_number(text, u64::from(len))
}

fn push_write(text: &mut Vec<u8>, handle: u64, offset: u64, bytes: &[u8]) -> Result<(), AllocError>
    ensures { OnOk result (text.new.items
        ≡ text.old.items ++ words_of_write handle offset bytes.now) }
{
    text.extend_from_slice(b"write")?;
    push_number(text, handle)?;
    push_number(text, offset)?;
    text.push(b' ')?;
    push_repeated(text, bytes)
}

fn push_flush(text: &mut Vec<u8>, handle: u64) -> Result<(), AllocError>
    ensures { OnOk result (text.new.items ≡ text.old.items ++ codes "flush" ++ number_word handle) }
{
    text.extend_from_slice(b"flush")?;
    push_number(text, handle)
}

/// Adds an operation of a kind that a drawn script has.
#[tactic(auto, unfolding(crate::specs::promise::Generating::operation_text))]
fn push_operation(text: &mut Vec<u8>, op: &Op) -> Result<(), AllocError>
    ensures { OnOk result (text.new.items ≡ text.old.items ++ operation_text op.now) }
{
    match op {
        Op::Mount { .. } => text.extend_from_slice(b"mount"),
        Op::Create { path, mode } => push_create(text, path.as_slice(), *mode),
        Op::Read {
            handle,
            offset,
            len,
        } => push_read(text, *handle, *offset, *len),
        Op::Write {
            handle,
            offset,
            bytes,
        } => push_write(text, *handle, *offset, bytes.as_slice()),
        Op::Flush { handle } => push_flush(text, *handle),
        _ => Ok(()),
    }
}

/// Adds a line of client A, with its line feed.
#[tactic(auto, unfolding(crate::specs::promise::Generating::line_text))]
fn push_line(text: &mut Vec<u8>, line: &Line) -> Result<(), AllocError>
    ensures { OnOk result (text.new.items ≡ text.old.items ++ line_text line.now) }
{
    match line {
        Line::Do(_, op) => {
            text.extend_from_slice(b"A ")?;
            push_operation(text, op)?;
            text.push(b'\n')?;
            Ok(())
        }
        _ => Ok(()),
    }
}

/// The same of a line that isn't needed any more.
fn push_last(text: &mut Vec<u8>, line: Line) -> Result<(), AllocError>
    ensures { OnOk result (text.new.items ≡ text.old.items ++ line_text line) }
{
    let pushed = push_line(text, &line);
    discard(line);
    pushed
}

/// The text of the script of a seed.
fn script_text(alloc: Global, seed: u64) -> Result<Bytes, AllocError>
    ensures { IfOk result (λ text. text ≡ script_text seed) }
{
    let mut drawn = Generator::new(seed);
    let mut text = Vec::new(alloc);
    'lines: while let Some(line) = drawn.next(alloc)? {
        push_last(&mut text, line)?;
    }
    Ok(Bytes::from_vec(text))
}

/// The bytes that the DATA of an answer spells.
fn spelled_bytes(alloc: Global, digits: &[u8]) -> Result<Bytes, AllocError>
    ensures { IfOk result (λ bytes. bytes ≡ spelled_bytes digits.now) }
{
    match read_data(alloc, digits) {
        Ok(bytes) => Ok(bytes),
        Err(BadLine::Off) => Ok(Bytes::new(alloc)),
        Err(BadLine::Memory) => Err(AllocError),
    }
}

fn is_read_line(line: &Line) -> bool
    ensures { result ≡ is_read_line line.now }
{
    match line {
        Line::Do(_, op) => op.is_read(),
        _ => false,
    }
}

/// What follows the word `ok` and a space.
fn after_ok(answer: &[u8]) -> &[u8]
    ensures { result.now ≡ drop 3 answer.now }
{
    if answer.len() < 3 {
        return &[];
    }
    &answer[3..]
}

/// What totals count of a line's answer.
#[tactic(auto, unfolding(crate::specs::promise::Generating::reply_said))]
fn reply_said(alloc: Global, line: &Line, answer: &[u8]) -> Result<Reply, AllocError>
    ensures { IfOk result (λ reply. reply ≡ reply_said line.now answer.now) }
{
    if answer.first() != Some(&b'o') {
        return Ok(Reply::Refused(Fault::NotFound));
    }
    if !is_read_line(line) {
        return Ok(Reply::Done);
    }
    let bytes = spelled_bytes(alloc, after_ok(answer))?;
    Ok(Reply::Data(bytes))
}

/// The first answer, without its line feed, and those after it, where there is one.
fn next_answer(said: &[u8]) -> Option<(&[u8], &[u8])>
    ensures { MatchOption result (texts_of said.now ≡ [])
        (λ r. texts_of said.now ≡ r.0.now ∷ texts_of r.1.now) }
{
    if said.len() == 0 {
        return None;
    }
    match feed_in(said) {
        Some(at) => Some((&said[..at], &said[at + 1..])),
        None => Some((said, &[])),
    }
}

/// Counts a line's answer.
fn count_answer(
    alloc: Global,
    totals: &mut Totals,
    line: Line,
    answer: &[u8],
) -> Result<(), AllocError>
    ensures { OnOk result (totals.new ≡ with_reply totals.old (reply_said line answer.now)) }
{
    let reply = reply_said(alloc, &line, answer);
    discard(line);
    totals.count(&reply?);
    Ok(())
}

/// The totals of the answers to the script of a seed.
fn totals(alloc: Global, seed: u64, said: &[u8]) -> Result<Totals, AllocError>
    ensures { IfOk result (λ totals.
        totals ≡ totals_of (replies_said (script seed) (texts_of said.now))) }
{
    let mut drawn = Generator::new(seed);
    let mut totals = Totals::new();
    let mut rest = said;
    'lines: while let Some(line) = drawn.next(alloc)? {
        let Some((answer, after)) = next_answer(rest) else {
            discard(line);
            return Ok(totals);
        };
        count_answer(alloc, &mut totals, line, answer)?;
        rest = after;
    }
    Ok(totals)
}

/// The summary of what the script of a seed printed.
#[tactic(auto, unfolding(crate::specs::promise::Generating::summary_of))]
fn summary(alloc: Global, seed: u64, said: &[u8]) -> Result<Bytes, AllocError>
    ensures { IfOk result (λ line. line ≡ summary_of seed said.now) }
{
    totals(alloc, seed, said)?.line(alloc)
}

/// Prints the summary of a script all of whose lines ran, and returns how the run ended with that.
fn sum_up<O: Sink>(alloc: Global, seed: u64, said: &NeverSink, out: &mut O) -> Ended
    ensures { SumsUp seed said.now (O.seen out.old) (O.seen out.new) result }
{
    let Some(answers) = said.taken() else {
        return Ended::OutOfMemory;
    };
    let Ok(line) = summary(alloc, seed, answers) else {
        return Ended::OutOfMemory;
    };
    match write_whole(out, line.as_slice()) {
        Ok(()) => Ended::Succeeded,
        Err(_) => Ended::OutFailed,
    }
}

/// Prints the summary where all lines ran.
fn print_summary<O: Sink>(
    alloc: Global,
    seed: u64,
    ran: Ended,
    said: &NeverSink,
    out: &mut O,
) -> Ended
    ensures { PrintsSummary seed said.now (O.seen out.old) (O.seen out.new) ran result }
{
    match ran {
        Ended::Succeeded => sum_up(alloc, seed, said, out),
        _ => ran,
    }
}

/// Runs the script of a seed over the rows of the keeper and the blocks of a yard that was just started, whose setting
/// this is.
pub(crate) fn run_drawn<S: Source, O: Sink, K: Keeper, D: Depot, H: Shelf, C: Clock>(
    alloc: Global,
    seed: u64,
    setting: Setting,
    stage: RunStage<S, O, K, D, H, C>,
) -> (Ended, RunStage<S, O, K, D, H, C>)
    requires empty { stage.journal.acts ≡ [] }
    requires buffer { MAX_DATA ≤ stage.limits.buffer }
    requires yard { let given = ⟦<Alone<D, H> as YardDoor<D, H>>⟧.given in
        IsSomeAnd (given stage.door) (IsFirst setting) }
    ensures runs { let seen = ⟦<RunStage<S, O, K, D, H, C> as ObservedStage>⟧.seen in
        EndsScript (Some seed) (seen stage) (seen result.1) result.0 }
    ensures yard { IsSome (⟦<Alone<D, H> as YardDoor<D, H>>⟧.given result.1.door) }
{
    let Ok(text) = script_text(alloc, seed) else {
        return (Ended::OutOfMemory, stage);
    };
    let script = NeverSource::new(text);
    let none = Bytes::new(alloc);
    let answers = NeverSink::new(none);
    let mut lines = RunStage {
        limits: stage.limits,
        source: script,
        out: answers,
        keeper: stage.keeper,
        door: stage.door,
        clock: stage.clock,
        carrier: stage.carrier,
        journal: stage.journal,
    };
    let ran = run_script(alloc, setting, &mut lines);
    let mut out = stage.out;
    let ended = print_summary(alloc, seed, ran, &lines.out, &mut out);
    let stage = RunStage {
        limits: lines.limits,
        source: stage.source,
        out,
        keeper: lines.keeper,
        door: lines.door,
        clock: lines.clock,
        carrier: lines.carrier,
        journal: lines.journal,
    };
    (ended, stage)
}
