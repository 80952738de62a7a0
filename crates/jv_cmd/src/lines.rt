ghost use Rattle.std.specs.Prelude.{◌≡◌, ◌↔◌, ◌≤◌, ◌<◌, [], None, IsSome, IsSomeAnd, IsTrue, OnOk};
ghost use Rattle.std.specs.Io.KnownBytes.{prepend_known};
ghost use Rattle.jv_model.specs.declared.limits.TheConstants.{MAX_DATA};
ghost use Rattle.jv_model.specs.declared.op.Line.TheVariants.{Empty};
ghost use Rattle.jv_client.specs.promise.Built.{is_built_line};
ghost use Rattle.jv_session.specs.Lines.{LineRuns};
ghost use Rattle.jv_session.specs.Stands.{IsYardOf};
ghost use Rattle.jv_cmd.specs.Generating.{EndsScript};
ghost use Rattle.jv_cmd.specs.Steps.{TextReads, LineEnds, TextEnds, Going, NextLine, used};
ghost use Rattle.jv_cmd.specs.Stages.{IsFirst};
ghost use Rattle.jv_cmd.specs.promise.Stages.{StageValue};

use crate::ended::Ended;
use crate::reader::{LineReader, Next};
use crate::stage::{ObservedStage, RunStage};
use jv_model::{Line, MAX_LINES, Setting};
use jv_outside::{Clock, Depot, Keeper, Shelf, Sink, Source, write_whole};
use jv_script::{BadLine, is_silent, read_line};
use jv_session::{LineEnd, Schedule};
use jv_yard::{Alone, YardDoor};
use std::alloc::Global;

/// Reads a text as a line that may be run.
fn read_built(alloc: Global, number: u32, text: &[u8], schedule: &Schedule) -> Result<Line, Ended>
    ensures { TextReads number text.now schedule.now.limits result }
{
    let line = match read_line(alloc, text) {
        Ok(line) => line,
        Err(BadLine::Off) => return Err(Ended::LineNotRun(number)),
        Err(BadLine::Memory) => return Err(Ended::OutOfMemory),
    };
    if schedule.is_built(&line) {
        Ok(line)
    } else {
        discard(line);
        Err(Ended::LineNotRun(number))
    }
}

/// Drops a line, which has many forms: a proof of this function alone goes over them.
pub(crate) fn discard(line: Line) {
    drop(line);
}

/// Runs a line over what lines use.
fn make_line<S: Source, O: Sink, K: Keeper, D: Depot, H: Shelf, C: Clock>(
    line: Line,
    number: u32,
    schedule: &mut Schedule,
    stage: &mut RunStage<S, O, K, D, H, C>,
) -> LineEnd
    requires built { IsTrue (is_built_line schedule.old.limits line) }
    requires yard { let given = ⟦<Alone<D, H> as YardDoor<D, H>>⟧.given in
        IsSomeAnd (given stage.old.door) (IsYardOf schedule.old) }
    ensures runs { let seen = ⟦<RunStage<S, O, K, D, H, C> as ObservedStage>⟧.seen in
        LineRuns line number (used (seen stage.old) schedule.old)
        (used (seen stage.new) schedule.new) result }
    ensures source { stage.new.source ≡ stage.old.source }
    ensures out { stage.new.out ≡ stage.old.out }
    ensures yard { let given = ⟦<Alone<D, H> as YardDoor<D, H>>⟧.given in
        IsSomeAnd (given stage.new.door) (IsYardOf schedule.new) }
    ensures quiet { (result ≡ LineEnd.Quiet) ↔ (line ≡ Empty) }
{
    schedule.line(
        line,
        number,
        &mut stage.keeper,
        &mut stage.door,
        &mut *stage.carrier,
        &mut stage.clock,
        &mut stage.journal,
    )
}

/// Runs a line, and prints its answer where it has one. Where the clock fails or memory runs out, the steps made so far
/// stand, and nothing is printed.
fn run_line<S: Source, O: Sink, K: Keeper, D: Depot, H: Shelf, C: Clock>(
    line: Line,
    number: u32,
    schedule: &mut Schedule,
    stage: &mut RunStage<S, O, K, D, H, C>,
) -> Result<(), Ended>
    requires built { IsTrue (is_built_line schedule.old.limits line) }
    requires yard { let given = ⟦<Alone<D, H> as YardDoor<D, H>>⟧.given in
        IsSomeAnd (given stage.old.door) (IsYardOf schedule.old) }
    ensures ends { let seen = ⟦<RunStage<S, O, K, D, H, C> as ObservedStage>⟧.seen in
        LineEnds line number (seen stage.old) (seen stage.new) schedule.old schedule.new result }
    ensures source { stage.new.source ≡ stage.old.source }
    ensures yard { let given = ⟦<Alone<D, H> as YardDoor<D, H>>⟧.given in
        IsSomeAnd (given stage.new.door) (IsYardOf schedule.new) }
{
    match make_line(line, number, schedule, stage) {
        LineEnd::Said(answer) => match write_whole(&mut stage.out, answer.as_slice()) {
            Ok(()) => Ok(()),
            Err(_) => Err(Ended::OutFailed),
        },
        LineEnd::Quiet => Ok(()),
        LineEnd::ClockFailed => Err(Ended::ClockFailed),
        LineEnd::Broken(key, bytes) => Err(Ended::BadRow(key, bytes)),
        LineEnd::Memory => Err(Ended::OutOfMemory),
    }
}

/// Reads a text as a line and runs it.
fn run_text<S: Source, O: Sink, K: Keeper, D: Depot, H: Shelf, C: Clock>(
    alloc: Global,
    number: u32,
    text: &[u8],
    schedule: &mut Schedule,
    stage: &mut RunStage<S, O, K, D, H, C>,
) -> Result<(), Ended>
    requires yard { let given = ⟦<Alone<D, H> as YardDoor<D, H>>⟧.given in
        IsSomeAnd (given stage.old.door) (IsYardOf schedule.old) }
    ensures ends { let seen = ⟦<RunStage<S, O, K, D, H, C> as ObservedStage>⟧.seen in
        TextEnds number text.now (seen stage.old) (seen stage.new) schedule.old
        schedule.new result }
    ensures source { stage.new.source ≡ stage.old.source }
    ensures yard { let given = ⟦<Alone<D, H> as YardDoor<D, H>>⟧.given in
        IsSomeAnd (given stage.new.door) (IsYardOf schedule.new) }
{
    // A line that does nothing is read but not made, since that costs more.
    if is_silent(text) {
        return Ok(());
    }
    match read_built(alloc, number, text, schedule) {
        Ok(line) => run_line(line, number, schedule, stage),
        Err(ended) => Err(ended),
    }
}

/// Runs the line after `done` others.
fn run_next<S: Source, O: Sink, K: Keeper, D: Depot, H: Shelf, C: Clock>(
    alloc: Global,
    done: u32,
    reader: &mut LineReader,
    schedule: &mut Schedule,
    stage: &mut RunStage<S, O, K, D, H, C>,
) -> Result<(), Ended>
    requires few { done ≤ MAX_LINES }
    requires yard { let given = ⟦<Alone<D, H> as YardDoor<D, H>>⟧.given in
        IsSomeAnd (given stage.old.door) (IsYardOf schedule.old) }
    ensures runs { let seen = ⟦<RunStage<S, O, K, D, H, C> as ObservedStage>⟧.seen in
        (before : StageValue)
        → Going (prepend_known reader.old (seen stage.old).source.content) before (seen stage.old)
        done schedule.old
        → NextLine (prepend_known reader.new (seen stage.new).source.content) before
        (seen stage.new) done schedule.new result }
    ensures more { OnOk result (done < MAX_LINES) }
    ensures yard { let given = ⟦<Alone<D, H> as YardDoor<D, H>>⟧.given in
        IsSomeAnd (given stage.new.door) (IsYardOf schedule.new) }
{
    match reader.next(&mut stage.source) {
        Ok(Next::Text(count)) => {
            if done == MAX_LINES {
                return Err(Ended::LineNotRun(done + 1));
            }
            let ran = run_text(alloc, done + 1, reader.front(count), schedule, stage);
            reader.pass(count);
            ran
        }
        Ok(Next::TooLong) => Err(Ended::LineNotRun(done + 1)),
        Ok(Next::End) => Err(Ended::Succeeded),
        Err(_) => Err(Ended::SourceFailed),
    }
}

/// Runs lines until the run ends.
fn run_lines<S: Source, O: Sink, K: Keeper, D: Depot, H: Shelf, C: Clock>(
    alloc: Global,
    reader: &mut LineReader,
    schedule: &mut Schedule,
    stage: &mut RunStage<S, O, K, D, H, C>,
) -> Ended
    requires yard { let given = ⟦<Alone<D, H> as YardDoor<D, H>>⟧.given in
        IsSomeAnd (given stage.old.door) (IsYardOf schedule.old) }
    ensures runs { let seen = ⟦<RunStage<S, O, K, D, H, C> as ObservedStage>⟧.seen in
        (before : StageValue)
        → Going (prepend_known reader.old (seen stage.old).source.content) before (seen stage.old)
        0 schedule.old
        → EndsScript None before (seen stage.new) result }
    ensures yard { let given = ⟦<Alone<D, H> as YardDoor<D, H>>⟧.given in
        IsSomeAnd (given stage.new.door) (IsYardOf schedule.new) }
{
    let mut done = 0;
    'lines: loop {
        match run_next(alloc, done, reader, schedule, stage) {
            Ok(()) => done += 1,
            Err(ended) => return ended,
        }
    }
}

/// Runs the script of the source over the rows of the keeper and the blocks of a yard that was just started, whose
/// setting this is.
pub(crate) fn run_script<S: Source, O: Sink, K: Keeper, D: Depot, H: Shelf, C: Clock>(
    alloc: Global,
    setting: Setting,
    stage: &mut RunStage<S, O, K, D, H, C>,
) -> Ended
    requires empty { stage.old.journal.acts ≡ [] }
    requires buffer { MAX_DATA ≤ stage.old.limits.buffer }
    requires yard { let given = ⟦<Alone<D, H> as YardDoor<D, H>>⟧.given in
        IsSomeAnd (given stage.old.door) (IsFirst setting) }
    ensures runs { let seen = ⟦<RunStage<S, O, K, D, H, C> as ObservedStage>⟧.seen in
        EndsScript None (seen stage.old) (seen stage.new) result }
    ensures yard { IsSome (⟦<Alone<D, H> as YardDoor<D, H>>⟧.given stage.new.door) }
{
    let Ok(mut reader) = LineReader::new(alloc) else {
        return Ended::OutOfMemory;
    };
    let mut schedule = Schedule::new(alloc, setting, stage.limits);
    run_lines(alloc, &mut reader, &mut schedule, stage)
}
