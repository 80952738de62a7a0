ghost use Rattle.std.specs.Prelude.{◌≡◌, ◌≤◌, [], map, string_bytes, IsSome, IsSomeAnd};
ghost use Rattle.jv_model.specs.declared.limits.TheConstants.{MAX_DATA};
ghost use Rattle.jv_client_shared.specs.Lengths.{IsLength};
ghost use Rattle.jv_cmd.specs.Bounds.{AreAllowed};
ghost use Rattle.jv_cmd.specs.promise.Commands.{Runs, RunsCommand};
ghost use Rattle.jv_cmd.specs.Commands.{RunsAttached, RunsSession, RunsVolume};
ghost use Rattle.jv_cmd.specs.promise.Faults.{CountsFaults, in_world};
ghost use Rattle.jv_cmd.specs.Generating.{EndsScript};
ghost use Rattle.jv_cmd.specs.Stages.{IsFirst};
ghost use Rattle.jv_cmd.specs.Words.{IsAllowedCommand};

use crate::blocks::{attach_all, ended_by_yard};
use crate::bounds::limits_of;
use crate::drawn::run_drawn;
use crate::ended::{Ended, give_up, report, say};
use crate::format::run_format;
use crate::lines::run_script;
use crate::stage::{ObservedStage, RunStage};
use crate::volume::open_volume;
use crate::words::{Command, SessionOptions, WordsFault, read_words};
use crate::world::{Finish, Observed, World};
use jv_model::{Setting, Text};
use jv_outside::{Clock, Depot, Keeper, Shelf, Sink, Source};
use jv_yard::{Alone, Yard, YardDoor};
use std::alloc::Global;

/// The exit status if the words are refused.
pub const WORDS_REFUSED: u8 = 2;

/// Runs the command that the words are, over the devices of the world, with an emptied journal. JuiceFS, Command
/// Reference: `format`, `mount`.
///
/// `format` puts the rows of a fresh volume where the keeper has none, and prints its name. `session` runs the script
/// of the source over the rows of the volume, with the bytes of files in blocks of the depot, and prints an answer for
/// each line that has one.
///
/// Once a session has read the volume's setting, it opens the depot and then the carrier at the setting's bucket, and
/// then the shelf at the folder of `--cache-dir`. The first of them that isn't opened ends the run before its first
/// line, and those after it are as they were. Then it lists the blocks on the shelf, and ends before its first line
/// where that fails. `format` leaves all three as they were. No command changes the blocks on the shelf.
///
/// The status is 0 if the command did its work: every line of the source was run, or the volume is formatted. It is 2
/// if the words are refused, 3 if the next line isn't run (a drawn script has no such line), 4 if there is no volume
/// for a session, or one for `format`, or the row of its setting is of a later version, or a row that is read is
/// malformed, or names one that isn't there, or is absent where each volume has one, 5 if a device failed, and 6 if the
/// process is out of memory. A device that fails inside an operation of a script is answered `EIO`. Standard error has
/// a text for each but the first, which ends with a line feed. Nothing after the end of the run is done. Everything
/// before it is done and in the journal, and its text is printed, but for the last line's where `out` failed. Where the
/// clock fails or memory runs out on a line, the steps that the line made are in the journal, and it prints nothing.
/// Apart from such answers, a device's count of faults rises only with status 5, by that device, and standard error's
/// own faults are passed over.
///
/// With `--generate N` the script is the one that is drawn from the seed N, the source isn't read, and what is printed is one
/// line of totals, once all lines were run.
pub fn run<S: Source, O: Sink, E: Sink, K: Keeper, D: Depot, H: Shelf, C: Clock>(
    alloc: Global,
    words: &[String],
    world: World<S, O, E, K, D, H, C>,
) -> Finish<S, O, E, K, D, H, C>
    ensures { let seen = ⟦<World<S, O, E, K, D, H, C> as Observed>⟧.seen in
        Runs (map string_bytes words.now) (seen world) (seen result.world) result.status }
{
    let mut world = world;
    world.journal.clear();
    match read_words(alloc, words) {
        Ok(command) => {
            let (ended, mut world) = run_command(alloc, command, world);
            report(&ended, &mut world.err);
            let status = ended.status();
            Finish { status, world }
        }
        Err(WordsFault::Refused(text)) => {
            say(text.as_bytes(), &mut world.err);
            let status = WORDS_REFUSED;
            Finish { status, world }
        }
        Err(WordsFault::Memory) => {
            let status = give_up(&mut world.err);
            Finish { status, world }
        }
    }
}

/// Runs a command, and returns how it ended and the world then.
fn run_command<S: Source, O: Sink, E: Sink, K: Keeper, D: Depot, H: Shelf, C: Clock>(
    alloc: Global,
    command: Command,
    world: World<S, O, E, K, D, H, C>,
) -> (Ended, World<S, O, E, K, D, H, C>)
    requires allowed { IsAllowedCommand command }
    requires empty { world.journal.acts ≡ [] }
    ensures runs { let seen = ⟦<World<S, O, E, K, D, H, C> as Observed>⟧.seen in
        RunsCommand command (seen world) (seen result.1) result.0 }
    ensures err { result.1.err ≡ world.err }
{
    match command {
        Command::Format { place, setting } => {
            let mut world = world;
            let ended = run_format(alloc, &place, &setting, &mut world);
            (ended, world)
        }
        Command::Session { place, options } => run_session(alloc, &place, &options, world),
    }
}

/// Runs the script of the source over the volume at a place, once the devices for its blocks are opened.
fn run_session<S: Source, O: Sink, E: Sink, K: Keeper, D: Depot, H: Shelf, C: Clock>(
    alloc: Global,
    place: &Text,
    options: &SessionOptions,
    world: World<S, O, E, K, D, H, C>,
) -> (Ended, World<S, O, E, K, D, H, C>)
    requires allowed { AreAllowed options.now }
    requires empty { world.journal.acts ≡ [] }
    ensures runs { let seen = ⟦<World<S, O, E, K, D, H, C> as Observed>⟧.seen in
        RunsSession place.now options.now (seen world) (seen result.1) result.0 }
    ensures faults { let seen = ⟦<World<S, O, E, K, D, H, C> as Observed>⟧.seen in
        CountsFaults result.0 (in_world (seen world)) (in_world (seen result.1)) }
    ensures err { result.1.err ≡ world.err }
{
    let mut world = world;
    match open_volume(alloc, &mut world.keeper, place) {
        Ok(setting) => run_volume(alloc, setting, options, world),
        Err(ended) => (ended, world),
    }
}

/// Opens the devices for the blocks of a volume with this setting, and runs the script of the source over it.
fn run_volume<S: Source, O: Sink, E: Sink, K: Keeper, D: Depot, H: Shelf, C: Clock>(
    alloc: Global,
    setting: Setting,
    options: &SessionOptions,
    world: World<S, O, E, K, D, H, C>,
) -> (Ended, World<S, O, E, K, D, H, C>)
    requires allowed { AreAllowed options.now }
    requires empty { world.journal.acts ≡ [] }
    requires block { IsLength setting.block }
    ensures runs { let seen = ⟦<World<S, O, E, K, D, H, C> as Observed>⟧.seen in
        RunsVolume options.now setting (seen world) (seen result.1) result.0 }
    ensures err { result.1.err ≡ world.err }
{
    let mut world = world;
    let attached = attach_all(
        &setting.bucket,
        &options.cache_dir,
        &mut world.depot,
        &mut world.carrier,
        &mut world.shelf,
    );
    match attached {
        Ok(()) => run_attached(alloc, setting, options, world),
        Err(ended) => (ended, world),
    }
}

/// Runs the script of the source over a volume with this setting, the devices for whose blocks are opened.
fn run_attached<S: Source, O: Sink, E: Sink, K: Keeper, D: Depot, H: Shelf, C: Clock>(
    alloc: Global,
    setting: Setting,
    options: &SessionOptions,
    world: World<S, O, E, K, D, H, C>,
) -> (Ended, World<S, O, E, K, D, H, C>)
    requires allowed { AreAllowed options.now }
    requires empty { world.journal.acts ≡ [] }
    requires block { IsLength setting.block }
    ensures runs { let seen = ⟦<World<S, O, E, K, D, H, C> as Observed>⟧.seen in
        RunsAttached options.now setting (seen world) (seen result.1) result.0 }
    ensures err { result.1.err ≡ world.err }
{
    match Yard::start(alloc, world.depot, world.shelf, &setting) {
        Ok(yard) => {
            let stage = RunStage {
                limits: limits_of(options, setting.block),
                source: world.source,
                out: world.out,
                keeper: world.keeper,
                door: Alone::new(yard),
                clock: world.clock,
                carrier: world.carrier,
                journal: world.journal,
            };
            let (ended, stage) = run_staged(alloc, options.generate, setting, stage);
            (ended, stage.into_world(world.err))
        }
        Err((depot, shelf, fault)) => {
            let world = World {
                depot,
                shelf,
                ..world
            };
            (ended_by_yard(fault), world)
        }
    }
}

/// Runs the script of a seed, or else of the source, over the rows of the keeper and the blocks of a yard that was just
/// started, whose setting this is.
fn run_staged<S: Source, O: Sink, K: Keeper, D: Depot, H: Shelf, C: Clock>(
    alloc: Global,
    generate: Option<u64>,
    setting: Setting,
    stage: RunStage<S, O, K, D, H, C>,
) -> (Ended, RunStage<S, O, K, D, H, C>)
    requires empty { stage.journal.acts ≡ [] }
    requires buffer { MAX_DATA ≤ stage.limits.buffer }
    requires yard { let given = ⟦<Alone<D, H> as YardDoor<D, H>>⟧.given in
        IsSomeAnd (given stage.door) (IsFirst setting) }
    ensures runs { let seen = ⟦<RunStage<S, O, K, D, H, C> as ObservedStage>⟧.seen in
        EndsScript generate (seen stage) (seen result.1) result.0 }
    ensures yard { IsSome (⟦<Alone<D, H> as YardDoor<D, H>>⟧.given result.1.door) }
{
    match generate {
        Some(seed) => run_drawn(alloc, seed, setting, stage),
        None => {
            let mut stage = stage;
            let ended = run_script(alloc, setting, &mut stage);
            (ended, stage)
        }
    }
}
