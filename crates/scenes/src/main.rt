//! Runs scenes: commands over devices in memory, which standard input has as text.
//!
//! A scene is lines, each a key word and what it takes, parted by one space. Empty lines and lines that begin with
//! `#` mean nothing.
//!
//! ```text
//! scene a volume is formatted, then it exists, and then a session runs on it
//! words format sqlite3://v.db test --bucket b
//! rows none
//! again
//! again session sqlite3://v.db
//! script
//! A mount
//! end
//! ```
//!
//! What a scene begins with:
//! - `scene NAME` begins it.
//! - `words WORD ..` are the words of its first run; none are an empty command line. `word TEXT` is one more word,
//!   which may be empty or have spaces, and `long N TEXT` one more, whose last letter stands N times. Without these
//!   there is no first run.
//! - `clock SECONDS` is what the clock answers, else 1000.
//! - `fail DEVICE K ..` has these calls of a device fail, counted from 1. DEVICE is `source`, `out`, `err`, `clock`,
//!   `keeper`, or one of the three for blocks: `depot`, `carrier` and `shelf`. Calls of a carrier are counted anew in
//!   each run, and fail until one did.
//! - `in_pieces_of N`: the source returns, and `out` and `err` take, at most N bytes a call, else as many as there
//!   are.
//! - `rows fresh`: the keeper has the rows of a volume `juicefs` that was formatted at moment 0, as without this line.
//!   `rows none`: it has no rows. `row TAB A B VALUE` is a row besides, or in place of the one with its key. B and
//!   VALUE are hexadecimal digits, in VALUE with spaces between fields, or `-` for no bytes.
//! - `object NAME BYTES MOMENT` is an object that the depot has, and `staged CLIENT NAME BYTES` a block that a client,
//!   `A` to `H`, has staged on the shelf; without these both are empty. NAME has no space, and BYTES are as a row's
//!   VALUE.
//! - `script`: all lines from the next one to a line `end` are lines of the script. `lines N TEXT` is a line that
//!   stands N times, `text N TEXT` a text that stands N times and has no line feed, and `bytes HEX` are any bytes.
//!   They follow one another in the script.
//! - `list`: all lines from the next one to a line `end` are the script of a run that lists what is left. It names each
//!   path that the scene's script may leave, whichever of its lines is left out.
//!
//! What is done, in this order:
//! - The first run is made. Printed are its status, the lines that `out` and standard error gained, the number of its
//!   journal's entries, how often each device was called and failed, and the place where the keeper was opened. The
//!   counts are those since the world was made. Of the three devices for blocks that is printed only in a scene with
//!   `show blocks`; how often a carrier was called isn't.
//! - Where the scene has a `list`, that run is made by the scene's words over the rows, objects and staged blocks that
//!   are left, on a world of its own of which no call fails. Printed are the lines that `out` gained, and the status
//!   where that isn't 0.
//! - `for k FIRST..LAST DEVICE` makes the first run again, with call FIRST of the device failing, then with the next
//!   one, up to LAST; DEVICE may be `each`, for all of them one after the other, those for blocks only in a scene with
//!   `show blocks`. Printed is one line for each run that breaks the rule below, and a sum.
//! - `again` makes a run on the world that the last one left, by the same words, and `again WORD ..` by these. Where
//!   the scene has a script already, a `script` behind it is that of this run.
//! - `try WORD ..` makes a run by these words on a world of its own, and `then LINE` one by the scene's words whose
//!   script has one more line. Printed is one line: the status, the words or the line, and standard error, or where
//!   that has gained nothing `out`; its first line for `try`, and its last one for `then`.
//! - `volume NAME` says of what the scene begins with whether it is whole (below), by its rows, objects and staged
//!   blocks, once these lines behind it are heeded: `with TAB A B VALUE` is a row that is there besides, or in place of
//!   the one with its key, and `without TAB A B` one that isn't. Printed is one line: the name, and `whole`, or the first
//!   thing that isn't.
//! - `show blocks` prints the objects that the depot has then, each by its name and its length, and the blocks that are
//!   staged, each by its client, name and length.
//! - `show rows` prints the rows that are left, each in the form in which a scene has it.
//!
//! The rule for a run in which one more call is to fail: where that call isn't made, nothing is different. Else it ends
//! as the run without it, or with status 5 and the device's name on standard error; only that call fails; its answers
//! are those of the run without it, or the first ones of them, but for one at most; and its rows, and what is listed of
//! them, are those before, or those that the run without it leaves, but where it ends between two steps of a script.
//! Where a call of the keeper, the depot, the carrier or the shelf fails inside an operation, exactly that operation is
//! answered `err EIO` and the device's name, and the run goes on; if each line of the script but comments is an
//! operation that is run to its end, the other answers, the rows, and what is listed of them, are those of the run
//! without that line. In a scene with `show blocks` rows are compared but for numbers of slices, of which a flush that
//! fails has used one:
//! without the tables of lists, slices and dead slices, and of the counters without the next slice.
//!
//! Besides, what it leaves is whole, where what it began with was. A stock without rows is; any other is where these
//! hold:
//! - Each row is one of its table, at a key of its table. Setting and counters are there, and each number that was given
//!   is below the next one of its kind.
//! - Root and trash are directories. Each entry stands in a directory that is there and names a node that is there, of
//!   its kind; each other directory has one entry, in its parent, and leads up to the root or the trash. A file or
//!   symlink has an entry, or else one session that is there keeps it. What the trash and its hours hold has the names
//!   that these give, and hours are read-only and root's.
//! - Link counts are those of the entries, and the counters have the sums over the nodes.
//! - Each slice's count is the number of the records that name it in all lists; each record that names a slice has a row
//!   for it, with its size; a dead slice has none.
//! - Each list belongs to a file, or to a removed one. A file's lists show zeros from its length on, and a removed one
//!   has no node.
//! - Each block of a slice that has a row, by its name and length under the setting, is an object or staged by a client.
//!   Objects and staged blocks with the name of a block are of slices below the next one, and copies of one block have
//!   equal bytes.
//!
//! How often the carrier failed is read off the answers, since it shows no calls. The run without the
//! fault makes one that opens it, and one for each object that is new; where one of these is to fail,
//! it has to be answered so.
//!
//! A malformed line is refused with its number, and then nothing is run.
#![tactic(auto)]

use jv_cmd::{Finish, World, run};
use jv_outside::{Carrier, Clock, Depot, Keeper, MemCarrier, NumberList, Shelf, Sink, Source};
use scenes_runs::{MemParts, Parts, Player, Stores, Streams, Theatre, push_scene};
use scenes_text::{BadScenes, Scene, read_scenes};
use std::alloc::{AllocError, Global};
use std::process::ExitCode;
use std::{io, mem};

/// The exit status where a line is none of a scene.
const NO_SCENES: u8 = 2;

/// The exit status where standard input or standard output fails.
const STREAM_FAILED: u8 = 5;

/// The exit status if the process is out of memory.
const OUT_OF_MEMORY: u8 = 6;

/// Runs words as the program does.
#[derive(Clone, Copy)]
struct Program;

impl Player for Program {
    fn run(
        &self,
        alloc: Global,
        words: &[String],
        parts: &mut Option<MemParts>,
        carrier: MemCarrier,
    ) -> Result<u8, AllocError> {
        let carrier = Box::new(alloc, carrier)?;
        Ok(run_in(alloc, words, parts, carrier))
    }
}

/// Runs words over the parts of a world, if they are there, with this carrier, and puts back what is left of them.
/// Returns the status.
fn run_in<
    S: Source + Drop,
    O: Sink + Drop,
    E: Sink + Drop,
    K: Keeper + Drop,
    D: Depot + Drop,
    H: Shelf + Drop,
    C: Clock + Drop,
>(
    alloc: Global,
    words: &[String],
    parts: &mut Option<Parts<S, O, E, K, D, H, C>>,
    carrier: Box<dyn Carrier>,
) -> u8 {
    match parts.take() {
        Some(taken) => {
            let (status, left) = run_on(alloc, words, taken, carrier);
            *parts = Some(left);
            status
        }
        None => 0,
    }
}

/// Runs words over what a world is made of, with this carrier. Returns the status, and what is left but for the
/// carrier.
fn run_on<S: Source, O: Sink, E: Sink, K: Keeper, D: Depot, H: Shelf, C: Clock>(
    alloc: Global,
    words: &[String],
    parts: Parts<S, O, E, K, D, H, C>,
    sends: Box<dyn Carrier>,
) -> (u8, Parts<S, O, E, K, D, H, C>) {
    let Parts {
        streams: Streams { source, out, err },
        stores: Stores {
            keeper,
            depot,
            shelf,
        },
        clock,
        carrier,
        journal,
    } = parts;
    let world = World {
        source,
        out,
        err,
        keeper,
        depot,
        shelf,
        clock,
        carrier: sends,
        journal,
    };
    let Finish { status, world } = run(alloc, words, world);
    (status, parts_of(world, carrier))
}

/// What a run left, but for its carrier.
fn parts_of<S, O, E, K, D, H, C>(
    world: World<S, O, E, K, D, H, C>,
    carrier: NumberList,
) -> Parts<S, O, E, K, D, H, C> {
    let World {
        source,
        out,
        err,
        keeper,
        depot,
        shelf,
        clock,
        journal,
        ..
    } = world;
    Parts {
        streams: Streams { source, out, err },
        stores: Stores {
            keeper,
            depot,
            shelf,
        },
        clock,
        carrier,
        journal,
    }
}

/// Why there is nothing more to print.
#[derive(Clone, Copy)]
enum Stop {
    /// A line isn't one of a scene.
    Scenes(BadScenes),
    /// Standard input isn't there or isn't text.
    NotRead,
    /// Standard output takes no more.
    NotPrinted,
    OutOfMemory,
}

impl From<AllocError> for Stop {
    fn from(_error: AllocError) -> Stop {
        Stop::OutOfMemory
    }
}

/// Runs the scenes of standard input, and prints the outcome of each.
fn run_scenes(rt: &HostRuntime) -> Result<(), Stop> {
    let alloc = rt.alloc();
    let Ok(text) = io::read_to_string(alloc, rt.stdin()) else {
        return Err(Stop::NotRead);
    };
    let scenes = read_scenes(alloc, text.as_str()).map_err(Stop::Scenes)?;
    let mut theatre = Theatre::new(Program);
    let ran = run_all(rt, scenes.as_slice(), &mut theatre);
    // The process ends, which frees what the stages hold.
    mem::forget(theatre);
    ran
}

/// Runs scenes one after the other, and prints the outcome of each.
fn run_all(rt: &HostRuntime, scenes: &[Scene], theatre: &mut Theatre<Program>) -> Result<(), Stop> {
    let alloc = rt.alloc();
    for scene in scenes {
        let mut report = String::new(alloc);
        push_scene(alloc, &mut report, scene, theatre)?;
        if print!(rt; "{report}").is_err() {
            return Err(Stop::NotPrinted);
        }
    }
    Ok(())
}

/// Says why there is nothing more to print. Returns the exit status.
fn report_stop(rt: &HostRuntime, stop: Stop) -> u8 {
    let (status, why) = match stop {
        Stop::Scenes(BadScenes { number, why }) => {
            let _ = eprint!(rt; "scenes: line {number}: ");
            (NO_SCENES, why.text())
        }
        Stop::NotRead => (
            STREAM_FAILED,
            "scenes: standard input can't be read as text",
        ),
        Stop::NotPrinted => (STREAM_FAILED, "scenes: standard output failed"),
        Stop::OutOfMemory => (OUT_OF_MEMORY, "scenes: out of memory"),
    };
    let _ = eprintln!(rt; "{why}");
    status
}

fn main(rt: HostRuntime) -> ExitCode {
    match run_scenes(&rt) {
        Ok(()) => ExitCode::SUCCESS,
        Err(stop) => ExitCode::from(report_stop(&rt, stop)),
    }
}
