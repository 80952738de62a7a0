//! The program: its words and the process's own streams and clock, handed to `jv_cmd`.
#![tactic(auto)]

use jv_cmd::{World, give_up, refuse, run};
use jv_model::{Down, Journal, Moment, Sequence};
use jv_outside::{
    Fails, Keeper, MemCarrier, MemDepot, MemKeeper, MemShelf, Reading, Sink, Ticking, Writing,
    words,
};
use jv_rows::{default_setting, fresh_rows};
use std::alloc::Global;
use std::process::ExitCode;
use std::{io, mem};

/// No call of a device in memory fails.
fn never(alloc: Global) -> Fails {
    Fails::At(Sequence::new(alloc))
}

/// A keeper in memory with the rows of a volume named `juicefs` that was formatted at moment 0. It never fails.
fn keeper(alloc: Global) -> Result<MemKeeper, Down> {
    let batch = fresh_rows(alloc, &default_setting(alloc)?, Moment(0))?;
    let mut keeper = MemKeeper::new(alloc, Sequence::new(alloc), never(alloc));
    keeper.commit(&batch)?;
    Ok(keeper)
}

/// Says why there are no words, and returns the exit status.
fn without_words(error: &io::Error, err: &mut impl Sink) -> u8 {
    if error.kind() == io::ErrorKind::OutOfMemory {
        give_up(err)
    } else {
        refuse(err)
    }
}

fn main(rt: HostRuntime) -> ExitCode {
    let alloc = rt.alloc();
    let mut err = Writing::new(rt.stderr());
    let words = match words(&rt) {
        Ok(words) => words,
        Err(error) => return ExitCode::from(without_words(&error, &mut err)),
    };
    let Ok(carrier) = Box::new(alloc, MemCarrier::new(alloc, never(alloc))) else {
        return ExitCode::from(give_up(&mut err));
    };
    let Ok(keeper) = keeper(alloc) else {
        return ExitCode::from(give_up(&mut err));
    };
    let world = World {
        source: Reading::new(rt.stdin()),
        out: Writing::new(rt.stdout()),
        err,
        keeper,
        depot: MemDepot::new(alloc, Sequence::new(alloc), never(alloc)),
        shelf: MemShelf::new(alloc, Sequence::new(alloc), never(alloc)),
        clock: Ticking::new(rt),
        carrier,
        journal: Journal::new(alloc),
    };
    let finish = run(alloc, &words, world);
    let status = finish.status;
    // The process ends, which frees its memory at once; each write was flushed.
    mem::forget(finish);
    ExitCode::from(status)
}
