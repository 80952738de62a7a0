//! Does one measure of the crates below at a size, so that a script can time it. The words are the measure's name, the
//! size, and how often it is done where that isn't once. What is printed is a count. A measure fails only out of memory
//! or where a device in memory does.
#![tactic(auto)]

mod finds;
mod kinds;
mod plans;
mod rows;
mod script;
mod writes;

use jv_model::Down;
use jv_outside::words;
use std::alloc::Global;
use std::process::ExitCode;
use writes::Order;

/// The exit status where the words ask for no measure.
const WORDS_REFUSED: u8 = 2;

/// The exit status where memory runs out, or the count isn't taken.
const NOT_MEASURED: u8 = 6;

/// A measure of rows of one kind, as `row-node-read`, or of a line's data in parts of one kind, as `parts-single-read`,
/// at a size. None where there is no such measure.
fn measured_kind(alloc: Global, name: &str, size: u32) -> Result<Option<u64>, Down> {
    let Some((what, rest)) = name.split_once("-") else {
        return Ok(None);
    };
    let Some((kind, done)) = rest.split_once("-") else {
        return Ok(None);
    };
    match (what, done) {
        ("row", "written") => kinds::written(alloc, kind, size),
        ("row", "read") => kinds::read(alloc, kind, size),
        ("parts", "spelled") => script::parts_spelled(alloc, kind, size),
        ("parts", "read") => script::parts_read(alloc, kind, size),
        ("parts", "printed") => script::parts_printed(alloc, kind, size),
        _ => Ok(None),
    }
}

/// A measure by its name, at a size. None where there is no such measure.
fn measured(alloc: Global, name: &str, size: u32) -> Result<Option<u64>, Down> {
    let count = match name {
        "rows-written" => rows::written(alloc, size)?,
        "rows-read" => rows::read(alloc, size)?,
        "rows-scanned" => rows::scanned(alloc, size)?,
        "rows-of-each-kind" => kinds::read_each(alloc, size)?,
        "records" => plans::listed(alloc, size)?,
        "plan" => plans::planned(alloc, size)?,
        "pending" => writes::pending(alloc, Order::Sequential, size)?,
        "pending-scattered" => writes::pending(alloc, Order::Scattered, size)?,
        "pending-backward" => writes::pending(alloc, Order::Backward, size)?,
        "pending-border" => writes::pending(alloc, Order::Border, size)?,
        "cache-finds" => finds::found(alloc, size)?,
        "lines" => script::lines_read(alloc, size)?,
        "data-spelled" => script::data_spelled(alloc, size)?,
        "data-read" => script::data_read(alloc, size)?,
        "data" => script::data_printed(alloc, size)?,
        _ => return measured_kind(alloc, name, size),
    };
    Ok(Some(count))
}

/// A measure that is done `times` times over, so that small sizes take a time that can be measured. Returns what it
/// counts the last time.
fn repeated(alloc: Global, name: &str, size: u32, times: u32) -> Result<Option<u64>, Down> {
    let mut count = None;
    for _ in 0..times {
        count = measured(alloc, name, size)?;
    }
    Ok(count)
}

/// The measure that the words ask for. None where they ask for none.
fn asked(alloc: Global, words: &[String]) -> Result<Option<u64>, Down> {
    let (name, size, times) = match words {
        [name, size] => (name, size.parse(), Ok(1)),
        [name, size, times] => (name, size.parse(), times.parse()),
        _ => return Ok(None),
    };
    match (size, times) {
        (Ok(size), Ok(times)) => repeated(alloc, name.as_str(), size, times),
        _ => Ok(None),
    }
}

fn main(rt: HostRuntime) -> ExitCode {
    let Ok(words) = words(&rt) else {
        return ExitCode::from(NOT_MEASURED);
    };
    match asked(rt.alloc(), &words) {
        Ok(Some(count)) if println!(rt; "{count}").is_ok() => ExitCode::SUCCESS,
        Ok(None) => {
            let _ = eprintln!(rt;
                "bench_measure: the words are a measure's name, a size, and maybe how often"
            );
            ExitCode::from(WORDS_REFUSED)
        }
        _ => ExitCode::from(NOT_MEASURED),
    }
}
