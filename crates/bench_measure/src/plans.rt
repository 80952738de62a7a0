//! Plans over the records of a window.
ghost use Rattle.std.specs.Prelude.{◌≤◌, All, IfOk};
ghost use Rattle.jv_model.specs.promise.blocks.Slices.{IsRecord};

use jv_model::{Down, List, Rec, WINDOW};
use jv_slices::plan;
use std::alloc::{AllocError, Global};

/// The end of a window, as a number of 32 bits.
const END: u32 = WINDOW as u32;

/// How many records cover a position, about.
const DEPTH: u32 = 2;

/// What a number is multiplied by, so that positions don't come in their order.
const SPREAD: u32 = 2_654_435_769;

/// What a number is multiplied by, so that lengths differ.
const STRETCH: u32 = 1_597_334_677;

/// The record of a number, of at most `most` bytes.
fn record(number: u32, most: u32) -> Rec
    requires { 1 ≤ most }
    ensures { IsRecord result }
{
    let pos = number.wrapping_mul(SPREAD) % END;
    let len = (number.wrapping_mul(STRETCH) % most + 1).min(END - pos);
    Rec {
        pos,
        id: u64::from(number) + 1,
        size: len,
        off: 0,
        len,
    }
}

/// `count` records that overlap.
fn records(alloc: Global, count: u32) -> Result<List, AllocError>
    ensures { IfOk result (λ list. All IsRecord list) }
{
    let most = END / count.max(1) * DEPTH * 2 + 1;
    let mut records = Vec::new(alloc);
    for number in 0..count {
        records.push(record(number, most))?;
    }
    Ok(List::from_vec(records))
}

/// Lists `count` records without a plan.
pub fn listed(alloc: Global, count: u32) -> Result<u64, Down> {
    Ok(records(alloc, count)?.len() as u64)
}

/// Plans a window of `count` records. Returns the number of pieces.
pub fn planned(alloc: Global, count: u32) -> Result<u64, Down> {
    let list = records(alloc, count)?;
    Ok(plan(alloc, &list, 0, END)?.len() as u64)
}
