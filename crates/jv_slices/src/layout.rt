//! What records show of a range, as stretches of positions.
ghost use Rattle.std.specs.Prelude.{◌≡◌, ◌≢◌, ◌↔◌, ℕ, ◌+◌, ◌-◌, ◌<◌, ◌≤◌, false, IsTrue, All, drop, filter, length, Option, OnOk, IfOk, slice_index_or};
ghost use Rattle.std.specs.Option.{option_or};
ghost use Rattle.jv_model.specs.declared.slice.Rec.{Rec as RecSeen};
ghost use Rattle.jv_model.specs.promise.blocks.Slices.{IsRecord, visible};
ghost use Rattle.jv_slices.specs.Stretches.{IsSeen, IsAlike, Shows, IsLayout, touches};
ghost use Rattle.jv_slices.specs.declared.layout.Stretch.{Stretch as StretchSeen};

use jv_model::Rec;
use std::alloc::{AllocError, Global};

/// Positions up to `end` that show one record, or none. They begin where the stretch before ends.
#[derive(Clone, Copy, Debug, PartialEq, Eq)]
pub(crate) struct Stretch {
    pub(crate) end: u32,
    pub(crate) seen: Option<Rec>,
}

/// Up to this many records are shown one by one, which takes one list. More are laid out by halves.
const FEW: usize = 8;

/// What records show from one position to another, in as few stretches as there can be. Where they are many, only those
/// that touch these positions are laid out.
pub(crate) fn show_range(
    alloc: Global,
    records: &[Rec],
    from: u32,
    to: u32,
) -> Result<Vec<Stretch>, AllocError>
    requires records { All IsRecord records.now }
    requires rising { from ≤ to }
    ensures { IfOk result (λ stretches. IsLayout (visible records.now) from to stretches.items) }
{
    if records.len() <= FEW {
        return lay_few(alloc, records, from, to);
    }
    let near = touching(alloc, records, from, to)?;
    layout(alloc, &near, from, to)
}

/// The records that touch the positions from one to another, in their order.
fn touching(alloc: Global, records: &[Rec], from: u32, to: u32) -> Result<Vec<Rec>, AllocError>
    ensures { IfOk result (λ near. near.items ≡ filter (touches from to) records.now) }
{
    let mut near = Vec::new(alloc);
    for record in records {
        if touches(from, to, *record) {
            near.push(*record)?;
        }
    }
    Ok(near)
}

fn touches(from: u32, to: u32, part: Rec) -> bool
    ensures { result ≡ touches from to part }
{
    part.pos < to && (from < part.pos || from - part.pos < part.len)
}

/// The same by all of these records. Where they are many, the two halves are laid out each for itself, and then the
/// later one over the earlier one, so that the time is that of a merge sort.
fn layout(alloc: Global, records: &[Rec], from: u32, to: u32) -> Result<Vec<Stretch>, AllocError>
    requires records { All IsRecord records.now }
    requires rising { from ≤ to }
    ensures { IfOk result (λ stretches. IsLayout (visible records.now) from to stretches.items) }
{
    if records.len() <= FEW {
        return lay_few(alloc, records, from, to);
    }
    let (earlier, later) = records.split_at(records.len() / 2);
    let lower = layout(alloc, earlier, from, to)?;
    let upper = layout(alloc, later, from, to)?;
    lay_over(alloc, from, &lower, &upper)
}

fn lay_few(alloc: Global, records: &[Rec], from: u32, to: u32) -> Result<Vec<Stretch>, AllocError>
    requires records { All IsRecord records.now }
    requires rising { from ≤ to }
    ensures { IfOk result (λ stretches. IsLayout (visible records.now) from to stretches.items) }
{
    let mut stretches = Vec::with_capacity(alloc, 2 * records.len() + 1)?;
    show_records(&mut stretches, records, from, to)?;
    Ok(stretches)
}

/// Adds what records show from one position to another to stretches that end where these begin: what the last record
/// shows, and what the others show before and behind it.
fn show_records(
    stretches: &mut Vec<Stretch>,
    records: &[Rec],
    from: u32,
    to: u32,
) -> Result<(), AllocError>
    requires { All IsRecord records.now }
    ensures { OnOk result ((all : ℕ → Option RecSeen) (start : ℕ) →
        IsLayout all start from stretches.old.items → from ≤ to →
        IsAlike all (visible records.now) from to → IsLayout all start to stretches.new.items) }
{
    if from >= to {
        return Ok(());
    }
    let Some((last, before)) = records.split_last() else {
        return show(stretches, from, to, None);
    };
    let start = last.pos.clamp(from, to);
    let end = (last.pos + last.len).clamp(from, to);
    show_records(stretches, before, from, start)?;
    show(stretches, start, end, Some(*last))?;
    show_records(stretches, before, end, to)
}

/// What the upper stretches see, and where they see nothing, what the lower ones see.
fn lay_over(
    alloc: Global,
    from: u32,
    lower: &[Stretch],
    upper: &[Stretch],
) -> Result<Vec<Stretch>, AllocError>
    ensures { IfOk result (λ stretches. (below above : ℕ → Option RecSeen) (to : ℕ) →
        Shows below from to lower.now → Shows above from to upper.now →
        IsLayout (λ at. option_or (above at) (below at)) from to stretches.items) }
{
    let mut stretches = Vec::new(alloc);
    let (mut i, mut j, mut at) = (0, 0, from);
    while i < lower.len() && j < upper.len() {
        let end = lower[i].end.min(upper[j].end);
        show(&mut stretches, at, end, upper[j].seen.or(lower[i].seen))?;
        i = next_index(lower, i, end);
        j = next_index(upper, j, end);
        at = end;
    }
    Ok(stretches)
}

/// The index of the stretch that a position is in, where it is the end of the stretch at `index` or before it.
fn next_index(stretches: &[Stretch], index: usize, position: u32) -> usize
    requires { index < length stretches.now }
    ensures rest { (all : ℕ → Option RecSeen) (from to : ℕ) (d : StretchSeen) →
        from ≤ position → position ≤ (slice_index_or stretches.now index d).end →
        Shows all from to (drop index stretches.now) →
        Shows all position to (drop result stretches.now) }
    ensures next { (d : StretchSeen) →
        position ≡ (slice_index_or stretches.now index d).end → result ≡ index + 1 }
    ensures within { result ≤ length stretches.now }
    ensures rises { index ≤ result }
{
    if stretches[index].end == position {
        index + 1
    } else {
        index
    }
}

/// Adds the positions from one to another to stretches that end there. The last stretch grows where it sees the same.
fn show(
    stretches: &mut Vec<Stretch>,
    from: u32,
    to: u32,
    seen: Option<Rec>,
) -> Result<(), AllocError>
    ensures { OnOk result ((all : ℕ → Option RecSeen) (start : ℕ) →
        IsLayout all start from stretches.old.items → from ≤ to → IsSeen all from to seen →
        IsLayout all start to stretches.new.items) }
{
    if from >= to {
        return Ok(());
    }
    if sees_last(stretches, seen) {
        let last = stretches.len() - 1;
        stretches[last].end = to;
    } else {
        stretches.push(Stretch { end: to, seen })?;
    }
    Ok(())
}

/// Whether the last stretch sees this.
fn sees_last(stretches: &[Stretch], seen: Option<Rec>) -> bool
    ensures some { IsTrue result → 0 < length stretches.now }
    ensures same { IsTrue result → (d : StretchSeen) →
        (slice_index_or stretches.now (length stretches.now - 1) d).seen ≡ seen }
    ensures other { result ≡ false → (k : ℕ) (d : StretchSeen) → length stretches.now ≡ k + 1 →
        (slice_index_or stretches.now k d).seen ≢ seen }
{
    match stretches.last() {
        Some(last) => is_same(last.seen, seen),
        None => false,
    }
}

fn is_same(seen: Option<Rec>, other: Option<Rec>) -> bool
    ensures { IsTrue result ↔ (seen ≡ other) }
{
    seen == other
}
