//! Slices, and the records that name them.
use crate::whole::counts::{Counts, count, count_of};
use crate::whole::stop::{Stop, expect};
use crate::whole::tables::{Tables, WindowList};
use jv_model::{Rec, SliceRow, WINDOW};
use std::alloc::{AllocError, Global};
use std::collections::BTreeMap;

/// Each record names a slice that is there with its size, each slice has as many records as its row says, and a slice
/// that is dead isn't there.
pub fn check_slices(alloc: Global, tables: &Tables) -> Result<(), Stop> {
    let counts = count_records(alloc, tables)?;
    check_counted(tables, &counts)
}

fn check_counted(tables: &Tables, counts: &Counts) -> Result<(), Stop> {
    check_lists(tables)?;
    check_rows(tables, counts)?;
    check_dead(tables)
}

/// How many records of all lists name each slice.
fn count_records(alloc: Global, tables: &Tables) -> Result<Counts, AllocError> {
    let mut counts = BTreeMap::new(alloc);
    count_lists(&mut counts, tables.lists.as_slice())?;
    Ok(counts)
}

fn count_lists(counts: &mut Counts, lists: &[WindowList]) -> Result<(), AllocError> {
    for window in lists {
        count_list(counts, window.list.as_slice())?;
    }
    Ok(())
}

fn count_list(counts: &mut Counts, records: &[Rec]) -> Result<(), AllocError> {
    for record in records {
        count(counts, record.id)?;
    }
    Ok(())
}

fn check_lists(tables: &Tables) -> Result<(), Stop> {
    for window in tables.lists.as_slice() {
        expect(
            has_slices(tables, window.list.as_slice()),
            "a record names a slice that has no row with its size",
        )?;
    }
    Ok(())
}

/// Whether each of these records that names a slice has a row for it, with its size.
fn has_slices(tables: &Tables, records: &[Rec]) -> bool {
    records
        .iter()
        .all(|record| record.id == 0 || has_slice(tables, record))
}

fn has_slice(tables: &Tables, record: &Rec) -> bool {
    match tables.slices.get(&record.id) {
        Some(slice) => slice.size == record.size,
        None => false,
    }
}

fn check_rows(tables: &Tables, counts: &Counts) -> Result<(), Stop> {
    for (id, slice) in tables.slices.iter() {
        check_row(tables, counts, *id, slice)?;
    }
    Ok(())
}

fn check_row(tables: &Tables, counts: &Counts, id: u64, slice: &SliceRow) -> Result<(), Stop> {
    expect(
        1 <= id && id < tables.counters.slice,
        "a slice's number is 0 or isn't below the next one",
    )?;
    expect(is_size(slice.size), "a slice has no bytes or too many")?;
    expect(
        slice.count == count_of(counts, id),
        "a slice's count isn't the number of the records that name it",
    )
}

fn check_dead(tables: &Tables) -> Result<(), Stop> {
    for (id, dead) in tables.dead.iter() {
        expect(
            *id < tables.counters.slice,
            "a dead slice's number isn't below the next one",
        )?;
        expect(is_size(dead.size), "a dead slice has no bytes or too many")?;
        expect(
            !tables.slices.contains_key(id),
            "a dead slice has a row of slices",
        )?;
    }
    Ok(())
}

/// Whether a slice may have this many bytes.
fn is_size(size: u32) -> bool {
    1 <= size && u64::from(size) <= WINDOW
}
