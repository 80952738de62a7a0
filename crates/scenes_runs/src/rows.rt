//! The rows of a keeper, before a run and after it.
use jv_model::row_bytes::RowBytes;
use jv_model::tables::{TABLE_OF_COUNTERS, TABLE_OF_DEAD, TABLE_OF_LISTS, TABLE_OF_SLICES};
use jv_model::{Moment, RowKey, Rows, Sequence, copied};
use jv_outside::{Change, MemKeeper};
use jv_rows::{default_setting, fresh_rows};
use scenes_text::{Altered, Scene};
use std::alloc::{AllocError, Global};

/// The tables whose rows name slices by their numbers: lists, slices and dead slices.
const OF_SLICES: [u8; 3] = [TABLE_OF_LISTS, TABLE_OF_SLICES, TABLE_OF_DEAD];

/// Where the number of the next slice stands in the counters' row: from which byte on, and before which.
const NEXT_SLICE: (usize, usize) = (8, 16);

/// The rows that a scene begins with. Of rows with one key the first stands.
pub fn rows(alloc: Global, scene: &Scene) -> Result<Rows, AllocError> {
    let mut rows = Sequence::new(alloc);
    for (key, bytes) in scene.rows.as_slice() {
        add_row(alloc, &mut rows, key, bytes.as_slice())?;
    }
    if scene.is_fresh {
        add_fresh(alloc, &mut rows)?;
    }
    Ok(rows)
}

/// The rows that a scene begins with, altered. Of rows with one key the first stands.
pub fn altered_rows(alloc: Global, scene: &Scene, altered: &Altered) -> Result<Rows, AllocError> {
    let mut all = Sequence::new(alloc);
    for (key, bytes) in altered.with.as_slice() {
        add_row(alloc, &mut all, key, bytes.as_slice())?;
    }
    add_rest(alloc, &mut all, &rows(alloc, scene)?, altered)?;
    Ok(all)
}

/// Adds rows but for those that are taken out.
fn add_rest(
    alloc: Global,
    all: &mut Rows,
    rows: &Rows,
    altered: &Altered,
) -> Result<(), AllocError> {
    for (key, bytes) in rows.as_slice() {
        if !altered.without.contains(key) {
            add_row(alloc, all, key, bytes.joined(alloc)?.as_slice())?;
        }
    }
    Ok(())
}

/// Adds the rows of a volume with the default setting that was formatted at moment 0.
fn add_fresh(alloc: Global, rows: &mut Rows) -> Result<(), AllocError> {
    let batch = fresh_rows(alloc, &default_setting(alloc)?, Moment(0))?;
    for change in batch.as_slice() {
        if let Change::Put(key, bytes) = change {
            add_row(alloc, rows, key, bytes.joined(alloc)?.as_slice())?;
        }
    }
    Ok(())
}

/// Adds a copy of a row.
fn add_row(alloc: Global, rows: &mut Rows, key: &RowKey, bytes: &[u8]) -> Result<(), AllocError> {
    let key = key.copied(alloc)?;
    rows.push((key, RowBytes::from_bytes(copied(alloc, bytes)?)?))
}

/// Adds the rows of a table of a keeper.
fn add_table(keeper: &mut MemKeeper, tab: u8, all: &mut Rows) -> Result<(), AllocError> {
    for row in keeper.rows_in(tab)?.into_vec() {
        all.push(row)?;
    }
    Ok(())
}

/// All rows of a keeper.
pub fn rows_of(alloc: Global, keeper: &mut MemKeeper) -> Result<Rows, AllocError> {
    let mut all = Sequence::new(alloc);
    for tab in 0..=u8::MAX {
        add_table(keeper, tab, &mut all)?;
    }
    Ok(all)
}

/// Rows as text, each in the form in which a scene has it.
pub fn rows_text(alloc: Global, rows: &Rows) -> Result<String, AllocError> {
    let mut text = String::new(alloc);
    for (key, value) in rows.as_slice() {
        push_row(alloc, &mut text, key, value.joined(alloc)?.as_slice())?;
    }
    Ok(text)
}

/// Rows as text but for numbers of slices: without the rows that name slices, and of the counters without the next
/// slice.
pub fn unnumbered_text(alloc: Global, rows: &Rows) -> Result<String, AllocError> {
    let mut text = String::new(alloc);
    for (key, value) in rows.as_slice() {
        push_unnumbered(alloc, &mut text, key, value.joined(alloc)?.as_slice())?;
    }
    Ok(text)
}

/// Adds a row but for numbers of slices.
fn push_unnumbered(
    alloc: Global,
    text: &mut String,
    key: &RowKey,
    value: &[u8],
) -> Result<(), AllocError> {
    if OF_SLICES.contains(&key.tab) {
        return Ok(());
    }
    if key.tab == TABLE_OF_COUNTERS {
        return push_row(
            alloc,
            text,
            key,
            without_next_slice(alloc, value)?.as_slice(),
        );
    }
    push_row(alloc, text, key, value)
}

/// The bytes of the counters' row without the number of the next slice.
fn without_next_slice(alloc: Global, counters: &[u8]) -> Result<Vec<u8>, AllocError> {
    let (first, end) = NEXT_SLICE;
    let mut bytes = Vec::new(alloc);
    for (place, byte) in counters.iter().enumerate() {
        if place < first || place >= end {
            bytes.push(*byte)?;
        }
    }
    Ok(bytes)
}

/// Adds a row as a line.
fn push_row(
    alloc: Global,
    text: &mut String,
    key: &RowKey,
    value: &[u8],
) -> Result<(), AllocError> {
    let tab = key.tab;
    let a = key.a;
    let b = digits(alloc, key.b.as_slice())?;
    let value = digits(alloc, value)?;
    writeln!(text, "row {tab} {a} {b} {value}")
}

/// Bytes in hexadecimal digits, or `-` for none.
fn digits(alloc: Global, bytes: &[u8]) -> Result<String, AllocError> {
    if bytes.is_empty() {
        String::from_str(alloc, "-")
    } else {
        hex::encode(alloc, bytes)
    }
}
