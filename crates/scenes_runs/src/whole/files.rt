//! Files, what their lists show past their ends, and what is left of removed ones.
use crate::whole::stop::{Stop, expect};
use crate::whole::tables::{FILE, Tables, WindowList};
use jv_model::{FILE_END, Rec, WINDOW};

/// Files aren't too long, lists belong to files or removed ones and show nothing past their end, and no node has the
/// inode of a removed file.
pub fn check_files(tables: &Tables) -> Result<(), Stop> {
    check_lengths(tables)?;
    check_lists(tables)?;
    check_dropped(tables)
}

fn check_lengths(tables: &Tables) -> Result<(), Stop> {
    for node in tables.nodes.values() {
        expect(
            node.kind != FILE || node.length <= FILE_END,
            "a file is too long",
        )?;
    }
    Ok(())
}

fn check_lists(tables: &Tables) -> Result<(), Stop> {
    for window in tables.lists.as_slice() {
        check_list(tables, window)?;
    }
    Ok(())
}

fn check_list(tables: &Tables, window: &WindowList) -> Result<(), Stop> {
    match tables.nodes.get(&window.inode) {
        Some(node) if node.kind == FILE => expect(
            is_empty_from(window, node.length),
            "a list shows bytes past the end of its file",
        ),
        _ => expect(
            tables.dropped.contains(&window.inode),
            "a list belongs to no file",
        ),
    }
}

/// Whether a list shows only zeros from a position of its file on. What it shows changes only where a record begins or
/// ends.
fn is_empty_from(window: &WindowList, position: u64) -> bool {
    let start = window.window.saturating_mul(WINDOW);
    let from = position.saturating_sub(start);
    let records = window.list.as_slice();
    shows_zero(records, from)
        && records
            .iter()
            .all(|record| is_empty_at_ends(records, record, from))
}

/// Whether where a record begins and where it ends a zero is shown, if that is from a position on.
fn is_empty_at_ends(records: &[Rec], record: &Rec, from: u64) -> bool {
    let first = u64::from(record.pos);
    let end = end_of(record);
    (first < from || shows_zero(records, first)) && (end < from || shows_zero(records, end))
}

/// Whether a position of a window shows a zero: the last record that covers it names no slice, or none does.
fn shows_zero(records: &[Rec], position: u64) -> bool {
    let mut is_zero = true;
    for record in records {
        if u64::from(record.pos) <= position && position < end_of(record) {
            is_zero = record.id == 0;
        }
    }
    is_zero
}

/// Where a record ends in its window.
fn end_of(record: &Rec) -> u64 {
    u64::from(record.pos).saturating_add(u64::from(record.len))
}

fn check_dropped(tables: &Tables) -> Result<(), Stop> {
    for inode in tables.dropped.iter() {
        expect(
            !tables.nodes.contains_key(inode),
            "a removed file has a node",
        )?;
        expect(
            *inode < tables.counters.inode,
            "a removed file's inode isn't below the next one",
        )?;
    }
    Ok(())
}
