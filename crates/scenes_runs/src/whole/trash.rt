//! The trash, its hours, and what lies in these.
use crate::texts::text_of;
use crate::whole::names::Names;
use crate::whole::stop::{Stop, expect};
use crate::whole::tables::{Entry, Tables};
use jv_model::lifetimes::{FIRST_HOUR, HOUR};
use jv_model::{LAST_MOMENT, Moment, Name, Sequence, TRASH_ROOT};
use jv_rows_drafts::{hour_name, trash_name};
use std::alloc::{AllocError, Global};

/// Whether a directory is one of the trash's hours, whose inodes follow the trash's own.
pub fn is_hour(inode: u64) -> bool {
    TRASH_ROOT < inode && inode <= FIRST_HOUR
}

/// An entry of the trash is the directory of an hour, under the hour's name.
pub fn check_hour(entry: &Entry) -> Result<(), Stop> {
    let inode = entry.edge.inode;
    expect(is_hour(inode), "an entry of the trash is no hour")?;
    let name = hour_name(first_moment(inode));
    expect(
        entry.name.as_slice() == name.as_slice(),
        "an hour of the trash has another hour's name",
    )
}

/// The first moment of the hour that a directory of the trash is for.
fn first_moment(inode: u64) -> Moment {
    let hour = match inode {
        FIRST_HOUR => 0,
        _ => inode.saturating_sub(TRASH_ROOT),
    };
    Moment(hour.saturating_mul(HOUR).min(LAST_MOMENT))
}

/// An entry of an hour is no directory, has no other entry, and is named after the directory that it stood in, its inode
/// and its name there.
pub fn check_trashed(
    alloc: Global,
    tables: &Tables,
    names: &Names,
    entry: &Entry,
) -> Result<(), Stop> {
    let inode = entry.edge.inode;
    expect(
        !tables.is_directory(inode),
        "a directory lies in an hour of the trash",
    )?;
    expect(
        names.of(inode) == 1,
        "what lies in an hour of the trash has another entry",
    )?;
    expect(
        is_trash_name(alloc, entry)?,
        "what lies in an hour of the trash isn't named after its place and inode",
    )
}

/// Whether an entry's name is `PARENT-INODE-NAME` for its inode and some parent and name.
fn is_trash_name(alloc: Global, entry: &Entry) -> Result<bool, AllocError> {
    let name = entry.name.as_slice();
    let Some(parent) = leading_number(name) else {
        return Ok(false);
    };
    let nothing: Name = Sequence::new(alloc);
    let start = trash_name(alloc, parent, &nothing, entry.edge.inode)?;
    Ok(name.starts_with(start.as_slice()))
}

/// The number before the first `-` of a name.
fn leading_number(name: &[u8]) -> Option<u64> {
    let digits = name.split(|byte| *byte == b'-').next()?;
    text_of(digits).parse::<u64>().ok()
}
