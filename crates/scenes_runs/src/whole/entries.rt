//! The entries of directories.
use crate::whole::names::Names;
use crate::whole::stop::{Stop, expect};
use crate::whole::tables::{DIRECTORY, Entry, Tables};
use crate::whole::trash::{check_hour, check_trashed, is_hour};
use jv_model::{Node, TRASH_ROOT};
use jv_rows::is_top;
use std::alloc::Global;

/// Each entry stands in a directory and names a node of its kind, and in the trash what its place asks for.
pub fn check_entries(alloc: Global, tables: &Tables, names: &Names) -> Result<(), Stop> {
    for entry in tables.entries.as_slice() {
        check_entry(tables, entry)?;
        check_place(alloc, tables, names, entry)?;
    }
    Ok(())
}

fn check_entry(tables: &Tables, entry: &Entry) -> Result<(), Stop> {
    let inode = entry.edge.inode;
    let Some(node) = tables.nodes.get(&inode) else {
        return Err(Stop::Flaw("an entry names a node that isn't there"));
    };
    expect(
        node.kind == entry.edge.kind,
        "an entry has another kind than its node",
    )?;
    expect(!is_top(inode), "an entry names the root or the trash")?;
    expect(
        tables.is_directory(entry.dir),
        "an entry stands in no directory",
    )?;
    expect(
        is_in_parent(node, entry),
        "an entry of a directory isn't in its parent",
    )
}

/// Whether an entry of this node, if that is a directory, stands in its parent.
fn is_in_parent(node: &Node, entry: &Entry) -> bool {
    node.kind != DIRECTORY || node.parent == entry.dir
}

/// Checks what the trash and its hours ask of their entries.
fn check_place(alloc: Global, tables: &Tables, names: &Names, entry: &Entry) -> Result<(), Stop> {
    if entry.dir == TRASH_ROOT {
        check_hour(entry)
    } else if is_hour(entry.dir) {
        check_trashed(alloc, tables, names, entry)
    } else {
        Ok(())
    }
}
