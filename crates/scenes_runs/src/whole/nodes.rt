//! Nodes: their numbers and links, the way from each directory up, and what they take.
use crate::whole::names::Names;
use crate::whole::stop::{Stop, expect};
use crate::whole::tables::{DIRECTORY, FILE, Tables};
use crate::whole::trash::is_hour;
use jv_model::{Node, READ_ONLY_MODE, ROOT, SPACE_UNIT, TRASH_ROOT};
use jv_rows::is_top;
use std::alloc::{AllocError, Global};
use std::collections::BTreeSet;

/// The root and the trash are directories whose parent is the root.
pub fn check_tops(tables: &Tables) -> Result<(), Stop> {
    expect(
        is_in_root(tables, ROOT),
        "the root is no directory whose parent is itself",
    )?;
    expect(
        is_in_root(tables, TRASH_ROOT),
        "the trash is no directory whose parent is the root",
    )
}

fn is_in_root(tables: &Tables, inode: u64) -> bool {
    match tables.nodes.get(&inode) {
        Some(node) => node.kind == DIRECTORY && node.parent == ROOT,
        None => false,
    }
}

/// Each node has an inode that was given, is reached by an entry or kept, and has the link count that its entries say.
pub fn check_nodes(tables: &Tables, names: &Names) -> Result<(), Stop> {
    for (inode, node) in tables.nodes.iter() {
        check_inode(tables, *inode, node)?;
        check_reached(tables, names, *inode, node)?;
        check_links(names, *inode, node)?;
    }
    Ok(())
}

/// An inode before the trash's is below the next one, and one behind it is an hour's directory, which is read-only and
/// root's.
fn check_inode(tables: &Tables, inode: u64, node: &Node) -> Result<(), Stop> {
    expect(
        inode >= TRASH_ROOT || inode < tables.counters.inode,
        "an inode isn't below the next one",
    )?;
    expect(
        inode <= TRASH_ROOT || is_hour_node(inode, node),
        "a node behind the trash is no directory of an hour",
    )?;
    expect(
        inode <= TRASH_ROOT || is_read_only(node),
        "a directory of an hour isn't read-only, or isn't root's",
    )
}

fn is_hour_node(inode: u64, node: &Node) -> bool {
    is_hour(inode) && node.kind == DIRECTORY && node.parent == TRASH_ROOT
}

/// Whether nobody may write in a directory, and root owns it.
fn is_read_only(node: &Node) -> bool {
    node.mode == READ_ONLY_MODE && node.uid == 0 && node.gid == 0
}

/// A directory has one entry, but for the root and the trash; another node has entries, or a session keeps it.
fn check_reached(tables: &Tables, names: &Names, inode: u64, node: &Node) -> Result<(), Stop> {
    let entries = names.of(inode);
    if node.kind == DIRECTORY {
        return expect(
            is_top(inode) || entries == 1,
            "a directory has no entry, or more than one",
        );
    }
    expect(
        entries > 0 || tables.keepers.contains_key(&inode),
        "a file or symlink has no entry, and no session keeps it",
    )
}

fn check_links(names: &Names, inode: u64, node: &Node) -> Result<(), Stop> {
    let is_right = u64::from(node.nlink) == names.links(inode, node);
    if node.kind == DIRECTORY {
        expect(
            is_right,
            "a directory's links aren't 2 and one for each directory in it",
        )
    } else {
        expect(
            is_right,
            "the links of a file or symlink aren't the number of its entries",
        )
    }
}

/// Each directory leads up to the root or the trash.
pub fn check_rooted(alloc: Global, tables: &Tables) -> Result<(), Stop> {
    let mut rooted = BTreeSet::new(alloc);
    climb_all(alloc, tables, &mut rooted)
}

fn climb_all(alloc: Global, tables: &Tables, rooted: &mut BTreeSet<u64>) -> Result<(), Stop> {
    rooted.insert(ROOT)?;
    rooted.insert(TRASH_ROOT)?;
    for (inode, node) in tables.nodes.iter() {
        if node.kind == DIRECTORY {
            climb(alloc, tables, *inode, rooted)?;
        }
    }
    Ok(())
}

/// Climbs from a directory to one that is known to lead up, and adds those on the way.
fn climb(
    alloc: Global,
    tables: &Tables,
    from: u64,
    rooted: &mut BTreeSet<u64>,
) -> Result<(), Stop> {
    let mut way = Vec::new(alloc);
    let mut dir = from;
    for _ in 0..=tables.nodes.len() {
        if rooted.contains(&dir) {
            add_all(rooted, way.as_slice())?;
            return Ok(());
        }
        way.push(dir)?;
        dir = tables.parent(dir);
    }
    Err(Stop::Flaw("a directory doesn't lead up to the root or the trash"))
}

fn add_all(all: &mut BTreeSet<u64>, more: &[u64]) -> Result<(), AllocError> {
    for inode in more {
        all.insert(*inode)?;
    }
    Ok(())
}

/// The counters have the space and the number of all nodes but the root and those of the trash.
pub fn check_sums(tables: &Tables) -> Result<(), Stop> {
    let mut space = 0u128;
    let mut inodes = 0u64;
    for (inode, node) in tables.nodes.iter() {
        if *inode != ROOT && *inode < TRASH_ROOT {
            space = space.saturating_add(u128::from(space_of(node)));
            inodes = inodes.saturating_add(1);
        }
    }
    expect(
        u128::from(tables.counters.used_space) == space,
        "used space isn't the sum of what nodes take",
    )?;
    expect(
        tables.counters.used_inodes == inodes,
        "used inodes aren't the number of nodes",
    )
}

/// The bytes that a node takes, in whole units, at least one.
fn space_of(node: &Node) -> u64 {
    match node.kind {
        FILE => node
            .length
            .div_ceil(SPACE_UNIT)
            .max(1)
            .saturating_mul(SPACE_UNIT),
        _ => SPACE_UNIT,
    }
}
