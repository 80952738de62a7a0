//! Entries that come and go, with the times and the link counts of their directories and their nodes.
ghost use Rattle.std.specs.Prelude.{◌≡◌, ◌-◌, Ok};
ghost use Rattle.jv_rows_drafts.specs.Drafting.{Drafting};
ghost use Rattle.jv_rows_drafts.specs.Present.{links_to_node, linked_row, Rises};
ghost use Rattle.jv_volume.specs.Stored.{links_by, directory_touched};
ghost use Rattle.jv_rows_drafts.specs.Ready.{StandsAt, MayStandAt, entry_put};
ghost use Rattle.jv_model.specs.promise.tree.Changes as model;

use crate::nodes::present;
use jv_model::{Edge, Fault, Moment, Name, Node, TxFault};
use jv_outside::Keeper;
use jv_rows::Draft;

// What an entry of an inode of this kind adds to the link count of its directory.
fn links_of_directory(kind: u8) -> u32
    ensures { result ≡ links_by kind }
{
    if kind == 2 { 1 } else { 0 }
}

// What an entry of an inode of this kind adds to the link count of the inode: directories within count for a directory.
fn links_of_node(kind: u8) -> u32
    ensures { result ≡ links_to_node kind }
{
    if kind == 2 { 0 } else { 1 }
}

// A directory whose entries changed at a moment, with its links since then.
fn touched(parent: Node, now: Moment, nlink: u32) -> Node
    ensures { result ≡ directory_touched now nlink parent }
{
    Node {
        nlink,
        mtime: now.seconds(),
        ctime: now.seconds(),
        ..parent
    }
}

// A directory that an entry of an inode of this kind left at a moment.
fn without_entry(parent: Node, now: Moment, kind: u8) -> Node
    ensures { result ≡ directory_touched now (parent.nlink - links_by kind) parent }
{
    let nlink = parent.nlink.saturating_sub(links_of_directory(kind));
    touched(parent, now, nlink)
}

// A node that an entry of it left.
fn unlinked(node: Node) -> Node
    ensures { result ≡ linked_row (node.nlink - links_to_node node.kind) node }
{
    Node {
        nlink: node.nlink.saturating_sub(links_of_node(node.kind)),
        ..node
    }
}

// A directory that gets an entry of an inode of this kind at a moment; refused where its link count is full.
fn with_entry(parent: Node, now: Moment, kind: u8) -> Result<Node, Fault>
    ensures { Rises parent (links_by kind) (λ links. directory_touched now links parent) result }
{
    let nlink = parent.nlink.checked_add(links_of_directory(kind));
    Ok(touched(parent, now, nlink.ok_or(Fault::NoSpace)?))
}

// A node that gets an entry; refused where its link count is full.
fn linked(node: Node) -> Result<Node, Fault>
    ensures { Rises node (links_to_node node.kind) (λ links. linked_row links node) result }
{
    let nlink = node.nlink.checked_add(links_of_node(node.kind));
    Ok(Node {
        nlink: nlink.ok_or(Fault::NoSpace)?,
        ..node
    })
}

/// Takes away the entry of a name in a directory, which names this inode.
///
/// # Errors
///
/// Stale where the directory or the node isn't there. Bad for a malformed row of theirs, Failed if the keeper failed,
/// Memory.
pub fn take_entry<K: Keeper>(
    draft: &mut Draft,
    k: &mut K,
    now: Moment,
    dir: u64,
    name: &Name,
    inode: u64,
) -> Result<(), TxFault>
    ensures { Drafting (λ t. StandsAt t (record { dir = dir; name = name.now }) inode)
        draft.old draft.new (K.seen k.old) (K.seen k.new) result
        (λ t. Ok (model.take_entry t now (record { dir = dir; name = name.now }))) }
{
    let node = present(draft, k, inode)?;
    let parent = present(draft, k, dir)?;
    let parent = without_entry(parent, now, node.kind);
    let node = unlinked(node);
    draft.drop_edge(dir, name)?;
    draft.put_node(dir, &parent)?;
    draft.put_node(inode, &node)?;
    Ok(())
}

/// Adds an entry of a name in a directory, which names this inode.
///
/// # Errors
///
/// NoSpace where the link count of the directory or of the node is at its greatest number. Stale where the directory or
/// the node isn't there. Bad for a malformed row of theirs, Failed if the keeper failed, Memory.
pub fn put_entry<K: Keeper>(
    draft: &mut Draft,
    k: &mut K,
    now: Moment,
    dir: u64,
    name: &Name,
    inode: u64,
) -> Result<(), TxFault>
    ensures { Drafting (λ t. MayStandAt t (record { dir = dir; name = name.now }) inode)
        draft.old draft.new (K.seen k.old) (K.seen k.new) result
        (entry_put now (record { dir = dir; name = name.now }) inode) }
{
    let node = present(draft, k, inode)?;
    let parent = present(draft, k, dir)?;
    let edge = Edge {
        kind: node.kind,
        inode,
    };
    let parent = with_entry(parent, now, node.kind)?;
    let node = linked(node)?;
    draft.put_edge(dir, name, &edge)?;
    draft.put_node(dir, &parent)?;
    draft.put_node(inode, &node)?;
    Ok(())
}
