//! Entries that are replaced by another one.
ghost use Rattle.std.specs.Prelude.{◌≢◌, ◌==◌, Ok};
ghost use Rattle.jv_rows_drafts.specs.Drafting.{Drafting};
ghost use Rattle.jv_links.specs.Moves.{EndsStand, IsOverMove, Renames, Stands};
ghost use Rattle.jv_tree.specs.Entering.{place_of};
ghost use Rattle.jv_links.specs.Replacements.{MayClear, SaysCleared, cleared, may_replace as asked};
ghost use Rattle.jv_model.specs.declared.basics.How.{How};
ghost use Rattle.jv_model.specs.promise.tree.Caller.{Caller};
ghost use Rattle.jv_model.specs.promise.tree.Renaming as model;
ghost use Rattle.jv_rows.specs.Transactions.{IsFor, Looks};

use crate::climbing::is_inside;
use crate::emptiness::has_entries;
use crate::ends::Ends;
use crate::fates::{Removed, remove_entry};
use crate::moving::move_entry;
use jv_model::{Fault, MAX_LINKS, RowFault, TxFault, Who};
use jv_outside::Keeper;
use jv_rows::{Draft, EntryPlace, Place};
use jv_rows_drafts::{drop_node, take_entry};
use std::alloc::Global;

// Whether an inode may stand in place of another one. No row changes.
fn may_replace<K: Keeper>(
    alloc: Global,
    k: &mut K,
    ends: &Ends,
    other: &Place,
) -> Result<(), TxFault>
    requires ends { EndsStand (K.seen k.old) ends.now }
    requires other { Stands (K.seen k.old) other.now }
    ensures { Looks (K.seen k.old) (K.seen k.new) result
        (λ t. asked t ends.now.to.dir.inode ends.now.source.inode other.now.inode) }
{
    if is_inside(alloc, k, &ends.to.dir, &ends.source)? {
        return Err(TxFault::Refused(Fault::Invalid));
    }
    if other.node.kind != 2 {
        if ends.source.node.kind == 2 {
            return Err(TxFault::Refused(Fault::NotADirectory));
        }
        return Ok(());
    }
    if ends.source.node.kind != 2 {
        return Err(TxFault::Refused(Fault::IsADirectory));
    }
    if has_entries(alloc, k, other.inode)? {
        return Err(TxFault::Refused(Fault::DirectoryNotEmpty));
    }
    Ok(())
}

// Removes what a rename replaces: a file or a symlink as by an unlink, an empty directory as by an rmdir.
fn remove_target<K: Keeper>(
    alloc: Global,
    draft: &mut Draft,
    k: &mut K,
    who: &Who,
    to: &EntryPlace,
    other: &Place,
) -> Result<Option<Removed>, TxFault>
    ensures does { (caller : Caller) → IsFor who.entry.now caller
        → Drafting (λ t. MayClear t caller (place_of to.now) other.now.inode
        (other.now.node.kind == 2)) draft.old draft.new (K.seen k.old) (K.seen k.new) result
        (λ t. Ok (model.without_target t caller (place_of to.now) other.now.inode)) }
    ensures says { (caller : Caller) → IsFor who.entry.now caller
        → SaysCleared caller (place_of to.now) other.now.inode (other.now.node.kind == 2)
        draft.old (K.seen k.old) result }
{
    let inode = other.inode;
    if other.node.kind == 2 {
        take_entry(draft, k, who.now, to.dir.inode, &to.name, inode)?;
        drop_node(alloc, draft, k, inode)?;
        return Ok(None);
    }
    let fate = remove_entry(alloc, draft, k, who, to.dir.inode, &to.name, inode)?;
    Ok(Some(Removed { inode, fate }))
}

/// Renames an entry over another one, which names another inode.
///
/// # Errors
///
/// Invalid where a directory would move into itself, NotADirectory for a directory over a file, IsADirectory for a file over a
/// directory, DirectoryNotEmpty where that has entries, and as of [`is_inside`], [`has_entries`], [`drop_node`],
/// [`remove_entry`] and [`move_entry`].
pub(crate) fn replace<K: Keeper>(
    alloc: Global,
    k: &mut K,
    who: &Who,
    ends: &Ends,
    other: &Place,
) -> Result<Option<Removed>, TxFault>
    requires ends { EndsStand (K.seen k.old) ends.now }
    requires other { Stands (K.seen k.old) other.now }
    requires apart { ends.now.source.inode ≢ other.now.inode }
    ensures { (caller : Caller) (how : How) → IsFor who.entry.now caller
        → Renames caller.sid
        (λ t. IsOverMove t caller how (place_of ends.now.from) ends.now.source.inode
        (place_of ends.now.to) other.now.inode)
        (K.seen k.old) (K.seen k.new) result
        (λ t. model.replacing t caller (place_of ends.now.from) ends.now.source.inode
        (place_of ends.now.to) other.now.inode)
        (λ t. Ok (cleared t caller (place_of ends.now.to) other.now.inode)) }
{
    may_replace(alloc, k, ends, other)?;
    prove!(ends.from.dir.node.nlink <= MAX_LINKS);
    prove!(ends.source.node.nlink <= MAX_LINKS);
    // The trash has hours up to the clock's last moment: the call's clause says that no moment is after it.
    let _ = who.now.seconds();
    let mut draft = Draft::new(alloc);
    let removed = remove_target(alloc, &mut draft, k, who, &ends.to, other)?;
    let source = ends.source.inode;
    move_entry(&mut draft, k, who.now, &ends.from, source, &ends.to)?;
    match draft.commit(k) {
        Ok(()) => Ok(removed),
        Err(down) => Err(TxFault::Rows(RowFault::from(down))),
    }
}
