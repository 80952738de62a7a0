//! Entries removed, by POSIX.1-2017's "unlinkat" and "rmdir".
ghost use Rattle.jv_links.specs.Removable.{ComesToRemovable, removable_at, unlinked};
ghost use Rattle.jv_links.specs.Removals.{HoldsFiles, SaysRemoved, SaysSustained, removed_in};
ghost use Rattle.jv_model.specs.declared.op.Reply.TheVariants.{Done};
ghost use Rattle.jv_model.specs.promise.tree.Caller.{Caller};
ghost use Rattle.jv_model.specs.promise.tree.Removing as model;
ghost use Rattle.jv_rows.specs.Transactions.{IsFor, Transacts, Always};

use crate::emptiness::has_entries;
use crate::ends::may_go;
use crate::fates::{Removed, remove_entry};
use jv_model::{Fault, Name, Path, RowFault, TxFault, Who};
use jv_outside::Keeper;
use jv_rows::{Draft, Place, child, in_session, walk_to_entry};
use jv_rows_drafts::{drop_node, take_entry};
use std::alloc::Global;

/// An entry that may be removed, with the node that it names.
#[derive(Debug, Drop)]
pub(crate) struct Removable {
    pub(crate) dir: u64,
    pub(crate) name: Name,
    pub(crate) node: Place,
}

// The entry that a path names, where it is there and may be removed.
fn find_removable<K: Keeper>(
    alloc: Global,
    k: &mut K,
    sid: u64,
    path: &Path,
) -> Result<Removable, TxFault>
    ensures { ComesToRemovable (K.seen k.old) (K.seen k.new) result
        (λ t. removable_at t sid path.now) }
{
    in_session(alloc, k, sid)?;
    let place = walk_to_entry(alloc, k, path)?;
    if !may_go(&place) {
        return Err(TxFault::Refused(Fault::NotPermitted));
    }
    let node = child(alloc, k, place.dir.inode, &place.name)?;
    Ok(Removable {
        dir: place.dir.inode,
        name: place.name,
        node,
    })
}

/// Removes the entry of a file or a symlink, and returns what became of that. POSIX.1-2017, unlinkat; JuiceFS, Trash.
///
/// # Errors
///
/// Stale where the session is gone, a walk's to the entry's directory, NotPermitted for `.trash`, its hours and
/// directories, and NotFound where there is no such entry. Bad for a row that is malformed or names none, and without
/// bytes where the volume has no setting or no counters. Failed if the keeper failed, Memory. On error no row has changed.
pub fn unlink<K: Keeper>(
    alloc: Global,
    k: &mut K,
    who: &Who,
    path: &Path,
) -> Result<Removed, TxFault>
    ensures does { (caller : Caller) → IsFor who.entry.now caller
        → Transacts (HoldsFiles caller.held) (K.seen k.old) (K.seen k.new)
        result (λ removed. Done) (λ t. model.unlink t caller path.now) }
    ensures says { (caller : Caller) → IsFor who.entry.now caller
        → SaysSustained caller.sid (HoldsFiles caller.held) (K.seen k.old) (removed_in result)
        (λ t. model.unlink t caller path.now) }
    ensures answers { (caller : Caller) → IsFor who.entry.now caller
        → SaysRemoved (HoldsFiles caller.held) (K.seen k.old) (removed_in result)
        (λ t. unlinked t caller path.now) }
{
    let entry = find_removable(alloc, k, who.sid, path)?;
    if entry.node.node.kind == 2 {
        return Err(TxFault::Refused(Fault::NotPermitted));
    }
    // The trash has hours up to the clock's last moment: the call's clause says that no moment is after it.
    let _ = who.now.seconds();
    let inode = entry.node.inode;
    let mut draft = Draft::new(alloc);
    let fate = remove_entry(alloc, &mut draft, k, who, entry.dir, &entry.name, inode)?;
    match draft.commit(k) {
        Ok(()) => Ok(Removed { inode, fate }),
        Err(down) => Err(TxFault::Rows(RowFault::from(down))),
    }
}

/// Removes an empty directory. POSIX.1-2017, unlinkat with AT_REMOVEDIR.
///
/// # Errors
///
/// As of [`unlink`], but NotADirectory for what isn't one, and DirectoryNotEmpty where it has entries.
pub fn rmdir<K: Keeper>(alloc: Global, k: &mut K, who: &Who, path: &Path) -> Result<(), TxFault>
    ensures { (caller : Caller) → IsFor who.entry.now caller
        → Transacts Always (K.seen k.old) (K.seen k.new)
        result (λ unit. Done) (λ t. model.rmdir t caller path.now) }
{
    let entry = find_removable(alloc, k, who.sid, path)?;
    if entry.node.node.kind != 2 {
        return Err(TxFault::Refused(Fault::NotADirectory));
    }
    let inode = entry.node.inode;
    if has_entries(alloc, k, inode)? {
        return Err(TxFault::Refused(Fault::DirectoryNotEmpty));
    }
    let mut draft = Draft::new(alloc);
    take_entry(&mut draft, k, who.now, entry.dir, &entry.name, inode)?;
    drop_node(alloc, &mut draft, k, inode)?;
    match draft.commit(k) {
        Ok(()) => Ok(()),
        Err(down) => Err(TxFault::Rows(RowFault::from(down))),
    }
}
