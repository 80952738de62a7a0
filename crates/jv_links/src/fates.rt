//! What becomes of a file or a symlink that loses an entry.
ghost use Rattle.std.specs.Prelude.{◌≡◌, Ok};
ghost use Rattle.jv_rows_drafts.specs.Drafting.{Drafting};
ghost use Rattle.jv_rows_drafts.specs.Ready.{IsThere};
ghost use Rattle.jv_links.specs.Losses.{IsToTrash};
ghost use Rattle.jv_links.specs.Removals.{MayLose, SaysFate};
ghost use Rattle.jv_model.specs.promise.tree.Caller.{Caller};
ghost use Rattle.jv_model.specs.promise.tree.Removing as model;
ghost use Rattle.jv_model.specs.promise.tree.Trash.{trashed};
ghost use Rattle.jv_model.specs.promise.tree.Tree.{EntryKey};
ghost use Rattle.jv_rows.specs.Transactions.{IsFor};

use jv_model::{Fault, Gone, Moment, Name, TRASH_ROOT, TxFault, Who};
use jv_outside::Keeper;
use jv_rows::{Draft, needed_setting};
use jv_rows_drafts::{
    change_status, drop_node, enter_hour, put_entry, sustain, take_entry, trash_name,
};
use std::alloc::Global;

/// What becomes of a file or a symlink that loses an entry.
#[derive(Clone, Copy, Debug, PartialEq, Eq)]
pub enum Fate {
    /// It has other entries.
    Linked,
    /// It has its last entry in the trash now.
    Trashed,
    /// It is gone; a file's lists are still to go.
    Dropped,
    /// The caller's session keeps it without an entry.
    Sustained,
}

/// An inode that lost an entry.
#[derive(Clone, Copy, Debug, PartialEq, Eq)]
pub struct Removed {
    pub inode: u64,
    pub fate: Fate,
}

// What becomes of a file or a symlink that is about to lose its entry in a directory.
fn fate_of<K: Keeper>(
    alloc: Global,
    draft: &Draft,
    k: &mut K,
    who: &Who,
    dir: u64,
    inode: u64,
) -> Result<Fate, TxFault>
    ensures does { (caller : Caller) (place : EntryKey) → place.dir ≡ dir
        → IsFor who.entry.now caller
        → Drafting (λ t. MayLose t caller place inode) draft.now draft.now
        (K.seen k.old) (K.seen k.new) result (λ t. Ok t) }
    ensures says { (caller : Caller) (place : EntryKey) → place.dir ≡ dir
        → IsFor who.entry.now caller
        → SaysFate caller place inode draft.now (K.seen k.old) result }
{
    let Some(node) = draft.node(k, inode)? else {
        return Err(TxFault::Refused(Fault::Stale(Gone::Node(inode))));
    };
    if node.nlink > 1 {
        return Ok(Fate::Linked);
    }
    let setting = needed_setting(alloc, k, draft)?;
    if setting.trash_days > 0 && dir < TRASH_ROOT {
        Ok(Fate::Trashed)
    } else if who.held.as_slice().contains(&inode) {
        Ok(Fate::Sustained)
    } else {
        Ok(Fate::Dropped)
    }
}

// Adds an entry in the trash, in the directory of the moment's hour, of what lost its last entry.
fn trash<K: Keeper>(
    alloc: Global,
    draft: &mut Draft,
    k: &mut K,
    now: Moment,
    dir: u64,
    name: &Name,
    inode: u64,
) -> Result<(), TxFault>
    ensures { Drafting (λ t. IsToTrash t now (record { dir = dir; name = name.now }) inode)
        draft.old draft.new (K.seen k.old) (K.seen k.new) result
        (λ t. Ok (trashed t now (record { dir = dir; name = name.now }) inode)) }
{
    let hour = enter_hour(alloc, draft, k, now)?;
    let name = trash_name(alloc, dir, name, inode)?;
    put_entry(draft, k, now, hour, &name, inode)?;
    change_status(draft, k, now, inode)
}

// Adds that the caller's session keeps what lost its last entry.
fn keep<K: Keeper>(draft: &mut Draft, k: &mut K, who: &Who, inode: u64) -> Result<(), TxFault>
    ensures { (caller : Caller) → IsFor who.entry.now caller
        → Drafting (IsThere inode) draft.old draft.new
        (K.seen k.old) (K.seen k.new) result (λ t. Ok (model.sustained_by t caller inode)) }
{
    change_status(draft, k, who.now, inode)?;
    sustain(draft, k, who.sid, inode)
}

/// Takes away the entry of a name in a directory, which names this file or symlink, and makes of that what its fate is: it is
/// the only step so far.
///
/// # Errors
///
/// Stale where a node isn't there. Bad for a malformed row, and without bytes where the volume has no setting or no counters.
/// Failed if the keeper failed, Memory.
pub fn remove_entry<K: Keeper>(
    alloc: Global,
    draft: &mut Draft,
    k: &mut K,
    who: &Who,
    dir: u64,
    name: &Name,
    inode: u64,
) -> Result<Fate, TxFault>
    ensures does { (caller : Caller) → IsFor who.entry.now caller
        → Drafting (λ t. MayLose t caller (record { dir = dir; name = name.now }) inode)
        draft.old draft.new (K.seen k.old) (K.seen k.new) result
        (λ t. Ok (model.remove_entry t caller (record { dir = dir; name = name.now }) inode)) }
    ensures says { (caller : Caller) → IsFor who.entry.now caller
        → SaysFate caller (record { dir = dir; name = name.now }) inode draft.old
        (K.seen k.old) result }
{
    let fate = fate_of(alloc, draft, k, who, dir, inode)?;
    take_entry(draft, k, who.now, dir, name, inode)?;
    match fate {
        Fate::Linked => change_status(draft, k, who.now, inode)?,
        Fate::Trashed => trash(alloc, draft, k, who.now, dir, name, inode)?,
        Fate::Sustained => keep(draft, k, who, inode)?,
        Fate::Dropped => drop_node(alloc, draft, k, inode)?,
    }
    Ok(fate)
}
