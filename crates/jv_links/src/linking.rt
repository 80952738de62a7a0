//! Further entries of files and symlinks, by POSIX.1-2017's "linkat" without AT_SYMLINK_FOLLOW.
ghost use Rattle.std.specs.Prelude.{◌≡◌, ◌≤◌, IsTrue};
ghost use Rattle.jv_links.specs.Linkable.{linkable};
ghost use Rattle.jv_model.specs.promise.Lists.{has_no_zero};
ghost use Rattle.jv_model.specs.declared.limits.TheConstants.{MAX_LINKS};
ghost use Rattle.jv_model.specs.declared.op.Reply.TheVariants.{Done};
ghost use Rattle.jv_model.specs.promise.tree.Caller.{Caller};
ghost use Rattle.jv_model.specs.promise.tree.Making as model;
ghost use Rattle.jv_rows.specs.Transactions.{IsFor, Looks, Transacts, Always};

use jv_model::{Fault, Path, RowFault, TRASH_ROOT, TxFault, Who};
use jv_outside::Keeper;
use jv_rows::{Draft, in_session, walk_to, walk_to_entry};
use jv_rows_drafts::{change_status, put_entry};
use jv_tree::new_place;
use std::alloc::Global;

// The file or the symlink that a path leads to. What has an entry in the trash has no other, so the path's own entry shows
// whether there is one.
fn find_linkable<K: Keeper>(alloc: Global, k: &mut K, sid: u64, path: &Path) -> Result<u64, TxFault>
    ensures { Looks (K.seen k.old) (K.seen k.new) result (λ t. linkable t sid path.now) }
{
    in_session(alloc, k, sid)?;
    let node = walk_to(alloc, k, path, false)?;
    if node.node.kind == 2 {
        return Err(TxFault::Refused(Fault::NotPermitted));
    }
    let entry = walk_to_entry(alloc, k, path)?;
    if entry.dir.inode >= TRASH_ROOT {
        return Err(TxFault::Refused(Fault::NotPermitted));
    }
    Ok(node.inode)
}

// The links of a directory as its row has them, which are never too many: the proof needs the bound of their type, as an entry of
// a file or a symlink adds none to them.
fn stored_links(links: u32) -> u32
    ensures is { result ≡ links }
    ensures few { links ≤ MAX_LINKS }
{
    links
}

/// Adds an entry of a file or a symlink, which isn't followed. POSIX.1-2017, linkat.
///
/// # Errors
///
/// Stale where the session is gone, a walk's to the file or the symlink, NotPermitted for directories and in the trash,
/// as of [`new_place`] for the new entry, and NoSpace where the link count is full. Bad for a row that is malformed or
/// names none, Failed if the keeper failed, Memory. On error no row has changed.
pub fn link<K: Keeper>(
    alloc: Global,
    k: &mut K,
    who: &Who,
    path: &Path,
    to: &Path,
) -> Result<(), TxFault>
    requires { IsTrue (has_no_zero to.now) }
    ensures { (caller : Caller) → IsFor who.entry.now caller
        → Transacts Always (K.seen k.old) (K.seen k.new)
        result (λ unit. Done) (λ t. model.link t caller path.now to.now) }
{
    let inode = find_linkable(alloc, k, who.sid, path)?;
    let place = new_place(alloc, k, to)?;
    let _links = stored_links(place.dir.node.nlink);
    let mut draft = Draft::new(alloc);
    put_entry(&mut draft, k, who.now, place.dir.inode, &place.name, inode)?;
    change_status(&mut draft, k, who.now, inode)?;
    match draft.commit(k) {
        Ok(()) => Ok(()),
        Err(down) => Err(TxFault::Rows(RowFault::from(down))),
    }
}
