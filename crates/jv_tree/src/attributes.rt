//! Changes of attributes, by POSIX.1-2017's "fchmodat", "fchownat" and "utimensat".
ghost use Rattle.std.specs.Prelude.{◌≤◌, IsTrue};
ghost use Rattle.jv_model.specs.declared.limits.TheConstants.{MAX_MODE};
ghost use Rattle.jv_model.specs.declared.op.Reply.TheVariants as reply;
ghost use Rattle.jv_model.specs.promise.tree.Caller.{Caller};
ghost use Rattle.jv_model.specs.promise.tree.Reading as model;
ghost use Rattle.jv_model.specs.promise.rows.RowGrammar.{is_node};
ghost use Rattle.jv_rows.specs.Walks.{Comes};
ghost use Rattle.jv_tree.specs.Attributes.{PutsNode, changeable_inode};
ghost use Rattle.jv_rows.specs.Transactions.{IsFor, Transacts, Always};

use jv_model::{Fault, Node, Path, RowFault, TRASH_ROOT, TxFault, Who};
use jv_outside::Keeper;
use jv_rows::{Draft, Place, in_session, walk_to};
use std::alloc::Global;

/// The node that a path leads to, which is neither the trash nor one of its hours: these keep their
/// attributes.
fn changeable<K: Keeper>(alloc: Global, k: &mut K, sid: u64, path: &Path) -> Result<Place, TxFault>
    ensures { Comes (K.seen k.old) (K.seen k.new) result (λ t. changeable_inode t sid path.now) }
{
    in_session(alloc, k, sid)?;
    let place = walk_to(alloc, k, path, true)?;
    if place.inode >= TRASH_ROOT {
        return Err(TxFault::Refused(Fault::NotPermitted));
    }
    Ok(place)
}

/// Stores the row of a node.
fn store<K: Keeper>(alloc: Global, k: &mut K, inode: u64, node: &Node) -> Result<(), TxFault>
    requires { IsTrue (is_node node.now) }
    ensures { PutsNode inode node.now (K.seen k.old) (K.seen k.new) result }
{
    let mut draft = Draft::new(alloc);
    draft.put_node(inode, node)?;
    draft.commit(k).map_err(RowFault::from)?;
    Ok(())
}

/// Sets the permission bits of what a path leads to, at most [`jv_model::MAX_MODE`]. POSIX.1-2017, fchmodat.
///
/// # Errors
///
/// Stale where the session is gone, then as of [`walk_to`], and NotPermitted for the trash and its hours. Failed if the
/// keeper failed. Memory. On error no row has changed.
pub fn chmod<K: Keeper>(
    alloc: Global,
    k: &mut K,
    who: &Who,
    path: &Path,
    mode: u16,
) -> Result<(), TxFault>
    requires { mode ≤ MAX_MODE }
    ensures { (caller : Caller) → IsFor who.entry.now caller
        → Transacts Always (K.seen k.old) (K.seen k.new)
        result (λ unit. reply.Done) (λ t. model.chmod t caller path.now mode) }
{
    let place = changeable(alloc, k, who.sid, path)?;
    let ctime = who.now.seconds();
    let node = Node {
        mode,
        ctime,
        ..place.node
    };
    store(alloc, k, place.inode, &node)
}

/// Sets the owner and the group of what a path leads to. POSIX.1-2017, fchownat.
///
/// # Errors
///
/// As of [`chmod`].
pub fn chown<K: Keeper>(
    alloc: Global,
    k: &mut K,
    who: &Who,
    path: &Path,
    uid: u32,
    gid: u32,
) -> Result<(), TxFault>
    ensures { (caller : Caller) → IsFor who.entry.now caller
        → Transacts Always (K.seen k.old) (K.seen k.new)
        result (λ unit. reply.Done) (λ t. model.chown t caller path.now uid gid) }
{
    let place = changeable(alloc, k, who.sid, path)?;
    let ctime = who.now.seconds();
    let node = Node {
        uid,
        gid,
        ctime,
        ..place.node
    };
    store(alloc, k, place.inode, &node)
}

/// Sets the time of the last modification of what a path leads to, in seconds. POSIX.1-2017, utimensat.
///
/// # Errors
///
/// As of [`chmod`].
pub fn utimes<K: Keeper>(
    alloc: Global,
    k: &mut K,
    who: &Who,
    path: &Path,
    mtime: u64,
) -> Result<(), TxFault>
    ensures { (caller : Caller) → IsFor who.entry.now caller
        → Transacts Always (K.seen k.old) (K.seen k.new)
        result (λ unit. reply.Done) (λ t. model.utimes t caller path.now mtime) }
{
    let place = changeable(alloc, k, who.sid, path)?;
    let ctime = who.now.seconds();
    let node = Node {
        mtime,
        ctime,
        ..place.node
    };
    store(alloc, k, place.inode, &node)
}
