//! Files that a session keeps without entries: they go with their last handle, or with the session.
ghost use Rattle.std.specs.Prelude.{◌≡◌, Ok};
ghost use Rattle.jv_live.specs.Steps.{HasPair};
ghost use Rattle.jv_model.specs.declared.op.Reply.TheVariants.{Done};
ghost use Rattle.jv_model.specs.promise.tree.Caller.{Caller};
ghost use Rattle.jv_model.specs.promise.tree.Sessions as model;
ghost use Rattle.jv_rows.specs.Transactions.{IsFor, Looks, Transacts, Always};

use crate::scanning::next_kept;
use crate::steps::{end_session, let_go};
use jv_model::{RowFault, Sequence, TxFault, Who};
use jv_outside::Keeper;
use jv_rows::{Draft, in_session, key_of_sustained, read_node};
use jv_rows_drafts::drop_node;
use std::alloc::Global;

/// Looks whether the node of a file that the session keeps is there.
///
/// # Errors
///
/// Bad where the node's row is malformed, or for the pair's row where the node isn't there. Failed if the keeper
/// failed. Memory.
fn kept_node<K: Keeper>(alloc: Global, k: &mut K, sid: u64, inode: u64) -> Result<(), TxFault>
    requires { HasPair (K.seen k.old) sid inode }
    ensures { Looks (K.seen k.old) (K.seen k.new) result (λ t. Ok tt) }
{
    if read_node(alloc, k, inode)?.is_none() {
        let key = key_of_sustained(alloc, sid, inode)?;
        return Err(TxFault::Rows(RowFault::Bad(key, Sequence::new(alloc))));
    }
    Ok(())
}

/// Drops a file without entries, if the caller's session keeps it. POSIX.1-2017, close: a file without links goes with
/// its last descriptor. JuiceFS, Architecture: sessions.
///
/// # Errors
///
/// Stale where the session is gone. Bad where a row that is read is malformed, or the pair names a node that isn't
/// there, and without bytes where the volume has no counters. Failed if the keeper failed. Memory. On error no row has
/// changed.
pub fn release<K: Keeper>(alloc: Global, k: &mut K, who: &Who, inode: u64) -> Result<(), TxFault>
    ensures { (caller : Caller) → IsFor who.entry.now caller → caller.inode ≡ inode
        → Transacts Always (K.seen k.old) (K.seen k.new)
        result (λ unit. Done) (λ t. model.release t caller) }
{
    in_session(alloc, k, who.sid)?;
    let mut draft = Draft::new(alloc);
    if draft.sustained(k, who.sid, inode)?.is_none() {
        return Ok(());
    }
    kept_node(alloc, k, who.sid, inode)?;
    let_go(&mut draft, who.sid, inode)?;
    drop_node(alloc, &mut draft, k, inode)?;
    match draft.commit(k) {
        Ok(()) => Ok(()),
        Err(down) => Err(TxFault::Rows(RowFault::from(down))),
    }
}

/// Ends the caller's session, and drops the files that it keeps. JuiceFS, Architecture: sessions.
///
/// # Errors
///
/// Stale where the session is gone. Bad where a row that is read is malformed, or a pair names a node that isn't there,
/// and without bytes where the volume has no counters. Failed if the keeper failed. Memory. On error no row has changed.
pub fn close_session<K: Keeper>(alloc: Global, k: &mut K, who: &Who) -> Result<(), TxFault>
    ensures { (caller : Caller) → IsFor who.entry.now caller
        → Transacts Always (K.seen k.old) (K.seen k.new)
        result (λ unit. Done) (λ t. model.umount t caller) }
{
    in_session(alloc, k, who.sid)?;
    let mut draft = Draft::new(alloc);
    let mut after = None;
    while let Some(inode) = next_kept(alloc, k, who.sid, after)? {
        kept_node(alloc, k, who.sid, inode)?;
        let_go(&mut draft, who.sid, inode)?;
        drop_node(alloc, &mut draft, k, inode)?;
        after = Some(inode);
    }
    end_session(&mut draft, who.sid)?;
    match draft.commit(k) {
        Ok(()) => Ok(()),
        Err(down) => Err(TxFault::Rows(RowFault::from(down))),
    }
}
