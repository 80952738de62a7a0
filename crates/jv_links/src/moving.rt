//! Entries that move to a free place.
ghost use Rattle.std.specs.Prelude.{None, Ok};
ghost use Rattle.jv_rows_drafts.specs.Drafting.{Drafting};
ghost use Rattle.jv_links.specs.Moves.{EndsStand, IsFreeMove, MayMove, Renames, moved_within};
ghost use Rattle.jv_tree.specs.Entering.{place_of};
ghost use Rattle.jv_model.specs.declared.basics.How.{How};
ghost use Rattle.jv_model.specs.promise.tree.Caller.{Caller};
ghost use Rattle.jv_model.specs.promise.tree.Renaming as model;
ghost use Rattle.jv_rows.specs.Transactions.{IsFor};

use crate::climbing::is_inside;
use crate::ends::Ends;
use crate::fates::Removed;
use jv_model::{Fault, MAX_LINKS, Moment, RowFault, TxFault, Who};
use jv_outside::Keeper;
use jv_rows::{Draft, EntryPlace};
use jv_rows_drafts::{move_under, put_entry, take_entry};
use std::alloc::Global;

/// Moves an inode from its entry to a place where none is.
///
/// # Errors
///
/// NoSpace where the link count of the other directory is at its greatest number, and as of the changes that it is made of.
pub(crate) fn move_entry<K: Keeper>(
    draft: &mut Draft,
    k: &mut K,
    now: Moment,
    from: &EntryPlace,
    source: u64,
    to: &EntryPlace,
) -> Result<(), TxFault>
    ensures { Drafting (λ t. MayMove t (place_of from.now) source (place_of to.now))
        draft.old draft.new (K.seen k.old) (K.seen k.new) result
        (moved_within now (place_of from.now) source (place_of to.now)) }
{
    take_entry(draft, k, now, from.dir.inode, &from.name, source)?;
    put_entry(draft, k, now, to.dir.inode, &to.name, source)?;
    move_under(draft, k, now, to.dir.inode, source)
}

/// Renames an entry to a place where none is.
///
/// # Errors
///
/// Invalid where a directory would move into itself, and as of [`is_inside`] and [`move_entry`].
pub(crate) fn move_to_free<K: Keeper>(
    alloc: Global,
    k: &mut K,
    who: &Who,
    ends: &Ends,
) -> Result<Option<Removed>, TxFault>
    requires { EndsStand (K.seen k.old) ends.now }
    ensures { (caller : Caller) (how : How) → IsFor who.entry.now caller
        → Renames caller.sid
        (λ t. IsFreeMove t caller.sid how (place_of ends.now.from) ends.now.source.inode
        (place_of ends.now.to)) (K.seen k.old) (K.seen k.new) result
        (λ t. model.renamed t caller (place_of ends.now.from) ends.now.source.inode
        (place_of ends.now.to)) (λ t. Ok None) }
{
    prove!(ends.from.dir.node.nlink <= MAX_LINKS);
    prove!(ends.source.node.nlink <= MAX_LINKS);
    if is_inside(alloc, k, &ends.to.dir, &ends.source)? {
        return Err(TxFault::Refused(Fault::Invalid));
    }
    let mut draft = Draft::new(alloc);
    move_entry(
        &mut draft,
        k,
        who.now,
        &ends.from,
        ends.source.inode,
        &ends.to,
    )?;
    match draft.commit(k) {
        Ok(()) => Ok(None),
        Err(down) => Err(TxFault::Rows(RowFault::from(down))),
    }
}
