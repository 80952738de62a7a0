//! Entries that change places.
ghost use Rattle.std.specs.Prelude.{◌≢◌, None, Ok};
ghost use Rattle.jv_rows_drafts.specs.Drafting.{Drafting};
ghost use Rattle.jv_rows_drafts.specs.Ready.{MayStandAt};
ghost use Rattle.jv_links.specs.Exchanges.{MayExchange, entry_moved, exchanged_within};
ghost use Rattle.jv_links.specs.Moves.{EndsStand, IsOverMove, Renames, Stands};
ghost use Rattle.jv_tree.specs.Entering.{place_of};
ghost use Rattle.jv_model.specs.declared.basics.How.TheVariants.{Exchange};
ghost use Rattle.jv_model.specs.promise.tree.Caller.{Caller};
ghost use Rattle.jv_model.specs.promise.tree.Renaming as model;
ghost use Rattle.jv_rows.specs.Transactions.{IsFor};

use crate::climbing::is_inside;
use crate::ends::Ends;
use crate::fates::Removed;
use jv_model::{Fault, MAX_LINKS, Moment, RowFault, TxFault, Who};
use jv_outside::Keeper;
use jv_rows::{Draft, EntryPlace, Place};
use jv_rows_drafts::{move_under, put_entry, take_entry};
use std::alloc::Global;

// Puts an entry of an inode that comes from elsewhere.
fn move_in<K: Keeper>(
    draft: &mut Draft,
    k: &mut K,
    now: Moment,
    place: &EntryPlace,
    inode: u64,
) -> Result<(), TxFault>
    ensures { Drafting (λ t. MayStandAt t (place_of place.now) inode) draft.old draft.new
        (K.seen k.old) (K.seen k.new) result (entry_moved now (place_of place.now) inode) }
{
    put_entry(draft, k, now, place.dir.inode, &place.name, inode)?;
    move_under(draft, k, now, place.dir.inode, inode)
}

// Exchanges the inodes of two entries in a draft.
fn exchange_entries<K: Keeper>(
    draft: &mut Draft,
    k: &mut K,
    now: Moment,
    from: &EntryPlace,
    source: u64,
    to: &EntryPlace,
    other: u64,
) -> Result<(), TxFault>
    ensures { Drafting (λ t. MayExchange t (place_of from.now) source (place_of to.now) other)
        draft.old draft.new (K.seen k.old) (K.seen k.new) result
        (exchanged_within now (place_of from.now) source (place_of to.now) other) }
{
    take_entry(draft, k, now, from.dir.inode, &from.name, source)?;
    take_entry(draft, k, now, to.dir.inode, &to.name, other)?;
    move_in(draft, k, now, to, source)?;
    move_in(draft, k, now, from, other)
}

/// Exchanges the inodes of two entries, which are two.
///
/// # Errors
///
/// Invalid where a directory would move into itself, NoSpace where the link count of a directory is at its greatest
/// number, and as of [`is_inside`], [`take_entry`], [`put_entry`] and [`move_under`].
pub(crate) fn exchange<K: Keeper>(
    alloc: Global,
    k: &mut K,
    who: &Who,
    ends: &Ends,
    other: &Place,
) -> Result<Option<Removed>, TxFault>
    requires ends { EndsStand (K.seen k.old) ends.now }
    requires other { Stands (K.seen k.old) other.now }
    requires apart { ends.now.source.inode ≢ other.now.inode }
    ensures { (caller : Caller) → IsFor who.entry.now caller
        → Renames caller.sid
        (λ t. IsOverMove t caller Exchange (place_of ends.now.from) ends.now.source.inode
        (place_of ends.now.to) other.now.inode)
        (K.seen k.old) (K.seen k.new) result
        (λ t. model.exchanging t caller (place_of ends.now.from) ends.now.source.inode
        (place_of ends.now.to) other.now.inode) (λ t. Ok None) }
{
    prove!(ends.source.node.nlink <= MAX_LINKS);
    prove!(other.node.nlink <= MAX_LINKS);
    if is_inside(alloc, k, &ends.to.dir, &ends.source)? {
        return Err(TxFault::Refused(Fault::Invalid));
    }
    if is_inside(alloc, k, &ends.from.dir, other)? {
        return Err(TxFault::Refused(Fault::Invalid));
    }
    let source = ends.source.inode;
    let mut draft = Draft::new(alloc);
    exchange_entries(
        &mut draft,
        k,
        who.now,
        &ends.from,
        source,
        &ends.to,
        other.inode,
    )?;
    match draft.commit(k) {
        Ok(()) => Ok(None),
        Err(down) => Err(TxFault::Rows(RowFault::from(down))),
    }
}
