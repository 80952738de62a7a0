//! The ends of a rename: the entry that goes, what it names, and the entry that comes.
ghost use Rattle.std.specs.Prelude.{◌≡◌, ◌&&◌, IfOk, false};
ghost use Rattle.jv_links.specs.Moves.{FindsEnds, FindsEntry, move_asked};
ghost use Rattle.jv_tree.specs.Entering.{place_of};
ghost use Rattle.jv_model.specs.promise.FiniteMap.{get};
ghost use Rattle.jv_model.specs.declared.fault.Fault.TheVariants.{NotFound};
ghost use Rattle.jv_model.specs.promise.tree.Attempt.{some_or};
ghost use Rattle.jv_model.specs.promise.tree.Making as model_making;
ghost use Rattle.jv_model.specs.promise.tree.Removing as model_removing;
ghost use Rattle.jv_model.specs.promise.tree.Renaming as model;
ghost use Rattle.jv_rows.specs.Walks.{Comes};
ghost use Rattle.jv_volume.specs.promise.Shape.{is_top};

use jv_model::{Fault, How, Path, TRASH_ROOT, TxFault};
use jv_outside::Keeper;
use jv_rows::{EntryPlace, Place, child, in_session, is_top, is_trash_of, walk_to_entry};
use jv_tree::may_be_new;
use std::alloc::Global;

/// An entry that is to be renamed, the node that it names, and the entry that it is to be.
#[derive(Debug, Drop)]
pub(crate) struct Ends {
    pub(crate) from: EntryPlace,
    pub(crate) source: Place,
    pub(crate) to: EntryPlace,
}

// Whether an entry may go: neither `.trash` nor one of its hours.
pub(crate) fn may_go(entry: &EntryPlace) -> bool
    ensures { result ≡ model_removing.may_go (place_of entry.now) }
{
    entry.dir.inode != TRASH_ROOT && !is_trash_of(entry.dir.inode, entry.name.as_slice())
}

// Whether an entry may be renamed: nothing changes places with an entry of the trash.
fn may_leave(how: How, entry: &EntryPlace) -> bool
    ensures { result ≡ model.may_leave how (place_of entry.now) }
{
    match how {
        How::Exchange => may_go(entry) && may_be_new(entry),
        How::Plain | How::NoReplace => may_go(entry),
    }
}

// Whether an entry may be renamed to another one.
fn may_move(how: How, from: &EntryPlace, to: &EntryPlace) -> bool
    ensures { result ≡ (model.may_leave how (place_of from.now)
        && model_making.may_be_new (place_of to.now)) }
{
    may_leave(how, from) && may_be_new(to)
}

// The node that an entry names.
//
// Everything is inside the root or the trash, so what would move one of them is refused as Invalid: no entry of a whole volume
// names them.
fn entered<K: Keeper>(alloc: Global, k: &mut K, entry: &EntryPlace) -> Result<Place, TxFault>
    ensures comes { Comes (K.seen k.old) (K.seen k.new) result
        (λ t. some_or (get t.entries (place_of entry.now)) NotFound) }
    ensures low { IfOk result (λ place. is_top place.inode ≡ false) }
{
    let place = child(alloc, k, entry.dir.inode, &entry.name)?;
    if is_top(place.inode) {
        return Err(TxFault::Refused(Fault::Invalid));
    }
    Ok(place)
}

/// Finds the ends of a rename, whose target may be there or not.
///
/// # Errors
///
/// Stale where the session is gone, then as of [`walk_to_entry`] for the one path and the other, NotPermitted for `.trash`
/// and its hours, for a target in the trash or in the place of `.trash`, and for an exchange with an entry of the trash. Then
/// as of [`child`] for the entry that goes, and Invalid where that names the root or the trash.
pub(crate) fn find_ends<K: Keeper>(
    alloc: Global,
    k: &mut K,
    sid: u64,
    path: &Path,
    to: &Path,
    how: How,
) -> Result<Ends, TxFault>
    ensures { FindsEnds (K.seen k.old) (K.seen k.new) result
        (λ t. move_asked t sid path.now to.now how) }
{
    in_session(alloc, k, sid)?;
    let from = walk_to_entry(alloc, k, path)?;
    let to = walk_to_entry(alloc, k, to)?;
    if !may_move(how, &from, &to) {
        return Err(TxFault::Refused(Fault::NotPermitted));
    }
    let source = entered(alloc, k, &from)?;
    Ok(Ends { from, source, to })
}

/// The node that an entry names, with its row, if it is there.
///
/// # Errors
///
/// As of [`child`], but for NotFound. Invalid for an entry that names the root or the trash.
pub(crate) fn entry_at<K: Keeper>(
    alloc: Global,
    k: &mut K,
    entry: &EntryPlace,
) -> Result<Option<Place>, TxFault>
    ensures { FindsEntry (K.seen k.old) (K.seen k.new) result (place_of entry.now) }
{
    match entered(alloc, k, entry) {
        Ok(place) => Ok(Some(place)),
        Err(TxFault::Refused(Fault::NotFound)) => Ok(None),
        Err(fault) => Err(fault),
    }
}
