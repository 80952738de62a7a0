//! Entries renamed, by POSIX.1-2017's "renameat" and Linux's "renameat2".
ghost use Rattle.std.specs.Prelude.{IsTrue, None, Some, Ok};
ghost use Rattle.jv_links.specs.Moves.{EndsStand, IsFreeMove, IsOverMove, Renames, Stands, renamed_with, replaced, replaced_by};
ghost use Rattle.jv_tree.specs.Entering.{place_of};
ghost use Rattle.jv_links.specs.Removals.{HoldsFiles, SaysRemoved, SaysSustained, renamed_in};
ghost use Rattle.jv_model.specs.promise.Lists.{has_no_zero};
ghost use Rattle.jv_model.specs.declared.op.Reply.TheVariants.{Done};
ghost use Rattle.jv_model.specs.promise.tree.Caller.{Caller};
ghost use Rattle.jv_model.specs.promise.tree.Renaming as model;
ghost use Rattle.jv_rows.specs.Transactions.{IsFor, Transacts};

use crate::ends::{Ends, entry_at, find_ends};
use crate::exchanging::exchange;
use crate::fates::Removed;
use crate::moving::move_to_free;
use crate::replacing::replace;
use jv_model::{Fault, How, Path, TxFault, Who};
use jv_outside::Keeper;
use jv_rows::Place;
use std::alloc::Global;

/// Renames an entry, over another, only where there is none, or in exchange with it. Returns what became of a file or a
/// symlink that it replaced. POSIX.1-2017, renameat; Linux, renameat2.
///
/// # Errors
///
/// Stale where the session is gone; then as of [`jv_rows::walk_to_entry`] for one path and the other; NotPermitted for
/// `.trash` and its hours, for a target in the trash or in the place of `.trash`, and for an exchange with an entry of
/// the trash; NotFound where no entry is at `path`, or for an exchange at `to`; AlreadyExists where one is at `to` and
/// none may be. Then Invalid for a directory that would come into itself, IsADirectory, NotADirectory or
/// DirectoryNotEmpty for what can't replace the other, and NoSpace where a link count is at its greatest number. Bad for
/// a row that is malformed or names none, and without bytes where the volume has no setting or no counters. Failed if the
/// keeper failed, Memory. On error no row has changed.
pub fn rename<K: Keeper>(
    alloc: Global,
    k: &mut K,
    who: &Who,
    path: &Path,
    to: &Path,
    how: How,
) -> Result<Option<Removed>, TxFault>
    requires { IsTrue (has_no_zero to.now) }
    ensures does { (caller : Caller) → IsFor who.entry.now caller
        → Transacts (HoldsFiles caller.held) (K.seen k.old) (K.seen k.new)
        result (λ removed. Done) (λ t. model.rename t caller path.now to.now how) }
    ensures says { (caller : Caller) → IsFor who.entry.now caller
        → SaysSustained caller.sid (HoldsFiles caller.held) (K.seen k.old) (renamed_in result)
        (λ t. model.rename t caller path.now to.now how) }
    ensures answers { (caller : Caller) → IsFor who.entry.now caller
        → SaysRemoved (HoldsFiles caller.held) (K.seen k.old) (renamed_in result)
        (λ t. replaced t caller path.now to.now how) }
{
    let ends = find_ends(alloc, k, who.sid, path, to, how)?;
    match entry_at(alloc, k, &ends.to)? {
        None => rename_to_none(alloc, k, who, &ends, how),
        Some(other) => rename_over(alloc, k, who, &ends, &other, how),
    }
}

// Renames where no entry is in the target's place.
fn rename_to_none<K: Keeper>(
    alloc: Global,
    k: &mut K,
    who: &Who,
    ends: &Ends,
    how: How,
) -> Result<Option<Removed>, TxFault>
    requires { EndsStand (K.seen k.old) ends.now }
    ensures { (caller : Caller) → IsFor who.entry.now caller
        → Renames caller.sid
        (λ t. IsFreeMove t caller.sid how (place_of ends.now.from) ends.now.source.inode
        (place_of ends.now.to)) (K.seen k.old) (K.seen k.new) result
        (λ t. renamed_with how t caller (place_of ends.now.from) ends.now.source.inode
        (place_of ends.now.to) None)
        (λ t. Ok (replaced_by how t caller ends.now.source.inode (place_of ends.now.to) None)) }
{
    match how {
        How::Exchange => Err(TxFault::Refused(Fault::NotFound)),
        How::Plain => move_to_free(alloc, k, who, ends),
        How::NoReplace => move_to_free(alloc, k, who, ends),
    }
}

// Renames where an entry is in the target's place.
fn rename_over<K: Keeper>(
    alloc: Global,
    k: &mut K,
    who: &Who,
    ends: &Ends,
    other: &Place,
    how: How,
) -> Result<Option<Removed>, TxFault>
    requires ends { EndsStand (K.seen k.old) ends.now }
    requires other { Stands (K.seen k.old) other.now }
    ensures { (caller : Caller) → IsFor who.entry.now caller
        → Renames caller.sid
        (λ t. IsOverMove t caller how (place_of ends.now.from) ends.now.source.inode
        (place_of ends.now.to) other.now.inode)
        (K.seen k.old) (K.seen k.new) result
        (λ t. renamed_with how t caller (place_of ends.now.from) ends.now.source.inode
        (place_of ends.now.to) (Some other.now.inode))
        (λ t. Ok (replaced_by how t caller ends.now.source.inode (place_of ends.now.to)
        (Some other.now.inode))) }
{
    let is_same = ends.source.inode == other.inode;
    match how {
        How::NoReplace => Err(TxFault::Refused(Fault::AlreadyExists)),
        How::Plain if is_same => Ok(None),
        How::Exchange if is_same => Ok(None),
        How::Plain => replace(alloc, k, who, ends, other),
        How::Exchange => exchange(alloc, k, who, ends, other),
    }
}
