//! Whether a directory lies in another one.
ghost use Rattle.std.specs.Prelude.{◌≡◌, Ok, false};
ghost use Rattle.jv_links.specs.Climbs.{StandsNear};
ghost use Rattle.jv_links.specs.Moves.{Stands, StandsDirectory};
ghost use Rattle.jv_model.specs.promise.tree.Renaming as model;
ghost use Rattle.jv_rows.specs.Transactions.{Looks};
ghost use Rattle.jv_volume.specs.promise.Shape.{is_top};

use jv_model::{Fault, TxFault};
use jv_outside::Keeper;
use jv_rows::{Draft, Place, is_top, needed_counters, parent};
use std::alloc::Global;

// Whether a way up, which over whole rows is of fewer steps than these, leads by a directory that has an entry.
//
// Rows whose way up is longer are not whole: it leads in a circle, or by more directories than are counted. What is moved then
// can't be distinguished from what it is moved into, so it is refused as Invalid.
fn climb<K: Keeper>(
    alloc: Global,
    k: &mut K,
    start: Place,
    source: u64,
    steps: u64,
) -> Result<bool, TxFault>
    requires stands { StandsDirectory (K.seen k.old) start }
    requires near { StandsNear (K.seen k.old) start.inode steps }
    requires low { is_top source ≡ false }
    ensures { Looks (K.seen k.old) (K.seen k.new) result
        (λ t. Ok (model.is_inside t start.inode source)) }
{
    let mut place = start;
    for _step in 0..steps {
        if place.inode == source {
            return Ok(true);
        }
        if is_top(place.inode) {
            return Ok(false);
        }
        place = parent(alloc, k, &place)?;
    }
    Err(TxFault::Refused(Fault::Invalid))
}

/// Whether a directory is another node, or lies below it.
///
/// # Errors
///
/// Over rows that aren't whole, Invalid where the way up leads in a circle, and NotADirectory where it leads to a file. Bad for
/// a malformed row of a directory on the way up, and for one whose parent isn't there; without bytes where the volume has no
/// counters. Failed if the keeper failed. Memory.
pub(crate) fn is_inside<K: Keeper>(
    alloc: Global,
    k: &mut K,
    dir: &Place,
    source: &Place,
) -> Result<bool, TxFault>
    requires dir { StandsDirectory (K.seen k.old) dir.now }
    requires source { Stands (K.seen k.old) source.now }
    ensures { Looks (K.seen k.old) (K.seen k.new) result
        (λ t. Ok (model.is_inside t dir.now.inode source.now.inode)) }
{
    if source.node.kind != 2 {
        return Ok(false);
    }
    // On the way up all but the top and the directory of an hour are counted.
    let counters = needed_counters(alloc, k, &Draft::new(alloc))?;
    let steps = counters.used_inodes.saturating_add(2);
    let start = dir.copied(alloc)?;
    climb(alloc, k, start, source.inode, steps)
}
