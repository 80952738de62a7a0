//! Nodes that change, go, or stay for a session alone.
ghost use Rattle.std.specs.Prelude.{◌≡◌, ◌==◌, if◌then◌else◌, Ok, OnOk};
ghost use Rattle.jv_rows_drafts.specs.Drafting.{Drafting};
ghost use Rattle.jv_rows_drafts.specs.Lowered.{lowered, with_dropped};
ghost use Rattle.jv_rows_drafts.specs.Present.{Presents};
ghost use Rattle.jv_rows_drafts.specs.Ready.{IsThere, MayGo, sustaining};
ghost use Rattle.jv_model.specs.promise.rows.RowKeys.{RowMap};
ghost use Rattle.jv_model.specs.promise.tree.Changes as model;
ghost use Rattle.jv_model.specs.promise.tree.Renaming.{moved_node};
ghost use Rattle.jv_rows.specs.Drafts.{drafted};
ghost use Rattle.jv_rows.specs.Transactions.{Always};

use jv_model::{Counters, Dropped, Fault, Gone, Moment, Node, SPACE_UNIT, TxFault};
use jv_outside::Keeper;
use jv_rows::{Draft, is_top, needed_counters};
use std::alloc::{AllocError, Global};

/// The node of an inode, as a draft's changes leave it.
///
/// # Errors
///
/// Stale where it isn't there. Bad for a malformed row of it, Failed if the keeper failed, Memory.
pub(crate) fn present<K: Keeper>(draft: &Draft, k: &mut K, inode: u64) -> Result<Node, TxFault>
    ensures { Presents inode draft.now (K.seen k.old) (K.seen k.new) result }
{
    match draft.node(k, inode)? {
        Some(node) => Ok(node),
        None => Err(TxFault::Refused(Fault::Stale(Gone::Node(inode)))),
    }
}

/// Sets the time of a node's last status change.
///
/// # Errors
///
/// Stale where the node isn't there. Bad for a malformed row of it, Failed if the keeper failed, Memory.
pub fn change_status<K: Keeper>(
    draft: &mut Draft,
    k: &mut K,
    now: Moment,
    inode: u64,
) -> Result<(), TxFault>
    ensures { Drafting (IsThere inode) draft.old draft.new (K.seen k.old) (K.seen k.new)
        result (λ t. Ok (model.change_node t inode (model.status_changed now))) }
{
    let node = present(draft, k, inode)?;
    let changed = Node {
        ctime: now.seconds(),
        ..node
    };
    draft.put_node(inode, &changed)?;
    Ok(())
}

// The parent of a node that is in this directory since then: one that is no directory has none.
fn parent_under(dir: u64, node: &Node) -> u64
    ensures { result ≡ (if node.now.kind == 2 then dir else node.now.parent) }
{
    if node.kind == 2 { dir } else { node.parent }
}

/// Sets the time of a node's last status change, and a directory's parent.
///
/// # Errors
///
/// As of [`change_status`].
pub fn move_under<K: Keeper>(
    draft: &mut Draft,
    k: &mut K,
    now: Moment,
    dir: u64,
    inode: u64,
) -> Result<(), TxFault>
    ensures { Drafting (IsThere inode) draft.old draft.new (K.seen k.old) (K.seen k.new)
        result (λ t. Ok (model.change_node t inode (moved_node now dir))) }
{
    let node = present(draft, k, inode)?;
    let moved = Node {
        ctime: now.seconds(),
        parent: parent_under(dir, &node),
        ..node
    };
    draft.put_node(inode, &moved)?;
    Ok(())
}

/// Takes away a node that no entry names; a file leaves a row that its lists are still to go.
///
/// # Errors
///
/// NotPermitted for the root and the trash. Else as of [`change_status`], and Bad where the counters are malformed, or without
/// bytes where there are none.
pub fn drop_node<K: Keeper>(
    alloc: Global,
    draft: &mut Draft,
    k: &mut K,
    inode: u64,
) -> Result<(), TxFault>
    ensures { Drafting (λ t. MayGo t inode) draft.old draft.new (K.seen k.old) (K.seen k.new)
        result (λ t. Ok (model.drop_node t inode)) }
{
    if is_top(inode) {
        return Err(TxFault::Refused(Fault::NotPermitted));
    }
    let node = present(draft, k, inode)?;
    let counters = needed_counters(alloc, k, draft)?;
    draft.drop_node(inode)?;
    leave_lists(draft, inode, &node)?;
    draft.put_counters(&without(&counters, &node))?;
    Ok(())
}

// Adds that a file's lists are still to go.
fn leave_lists(draft: &mut Draft, inode: u64, node: &Node) -> Result<(), AllocError>
    ensures { OnOk result ((known : RowMap) →
        drafted draft.new known ≡ with_dropped inode node.now (drafted draft.old known)) }
{
    if node.kind == 1 {
        let dropped = Dropped {
            length: node.length,
        };
        draft.put_dropped(inode, &dropped)?;
    }
    Ok(())
}

// Counters without a node.
fn without(counters: &Counters, node: &Node) -> Counters
    ensures { result ≡ lowered node.now counters.now }
{
    let units = match node.kind {
        1 => node.length.div_ceil(SPACE_UNIT).max(1),
        _ => 1,
    };
    Counters {
        used_space: counters
            .used_space
            .saturating_sub(units.saturating_mul(SPACE_UNIT)),
        used_inodes: counters.used_inodes.saturating_sub(1),
        ..*counters
    }
}

/// Adds that a session keeps a file without entries. Fails out of memory alone.
pub fn sustain<K: Keeper>(draft: &mut Draft, k: &mut K, sid: u64, inode: u64) -> Result<(), TxFault>
    ensures { Drafting Always draft.old draft.new (K.seen k.old) (K.seen k.new)
        result (λ t. Ok (sustaining sid inode t)) }
{
    draft.put_sustained(sid, inode)?;
    Ok(())
}
