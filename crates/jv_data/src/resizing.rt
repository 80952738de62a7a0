//! A file of another length: its row, and what it adds to used space.
ghost use Rattle.std.specs.Prelude.{◌≡◌, [], IsTrue};
ghost use Rattle.jv_model.specs.promise.tree.Tree.{paged};
ghost use Rattle.jv_data.specs.Resizing.{Resizes, ResizesFile, row_sized};
ghost use Rattle.jv_model.specs.promise.rows.RowGrammar.{is_node, is_setting};
ghost use Rattle.jv_rows.specs.Walks.{HasNodeRow};

use jv_model::{Counters, Fault, Node, SPACE_UNIT, Setting, TxFault};
use jv_outside::Keeper;
use jv_rows::{Draft, needed_counters, needed_setting};
use std::alloc::Global;

/// The space that a file of this length takes: whole units, at least one.
fn paged(length: u64) -> u128
    ensures { result ≡ paged length }
{
    let unit = u128::from(SPACE_UNIT);
    unit.max(u128::from(length).div_ceil(unit) * unit)
}

/// The counters once a file of one length has another, or `None` where the volume has no room for that.
fn resized(setting: &Setting, counters: &Counters, before: u64, after: u64) -> Option<Counters>
    requires { IsTrue (is_setting setting.now) }
    ensures { Resizes setting.now counters.now before after result }
{
    let used = u128::from(counters.used_space);
    let total = (used + paged(after)).saturating_sub(paged(before));
    if total > setting.space_limit() && total > used {
        return None;
    }
    Some(Counters {
        used_space: total as u64,
        ..*counters
    })
}

/// The row of a file with another length, and both times at a moment.
fn sized(was: Node, length: u64, now: u64) -> Node
    ensures { result ≡ row_sized was length now }
{
    Node {
        length,
        mtime: now,
        ctime: now,
        ..was
    }
}

/// Adds to a new draft that a file has a length in bytes, and both times at a moment in seconds, with what that makes of
/// used space. Setting and counters are read only where the file takes more or less space than before. After an error the
/// draft is of no use.
///
/// # Errors
///
/// NoSpace where the volume has no room. Bad for a malformed row, or without bytes where setting or counters are needed
/// and absent. Failed if the keeper failed. Memory.
pub(crate) fn resize<K: Keeper>(
    alloc: Global,
    k: &mut K,
    draft: &mut Draft,
    inode: u64,
    was: Node,
    length: u64,
    now: u64,
) -> Result<(), TxFault>
    requires new { draft.old ≡ [] }
    requires there { HasNodeRow (K.seen k.old) inode was }
    requires file { was.kind ≡ 1 }
    requires allowed { IsTrue (is_node was) }
    ensures { ResizesFile inode was length now (K.seen k.old) (K.seen k.new) draft.new result }
{
    if paged(was.length) != paged(length) {
        return resize_counted(alloc, k, draft, inode, was, length, now);
    }
    draft.put_node(inode, &sized(was, length, now))?;
    Ok(())
}

/// Does what [`resize`] does, over setting and counters.
fn resize_counted<K: Keeper>(
    alloc: Global,
    k: &mut K,
    draft: &mut Draft,
    inode: u64,
    was: Node,
    length: u64,
    now: u64,
) -> Result<(), TxFault>
    requires new { draft.old ≡ [] }
    requires there { HasNodeRow (K.seen k.old) inode was }
    requires file { was.kind ≡ 1 }
    requires allowed { IsTrue (is_node was) }
    ensures { ResizesFile inode was length now (K.seen k.old) (K.seen k.new) draft.new result }
{
    let setting = needed_setting(alloc, k, draft)?;
    let counters = needed_counters(alloc, k, draft)?;
    let Some(after) = resized(&setting, &counters, was.length, length) else {
        return Err(TxFault::Refused(Fault::NoSpace));
    };
    draft.put_node(inode, &sized(was, length, now))?;
    draft.put_counters(&after)?;
    Ok(())
}
