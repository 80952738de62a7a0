//! A truncate ends the list of its last window, and takes those behind it.
ghost use Rattle.std.specs.Prelude.{◌≡◌, ◌<◌, ◌≤◌};
ghost use Rattle.jv_data.specs.Changing.{Changes, AnyBytes, KeepsRest, Never};
ghost use Rattle.jv_data.specs.Truncating.{CutsFile, IsLastBefore, LeaveSlices, SaysDue};
ghost use Rattle.jv_data.specs.Truncating.{ChecksSlice, ChecksSlices, CutsLists, DropsLists, EndsList, Shortens};
ghost use Rattle.jv_model.specs.declared.limits.TheConstants.{FILE_END, LAST_MOMENT};
ghost use Rattle.jv_model.specs.declared.op.Reply.TheVariants.{Done};
ghost use Rattle.jv_model.specs.promise.tree.Caller.{Caller};
ghost use Rattle.jv_model.specs.promise.tree.FileBytes as model;
ghost use Rattle.jv_model.specs.tree.Trash.{due_after};
ghost use Rattle.jv_rows.specs.Lists.{HasList};
ghost use Rattle.jv_rows.specs.Transactions.{IsFor};
ghost use Rattle.jv_volume.specs.promise.Slices.{records_naming};

use crate::looking::{file, records};
use crate::resizing::resize;
use jv_model::lifetimes::DAY;
use jv_model::{FILE_END, Fault, List, Rec, RowFault, TxFault, WINDOW, Who};
use jv_outside::Keeper;
use jv_rows::{Draft, adjust, key_of_list, needed_setting, next_list, read_slice, spell_list};
use std::alloc::Global;

/// Makes a file `len` bytes long, and sets its times. Bytes past a lower end are gone, and those up to a greater one
/// read zero. A slice that nothing names any more is dead, and its blocks may be removed `trash-days` days later.
/// POSIX.1-2017, ftruncate.
///
/// # Errors
///
/// Stale where the session is gone, or the inode isn't a file's; then FileTooLarge for a length past
/// [`jv_model::FILE_END`]; then NoSpace where the volume has no room. Bad for a malformed row, for a list that goes and
/// names a slice without a row, or without bytes where setting or counters are needed and absent. Failed if the keeper
/// failed. Memory. On error no row has changed.
pub fn truncate<K: Keeper>(
    alloc: Global,
    k: &mut K,
    who: &Who,
    inode: u64,
    len: u64,
) -> Result<(), TxFault>
    ensures changes { (caller : Caller) → IsFor who.entry.now caller → caller.inode ≡ inode
        → Changes (record { own = 0; size = 0; more = 1; due = due_after who.entry.now.now })
        AnyBytes Never (K.seen k.old) (K.seen k.new)
        result (λ unit. Done) (λ t. model.truncate t caller len) }
    ensures lists { CutsFile inode len (K.seen k.old) (K.seen k.new) result }
    ensures rest { KeepsRest inode (K.seen k.old) (K.seen k.new) result }
{
    let now = who.now.seconds();
    let was = file(alloc, k, who.sid, inode)?;
    if len > FILE_END {
        return Err(TxFault::Refused(Fault::FileTooLarge));
    }
    let length = was.length;
    let mut draft = Draft::new(alloc);
    resize(alloc, k, &mut draft, inode, was, len, now)?;
    shorten(alloc, k, &mut draft, inode, length, len, now)?;
    match draft.commit(k) {
        Ok(()) => Ok(()),
        Err(down) => Err(TxFault::Rows(RowFault::from(down))),
    }
}

/// Adds that the lists of a file show nothing from a length on, where that is less than its length was.
fn shorten<K: Keeper>(
    alloc: Global,
    k: &mut K,
    draft: &mut Draft,
    inode: u64,
    was: u64,
    len: u64,
    now: u64,
) -> Result<(), TxFault>
    requires small { len ≤ FILE_END }
    requires moment { now ≤ LAST_MOMENT }
    requires leave { LeaveSlices (K.seen k.old).rows draft.old }
    ensures { Shortens inode was len now (K.seen k.old) (K.seen k.new) draft.old draft.new result }
{
    if was <= len {
        return Ok(());
    }
    cut(alloc, k, draft, inode, len, now)
}

/// Adds that the lists of a file show nothing from a length on, and what that makes of slices at a moment in seconds.
fn cut<K: Keeper>(
    alloc: Global,
    k: &mut K,
    draft: &mut Draft,
    inode: u64,
    len: u64,
    now: u64,
) -> Result<(), TxFault>
    requires small { len ≤ FILE_END }
    requires moment { now ≤ LAST_MOMENT }
    requires leave { LeaveSlices (K.seen k.old).rows draft.old }
    ensures { CutsLists inode len now (K.seen k.old) (K.seen k.new) draft.old draft.new result }
{
    let due = due_after(alloc, k, draft, now)?;
    end_list(alloc, k, draft, inode, len)?;
    let gone = drop_lists(alloc, k, draft, inode, last_before(len))?;
    let none = List::new(alloc);
    adjust(alloc, k, draft, gone.as_slice(), none.as_slice(), due)
}

/// The moment in seconds when slices that die now are due: the trash's days later.
fn due_after<K: Keeper>(alloc: Global, k: &mut K, draft: &Draft, now: u64) -> Result<u64, TxFault>
    requires moment { now ≤ LAST_MOMENT }
    requires leave { LeaveSlices (K.seen k.old).rows draft.now }
    ensures { SaysDue now (K.seen k.old) (K.seen k.new) result }
{
    let setting = needed_setting(alloc, k, draft)?;
    Ok(now + u64::from(setting.trash_days) * DAY)
}

/// The last window that begins before a length, none where the length is 0.
fn last_before(len: u64) -> Option<u32>
    requires { len ≤ FILE_END }
    ensures { IsLastBefore len result }
{
    if len == 0 {
        return None;
    }
    Some(((len - 1) / WINDOW) as u32)
}

/// Adds to the list that a length lies inside of, if there is one, a record that reads zero from there on.
fn end_list<K: Keeper>(
    alloc: Global,
    k: &mut K,
    draft: &mut Draft,
    inode: u64,
    len: u64,
) -> Result<(), TxFault>
    requires { len ≤ FILE_END }
    ensures { EndsList inode len (K.seen k.old) (K.seen k.new) draft.old draft.new result }
{
    let window = (len / WINDOW) as u32;
    let pos = (len % WINDOW) as u32;
    let mut list = records(alloc, k, inode, window)?;
    if pos == 0 || list.is_empty() {
        return Ok(());
    }
    list.push(Rec {
        pos,
        id: 0,
        size: 0,
        off: 0,
        len: WINDOW as u32 - pos,
    })?;
    draft.put_list(inode, window, &list)?;
    Ok(())
}

/// Adds that a file has no lists after a window, or none at all, and returns their records.
fn drop_lists<K: Keeper>(
    alloc: Global,
    k: &mut K,
    draft: &mut Draft,
    inode: u64,
    start: Option<u32>,
) -> Result<List, TxFault>
    ensures { DropsLists inode start (K.seen k.old) (K.seen k.new) draft.old draft.new result }
{
    let mut gone = Vec::new(alloc);
    let mut last = start;
    while let Some((window, list)) = next_list(alloc, k, inode, last)? {
        check_slices(alloc, k, inode, window, &list)?;
        draft.drop_list(inode, window)?;
        gone.extend_from_slice(list.as_slice())?;
        last = Some(window);
    }
    Ok(List::from_vec(gone))
}

/// Fails with Bad where a list names a slice that has no row.
pub(crate) fn check_slices<K: Keeper>(
    alloc: Global,
    k: &mut K,
    inode: u64,
    window: u32,
    list: &List,
) -> Result<(), TxFault>
    requires { HasList (K.seen k.old) inode (window, list.now) }
    ensures { ChecksSlices list.now (K.seen k.old) (K.seen k.new) result }
{
    for record in list.as_slice() {
        check_slice(alloc, k, inode, window, list, record.id)?;
    }
    Ok(())
}

/// Fails with Bad where a slice that a list names has no row.
fn check_slice<K: Keeper>(
    alloc: Global,
    k: &mut K,
    inode: u64,
    window: u32,
    list: &List,
    id: u64,
) -> Result<(), TxFault>
    requires there { HasList (K.seen k.old) inode (window, list.now) }
    requires named { 0 < records_naming id list.now }
    ensures { ChecksSlice id (K.seen k.old) (K.seen k.new) result }
{
    if id == 0 {
        return Ok(());
    }
    match read_slice(alloc, k, id)? {
        Some(_) => Ok(()),
        None => Err(TxFault::Rows(RowFault::Bad(
            key_of_list(alloc, inode, window)?,
            spell_list(alloc, list)?,
        ))),
    }
}
