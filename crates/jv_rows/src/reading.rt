//! A keeper's rows, each read by its table's grammar. The readers judge the bytes of a row and not which keys rows may
//! have: that an entry's name, a window's number or a session's inode may stand in a key is a part of what a whole volume
//! is.
ghost use Rattle.std.specs.Prelude.{[], true};
ghost use Rattle.jv_model.specs.promise.rows.RowGrammar.{is_setting, setting_bytes, setting_of, is_counters, counters_bytes, counters_of, is_node, node_bytes, node_of, is_edge, edge_bytes, edge_of, is_list, list_bytes, list_of, is_slice, slice_bytes, slice_of, is_session, session_bytes, session_of_bytes, sustained_of, dropped_bytes, dropped_of, dead_bytes, dead_of};
ghost use Rattle.jv_model.specs.promise.rows.RowPlaces.{setting_key, counters_key, node_key, edge_key, list_key, slice_key, session_key, sustained_key, dropped_key, dead_key};
ghost use Rattle.jv_rows.specs.Readings.{ReadsRow};

use crate::grammar::Grammar;
use crate::keys::{
    key_of_counters, key_of_dead, key_of_dropped, key_of_edge, key_of_list, key_of_node,
    key_of_session, key_of_setting, key_of_slice, key_of_sustained,
};
use crate::misread::Misread;
use jv_model::{
    Counters, Dead, Dropped, Edge, List, Name, Node, RowFault, RowKey, Session, Setting, SliceRow,
};
use jv_outside::Keeper;
use std::alloc::Global;

/// The row at a key by the grammar of its type.
pub(crate) fn read_row<K: Keeper, R: Grammar>(
    alloc: Global,
    k: &mut K,
    key: RowKey,
) -> Result<Option<R>, RowFault>
    ensures { ReadsRow R.read_as R.spelled_as R.is_allowed key
        (K.seen k.old) (K.seen k.new) result }
{
    let Some(bytes) = k.get(&key)? else {
        return Ok(None);
    };
    match R::parse(alloc, bytes.joined(alloc)?.as_slice()) {
        Ok(row) => Ok(Some(row)),
        Err(Misread::Malformed) => Err(RowFault::Bad(key, bytes.copied(alloc)?)),
        Err(Misread::Memory) => Err(RowFault::Memory),
    }
}

/// The volume's setting, of whatever version. `None` if and only if there is no such row.
///
/// # Errors
///
/// [`RowFault::Bad`] with the key and the bytes of a malformed row, [`RowFault::Failed`] if the keeper failed, and
/// [`RowFault::Memory`] out of memory. The rows are the same in each case.
pub fn read_setting<K: Keeper>(alloc: Global, k: &mut K) -> Result<Option<Setting>, RowFault>
    ensures { ReadsRow setting_of setting_bytes is_setting setting_key
        (K.seen k.old) (K.seen k.new) result }
{
    let key = key_of_setting(alloc);
    read_row(alloc, k, key)
}

/// The next numbers and the running totals. `None` if and only if there is no such row. Errors are as of
/// [`read_setting`].
pub fn read_counters<K: Keeper>(alloc: Global, k: &mut K) -> Result<Option<Counters>, RowFault>
    ensures { ReadsRow counters_of counters_bytes is_counters counters_key
        (K.seen k.old) (K.seen k.new) result }
{
    let key = key_of_counters(alloc);
    read_row(alloc, k, key)
}

/// A node. `None` if and only if there is no such row. Errors are as of [`read_setting`].
pub fn read_node<K: Keeper>(alloc: Global, k: &mut K, inode: u64) -> Result<Option<Node>, RowFault>
    ensures { ReadsRow node_of node_bytes is_node (node_key inode)
        (K.seen k.old) (K.seen k.new) result }
{
    let key = key_of_node(alloc, inode);
    read_row(alloc, k, key)
}

/// An entry of a directory. `None` if and only if there is no such row. Errors are as of [`read_setting`].
pub fn read_edge<K: Keeper>(
    alloc: Global,
    k: &mut K,
    dir: u64,
    name: &Name,
) -> Result<Option<Edge>, RowFault>
    ensures { ReadsRow edge_of edge_bytes is_edge (edge_key dir name.now)
        (K.seen k.old) (K.seen k.new) result }
{
    let key = key_of_edge(alloc, dir, name)?;
    read_row(alloc, k, key)
}

/// The records of a window of a file. `None` if and only if there is no such row. Errors are as of [`read_setting`].
pub fn read_list<K: Keeper>(
    alloc: Global,
    k: &mut K,
    inode: u64,
    window: u32,
) -> Result<Option<List>, RowFault>
    ensures { ReadsRow list_of list_bytes is_list (list_key inode window)
        (K.seen k.old) (K.seen k.new) result }
{
    let key = key_of_list(alloc, inode, window)?;
    read_row(alloc, k, key)
}

/// A slice with its count. `None` if and only if there is no such row. Errors are as of [`read_setting`].
pub fn read_slice<K: Keeper>(
    alloc: Global,
    k: &mut K,
    id: u64,
) -> Result<Option<SliceRow>, RowFault>
    ensures { ReadsRow slice_of slice_bytes is_slice (slice_key id)
        (K.seen k.old) (K.seen k.new) result }
{
    let key = key_of_slice(alloc, id);
    read_row(alloc, k, key)
}

/// A session. `None` if and only if there is no such row. Errors are as of [`read_setting`].
pub fn read_session<K: Keeper>(
    alloc: Global,
    k: &mut K,
    sid: u64,
) -> Result<Option<Session>, RowFault>
    ensures { ReadsRow session_of_bytes session_bytes is_session (session_key sid)
        (K.seen k.old) (K.seen k.new) result }
{
    let key = key_of_session(alloc, sid);
    read_row(alloc, k, key)
}

/// Whether the session keeps the unlinked file. `None` if and only if there is no such row. Errors are as of
/// [`read_setting`].
pub fn read_sustained<K: Keeper>(
    alloc: Global,
    k: &mut K,
    sid: u64,
    inode: u64,
) -> Result<Option<()>, RowFault>
    ensures { ReadsRow sustained_of (λ _. []) (λ _. true) (sustained_key sid inode)
        (K.seen k.old) (K.seen k.new) result }
{
    let key = key_of_sustained(alloc, sid, inode)?;
    read_row(alloc, k, key)
}

/// A dropped file. `None` if and only if there is no such row. Errors are as of [`read_setting`].
pub fn read_dropped<K: Keeper>(
    alloc: Global,
    k: &mut K,
    inode: u64,
) -> Result<Option<Dropped>, RowFault>
    ensures { ReadsRow dropped_of dropped_bytes (λ _. true) (dropped_key inode)
        (K.seen k.old) (K.seen k.new) result }
{
    let key = key_of_dropped(alloc, inode);
    read_row(alloc, k, key)
}

/// A dead slice. `None` if and only if there is no such row. Errors are as of [`read_setting`].
pub fn read_dead<K: Keeper>(alloc: Global, k: &mut K, id: u64) -> Result<Option<Dead>, RowFault>
    ensures { ReadsRow dead_of dead_bytes (λ _. true) (dead_key id)
        (K.seen k.old) (K.seen k.new) result }
{
    let key = key_of_dead(alloc, id);
    read_row(alloc, k, key)
}
