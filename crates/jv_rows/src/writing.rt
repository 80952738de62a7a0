//! Rows written into a batch, each in its one spelling.
ghost use Rattle.std.specs.Prelude.{◌≡◌, [], ◌∷◌, ◌++◌, OnOk, OnErr, IsTrue};
ghost use Rattle.jv_model.specs.promise.rows.RowGrammar.{is_setting, setting_bytes, is_counters, counters_bytes, is_node, node_bytes, is_edge, edge_bytes, is_list, list_bytes, is_slice, slice_bytes, is_session, session_bytes, dropped_bytes, dead_bytes};
ghost use Rattle.jv_model.specs.promise.rows.RowPlaces.{setting_key, counters_key, node_key, edge_key, list_key, slice_key, session_key, sustained_key, dropped_key, dead_key};
ghost use Rattle.jv_outside.specs.declared.batch.Change.TheVariants.{Put};

use crate::keys::{
    key_of_counters, key_of_dead, key_of_dropped, key_of_edge, key_of_list, key_of_node,
    key_of_session, key_of_setting, key_of_slice, key_of_sustained,
};
use crate::spelling::{
    spell_counters, spell_dead, spell_dropped, spell_edge, spell_list, spell_node, spell_session,
    spell_setting, spell_slice,
};
use jv_model::row_bytes::RowBytes;
use jv_model::{Counters, Dead, Dropped, Edge, List, Name, Node, Session, Setting, SliceRow};
use jv_outside::Batch;
use std::alloc::{AllocError, Global};

/// Writes the setting. Out of memory the batch is as before.
pub fn put_setting(alloc: Global, batch: &mut Batch, setting: &Setting) -> Result<(), AllocError>
    requires { IsTrue (is_setting setting.now) }
    ensures ok { OnOk result (batch.new ≡ batch.old
        ++ Put setting_key (setting_bytes setting.now) ∷ []) }
    ensures err { OnErr result (batch.new ≡ batch.old) }
{
    let key = key_of_setting(alloc);
    let bytes = spell_setting(alloc, setting)?;
    batch.put(key, RowBytes::from_bytes(bytes)?)
}

/// Writes the next numbers and the running totals. Out of memory the batch is as before.
pub fn put_counters(alloc: Global, batch: &mut Batch, counters: &Counters) -> Result<(), AllocError>
    requires { IsTrue (is_counters counters.now) }
    ensures ok { OnOk result (batch.new ≡ batch.old
        ++ Put counters_key (counters_bytes counters.now) ∷ []) }
    ensures err { OnErr result (batch.new ≡ batch.old) }
{
    let key = key_of_counters(alloc);
    let bytes = spell_counters(alloc, counters)?;
    batch.put(key, RowBytes::from_bytes(bytes)?)
}

/// Writes a node. Out of memory the batch is as before.
pub fn put_node(alloc: Global, batch: &mut Batch, inode: u64, node: &Node) -> Result<(), AllocError>
    requires { IsTrue (is_node node.now) }
    ensures ok { OnOk result (batch.new ≡ batch.old
        ++ Put (node_key inode) (node_bytes node.now) ∷ []) }
    ensures err { OnErr result (batch.new ≡ batch.old) }
{
    let key = key_of_node(alloc, inode);
    let bytes = spell_node(alloc, node)?;
    batch.put(key, RowBytes::from_bytes(bytes)?)
}

/// Writes an entry of a directory. Out of memory the batch is as before.
pub fn put_edge(
    alloc: Global,
    batch: &mut Batch,
    dir: u64,
    name: &Name,
    edge: &Edge,
) -> Result<(), AllocError>
    requires { IsTrue (is_edge edge.now) }
    ensures ok { OnOk result (batch.new ≡ batch.old
        ++ Put (edge_key dir name.now) (edge_bytes edge.now) ∷ []) }
    ensures err { OnErr result (batch.new ≡ batch.old) }
{
    let key = key_of_edge(alloc, dir, name)?;
    let bytes = spell_edge(alloc, edge)?;
    batch.put(key, RowBytes::from_bytes(bytes)?)
}

/// Writes the records of a window. Out of memory the batch is as before.
pub fn put_list(
    alloc: Global,
    batch: &mut Batch,
    inode: u64,
    window: u32,
    list: &List,
) -> Result<(), AllocError>
    requires { IsTrue (is_list list.now) }
    ensures ok { OnOk result (batch.new ≡ batch.old
        ++ Put (list_key inode window) (list_bytes list.now) ∷ []) }
    ensures err { OnErr result (batch.new ≡ batch.old) }
{
    let key = key_of_list(alloc, inode, window)?;
    let bytes = spell_list(alloc, list)?;
    batch.put(key, RowBytes::from_bytes(bytes)?)
}

/// Writes a slice. Out of memory the batch is as before.
pub fn put_slice(
    alloc: Global,
    batch: &mut Batch,
    id: u64,
    slice: &SliceRow,
) -> Result<(), AllocError>
    requires { IsTrue (is_slice slice.now) }
    ensures ok { OnOk result (batch.new ≡ batch.old
        ++ Put (slice_key id) (slice_bytes slice.now) ∷ []) }
    ensures err { OnErr result (batch.new ≡ batch.old) }
{
    let key = key_of_slice(alloc, id);
    let bytes = spell_slice(alloc, slice)?;
    batch.put(key, RowBytes::from_bytes(bytes)?)
}

/// Writes a session. Out of memory the batch is as before.
pub fn put_session(
    alloc: Global,
    batch: &mut Batch,
    sid: u64,
    session: &Session,
) -> Result<(), AllocError>
    requires { IsTrue (is_session session.now) }
    ensures ok { OnOk result (batch.new ≡ batch.old
        ++ Put (session_key sid) (session_bytes session.now) ∷ []) }
    ensures err { OnErr result (batch.new ≡ batch.old) }
{
    let key = key_of_session(alloc, sid);
    let bytes = spell_session(alloc, session)?;
    batch.put(key, RowBytes::from_bytes(bytes)?)
}

/// Writes that a session keeps an unlinked file. Out of memory the batch is as before.
pub fn put_sustained(
    alloc: Global,
    batch: &mut Batch,
    sid: u64,
    inode: u64,
) -> Result<(), AllocError>
    ensures ok { OnOk result (batch.new ≡ batch.old ++ Put (sustained_key sid inode) [] ∷ []) }
    ensures err { OnErr result (batch.new ≡ batch.old) }
{
    let key = key_of_sustained(alloc, sid, inode)?;
    batch.put(key, RowBytes::new())
}

/// Writes a dropped file. Out of memory the batch is as before.
pub fn put_dropped(
    alloc: Global,
    batch: &mut Batch,
    inode: u64,
    dropped: &Dropped,
) -> Result<(), AllocError>
    ensures ok { OnOk result (batch.new ≡ batch.old
        ++ Put (dropped_key inode) (dropped_bytes dropped.now) ∷ []) }
    ensures err { OnErr result (batch.new ≡ batch.old) }
{
    let key = key_of_dropped(alloc, inode);
    let bytes = spell_dropped(alloc, dropped)?;
    batch.put(key, RowBytes::from_bytes(bytes)?)
}

/// Writes a dead slice. Out of memory the batch is as before.
pub fn put_dead(alloc: Global, batch: &mut Batch, id: u64, dead: &Dead) -> Result<(), AllocError>
    ensures ok { OnOk result (batch.new ≡ batch.old
        ++ Put (dead_key id) (dead_bytes dead.now) ∷ []) }
    ensures err { OnErr result (batch.new ≡ batch.old) }
{
    let key = key_of_dead(alloc, id);
    let bytes = spell_dead(alloc, dead)?;
    batch.put(key, RowBytes::from_bytes(bytes)?)
}
