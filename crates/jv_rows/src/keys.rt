//! Where rows stand.
ghost use Rattle.std.specs.Prelude.{◌≡◌, IfOk};
ghost use Rattle.jv_model.specs.promise.rows.RowPlaces.{setting_key, counters_key, node_key, edge_key, list_key, slice_key, session_key, sustained_key, dropped_key, dead_key};

use jv_model::tables::{
    TABLE_OF_COUNTERS, TABLE_OF_DEAD, TABLE_OF_DROPPED, TABLE_OF_EDGES, TABLE_OF_LISTS,
    TABLE_OF_NODES, TABLE_OF_SESSIONS, TABLE_OF_SETTING, TABLE_OF_SLICES, TABLE_OF_SUSTAINED,
};
use jv_model::{Name, RowKey, Sequence, copied};
use std::alloc::{AllocError, Global};

/// Where the setting stands.
pub fn key_of_setting(alloc: Global) -> RowKey
    ensures { result ≡ setting_key }
{
    RowKey {
        tab: TABLE_OF_SETTING,
        a: 0,
        b: Sequence::new(alloc),
    }
}

/// Where the next numbers and the running totals stand.
pub fn key_of_counters(alloc: Global) -> RowKey
    ensures { result ≡ counters_key }
{
    RowKey {
        tab: TABLE_OF_COUNTERS,
        a: 0,
        b: Sequence::new(alloc),
    }
}

/// Where a node stands.
pub fn key_of_node(alloc: Global, inode: u64) -> RowKey
    ensures { result ≡ node_key inode }
{
    RowKey {
        tab: TABLE_OF_NODES,
        a: inode,
        b: Sequence::new(alloc),
    }
}

/// Where an entry of a directory stands. The only error is out of memory.
pub fn key_of_edge(alloc: Global, dir: u64, name: &Name) -> Result<RowKey, AllocError>
    ensures { IfOk result (λ key. key ≡ edge_key dir name.now) }
{
    Ok(RowKey {
        tab: TABLE_OF_EDGES,
        a: dir,
        b: copied(alloc, name.as_slice())?,
    })
}

/// Where the records of a window stand. The only error is out of memory.
pub fn key_of_list(alloc: Global, inode: u64, window: u32) -> Result<RowKey, AllocError>
    ensures { IfOk result (λ key. key ≡ list_key inode window) }
{
    Ok(RowKey {
        tab: TABLE_OF_LISTS,
        a: inode,
        b: copied(alloc, &window.to_be_bytes())?,
    })
}

/// Where a slice stands.
pub fn key_of_slice(alloc: Global, id: u64) -> RowKey
    ensures { result ≡ slice_key id }
{
    RowKey {
        tab: TABLE_OF_SLICES,
        a: id,
        b: Sequence::new(alloc),
    }
}

/// Where a session stands.
pub fn key_of_session(alloc: Global, sid: u64) -> RowKey
    ensures { result ≡ session_key sid }
{
    RowKey {
        tab: TABLE_OF_SESSIONS,
        a: sid,
        b: Sequence::new(alloc),
    }
}

/// Where a file stands that a session keeps. The only error is out of memory.
pub fn key_of_sustained(alloc: Global, sid: u64, inode: u64) -> Result<RowKey, AllocError>
    ensures { IfOk result (λ key. key ≡ sustained_key sid inode) }
{
    Ok(RowKey {
        tab: TABLE_OF_SUSTAINED,
        a: sid,
        b: copied(alloc, &inode.to_be_bytes())?,
    })
}

/// Where a dropped file stands.
pub fn key_of_dropped(alloc: Global, inode: u64) -> RowKey
    ensures { result ≡ dropped_key inode }
{
    RowKey {
        tab: TABLE_OF_DROPPED,
        a: inode,
        b: Sequence::new(alloc),
    }
}

/// Where a dead slice stands.
pub fn key_of_dead(alloc: Global, id: u64) -> RowKey
    ensures { result ≡ dead_key id }
{
    RowKey {
        tab: TABLE_OF_DEAD,
        a: id,
        b: Sequence::new(alloc),
    }
}
