//! Rows of each kind, spelled and read again through a keeper in memory.
use jv_model::tables::ROWS_VERSION;
use jv_model::{
    Bytes, Counters, Dead, Down, Dropped, Edge, List, MIN_BLOCK, Node, Rec, Row, RowFault,
    Sequence, Session, Setting, SliceRow, copied,
};
use jv_outside::{Batch, Fails, Keeper, MemKeeper};
use jv_rows::{
    allows_counters, allows_edge, allows_list, allows_node, allows_session, allows_setting,
    allows_slice, put_counters, put_dead, put_dropped, put_edge, put_list, put_node, put_session,
    put_setting, put_slice, put_sustained, read_counters, read_dead, read_dropped, read_edge,
    read_list, read_node, read_session, read_setting, read_slice, read_sustained,
};
use std::alloc::{AllocError, Global};

/// What a number is multiplied by, so that keys don't come in their order.
const SPREAD: u64 = 0x9E37_79B9_7F4A_7C15;

/// The rows of a commit.
const BATCH: usize = 4;

/// The kinds of rows.
const KINDS: [&str; 10] = [
    "setting",
    "counters",
    "node",
    "edge",
    "list",
    "slice",
    "session",
    "sustained",
    "dropped",
    "dead",
];

fn setting(alloc: Global) -> Result<Row, AllocError> {
    Ok(Row::OfSetting(Setting {
        version: ROWS_VERSION,
        block: MIN_BLOCK,
        trash_days: 1,
        capacity: 0,
        inodes: 0,
        hash: 0,
        name: copied(alloc, b"juicefs")?,
        bucket: copied(alloc, b":memory:")?,
    }))
}

fn counters() -> Row {
    Row::OfCounters(Counters {
        inode: 2,
        slice: 1,
        session: 1,
        used_space: 4096,
        used_inodes: 1,
    })
}

fn node(alloc: Global) -> Row {
    Row::OfNode(Node {
        kind: 1,
        mode: 0o644,
        uid: 1000,
        gid: 1000,
        nlink: 1,
        mtime: 1_700_000_000,
        ctime: 1_700_000_000,
        length: 65_536,
        parent: 0,
        target: Bytes::new(alloc),
    })
}

/// Four records.
fn list(alloc: Global) -> Result<Row, AllocError> {
    let mut list = List::new(alloc);
    for id in 1..5u64 {
        list.push(Rec {
            pos: 65_536,
            id,
            size: 4096,
            off: 0,
            len: 4096,
        })?;
    }
    Ok(Row::OfList(list))
}

/// A row of a kind, by its name. None where there is no such kind.
fn sample(alloc: Global, kind: &str) -> Result<Option<Row>, AllocError> {
    let row = match kind {
        "setting" => setting(alloc)?,
        "counters" => counters(),
        "node" => node(alloc),
        "edge" => Row::OfEdge(Edge { kind: 1, inode: 2 }),
        "list" => list(alloc)?,
        "slice" => Row::OfSlice(SliceRow {
            size: 4096,
            count: 1,
        }),
        "session" => Row::OfSession(Session {
            client: 0,
            expiry: 300,
        }),
        "sustained" => Row::OfSustained,
        "dropped" => Row::OfDropped(Dropped { length: 65_536 }),
        "dead" => Row::OfDead(Dead {
            size: 4096,
            due: 300,
        }),
        _ => return Ok(None),
    };
    Ok(Some(row))
}

/// Writes a row to its place of a number. Setting and counters have one place each.
fn put(alloc: Global, batch: &mut Batch, number: u64, row: &Row) -> Result<(), AllocError> {
    match row {
        Row::OfSetting(setting) if allows_setting(setting) => put_setting(alloc, batch, setting),
        Row::OfCounters(counters) if allows_counters(counters) => {
            put_counters(alloc, batch, counters)
        }
        Row::OfNode(node) if allows_node(node) => put_node(alloc, batch, number, node),
        Row::OfEdge(edge) if allows_edge(edge) => {
            put_edge(alloc, batch, number, &copied(alloc, b"name")?, edge)
        }
        Row::OfList(list) if allows_list(list) => put_list(alloc, batch, number, 0, list),
        Row::OfSlice(slice) if allows_slice(slice) => put_slice(alloc, batch, number, slice),
        Row::OfSession(session) if allows_session(session) => {
            put_session(alloc, batch, number, session)
        }
        Row::OfSustained => put_sustained(alloc, batch, number, 2),
        Row::OfDropped(dropped) => put_dropped(alloc, batch, number, dropped),
        Row::OfDead(dead) => put_dead(alloc, batch, number, dead),
        _ => Ok(()),
    }
}

/// Whether a row of the same kind stands at the place of a number.
fn is_there(
    alloc: Global,
    keeper: &mut MemKeeper,
    number: u64,
    row: &Row,
) -> Result<bool, RowFault> {
    let there = match row {
        Row::OfSetting(_) => read_setting(alloc, keeper)?.is_some(),
        Row::OfCounters(_) => read_counters(alloc, keeper)?.is_some(),
        Row::OfNode(_) => read_node(alloc, keeper, number)?.is_some(),
        Row::OfEdge(_) => read_edge(alloc, keeper, number, &copied(alloc, b"name")?)?.is_some(),
        Row::OfList(_) => read_list(alloc, keeper, number, 0)?.is_some(),
        Row::OfSlice(_) => read_slice(alloc, keeper, number)?.is_some(),
        Row::OfSession(_) => read_session(alloc, keeper, number)?.is_some(),
        Row::OfSustained => read_sustained(alloc, keeper, number, 2)?.is_some(),
        Row::OfDropped(_) => read_dropped(alloc, keeper, number)?.is_some(),
        Row::OfDead(_) => read_dead(alloc, keeper, number)?.is_some(),
    };
    Ok(there)
}

/// A number's place. Places of different numbers are different.
fn place(number: u32) -> u64 {
    u64::from(number).wrapping_mul(SPREAD)
}

/// A keeper that `count` commits of a few rows wrote.
fn written_keeper(alloc: Global, row: &Row, count: u32) -> Result<MemKeeper, Down> {
    let fails = Fails::At(Sequence::new(alloc));
    let mut keeper = MemKeeper::new(alloc, Sequence::new(alloc), fails);
    let mut batch = Batch::new(alloc);
    for number in 0..count {
        put(alloc, &mut batch, place(number), row)?;
        if batch.len() >= BATCH {
            keeper.commit(&batch)?;
            batch = Batch::new(alloc);
        }
    }
    keeper.commit(&batch)?;
    Ok(keeper)
}

/// How many of the places have a row of the kind.
fn count_read(
    alloc: Global,
    keeper: &mut MemKeeper,
    row: &Row,
    count: u32,
) -> Result<u64, RowFault> {
    let mut found = 0u64;
    for number in 0..count {
        if is_there(alloc, keeper, place(number), row)? {
            found = found.saturating_add(1);
        }
    }
    Ok(found)
}

/// Writes rows of a kind `count` times, a few a commit. None where there is no such kind.
pub fn written(alloc: Global, kind: &str, count: u32) -> Result<Option<u64>, Down> {
    let Some(row) = sample(alloc, kind)? else {
        return Ok(None);
    };
    let _keeper = written_keeper(alloc, &row, count)?;
    Ok(Some(u64::from(count)))
}

/// Writes rows of a kind `count` times, and reads as many. Returns the number of those that are there, and None where
/// there is no such kind.
pub fn read(alloc: Global, kind: &str, count: u32) -> Result<Option<u64>, Down> {
    let Some(row) = sample(alloc, kind)? else {
        return Ok(None);
    };
    let mut keeper = written_keeper(alloc, &row, count)?;
    match count_read(alloc, &mut keeper, &row, count) {
        Ok(found) => Ok(Some(found)),
        Err(RowFault::Memory) => Err(Down::Memory),
        Err(_) => Err(Down::Failed),
    }
}

/// Writes and reads rows of each kind. Returns the number of those that are there.
pub fn read_each(alloc: Global, count: u32) -> Result<u64, Down> {
    let mut found = 0u64;
    for kind in KINDS {
        if let Some(more) = read(alloc, kind, count)? {
            found = found.saturating_add(more);
        }
    }
    Ok(found)
}
