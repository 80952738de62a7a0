//! The rows of a volume by their tables.
use crate::whole::stop::{Stop, expect};
use jv_model::row_bytes::RowBytes;
use jv_model::tables::{
    TABLE_OF_COUNTERS, TABLE_OF_DEAD, TABLE_OF_EDGES, TABLE_OF_LISTS, TABLE_OF_SETTING,
    TABLE_OF_SUSTAINED,
};
use jv_model::{
    Counters, Dead, Edge, List, MAX_NAME, Name, Node, Row, RowKey, Rows, Setting, SliceRow, copied,
};
use jv_rows::{parse_counters, parse_row, parse_setting};
use std::alloc::Global;
use std::collections::{BTreeMap, BTreeSet};

/// The kind of a file.
pub const FILE: u8 = 1;

/// The kind of a directory.
pub const DIRECTORY: u8 = 2;

/// An entry of a directory.
#[derive(Drop)]
pub struct Entry {
    pub dir: u64,
    pub name: Name,
    pub edge: Edge,
}

/// The list of a window of a file.
#[derive(Drop)]
pub struct WindowList {
    pub inode: u64,
    /// Which window of the file, from 0.
    pub window: u64,
    pub list: List,
}

/// A file that a session keeps.
#[derive(Clone, Copy)]
pub struct Kept {
    pub sid: u64,
    pub inode: u64,
}

/// The rows of a volume by their tables.
#[derive(Drop)]
pub struct Tables {
    pub setting: Setting,
    pub counters: Counters,
    pub nodes: BTreeMap<u64, Node>,
    pub entries: Vec<Entry>,
    pub lists: Vec<WindowList>,
    pub slices: BTreeMap<u64, SliceRow>,
    pub sessions: BTreeSet<u64>,
    pub kept: Vec<Kept>,
    /// The session that keeps a file, by inode; where several do, the last of them.
    pub keepers: BTreeMap<u64, u64>,
    /// The inodes of files that are gone.
    pub dropped: BTreeSet<u64>,
    pub dead: BTreeMap<u64, Dead>,
}

/// The tables of a volume, where each row is one of its table, and those of setting and counters are there.
pub fn read_tables(alloc: Global, rows: &Rows) -> Result<Tables, Stop> {
    let Some(bytes) = first_in(rows, TABLE_OF_COUNTERS) else {
        return Err(Stop::Flaw("there is no row of counters"));
    };
    let counters = parse_counters(bytes.joined(alloc)?.as_slice())?;
    let Some(bytes) = first_in(rows, TABLE_OF_SETTING) else {
        return Err(Stop::Flaw("there is no row of the setting"));
    };
    let setting = parse_setting(alloc, bytes.joined(alloc)?.as_slice())?;
    let mut tables = Tables::new(alloc, setting, counters);
    tables.add_all(alloc, rows)?;
    Ok(tables)
}

/// The bytes of the first row of a table.
fn first_in(rows: &Rows, tab: u8) -> Option<&RowBytes> {
    for (key, bytes) in rows.as_slice() {
        if key.tab == tab {
            return Some(bytes);
        }
    }
    None
}

impl Tables {
    fn new(alloc: Global, setting: Setting, counters: Counters) -> Tables {
        Tables {
            setting,
            counters,
            nodes: BTreeMap::new(alloc),
            entries: Vec::new(alloc),
            lists: Vec::new(alloc),
            slices: BTreeMap::new(alloc),
            sessions: BTreeSet::new(alloc),
            kept: Vec::new(alloc),
            keepers: BTreeMap::new(alloc),
            dropped: BTreeSet::new(alloc),
            dead: BTreeMap::new(alloc),
        }
    }

    fn add_all(&mut self, alloc: Global, rows: &Rows) -> Result<(), Stop> {
        for (key, bytes) in rows.as_slice() {
            self.add(alloc, key, bytes)?;
        }
        Ok(())
    }

    fn add(&mut self, alloc: Global, key: &RowKey, bytes: &RowBytes) -> Result<(), Stop> {
        expect(is_key(key), "a row's key isn't one of its table")?;
        match parse_row(alloc, key.tab, bytes.joined(alloc)?.as_slice())? {
            Row::OfSetting(_) | Row::OfCounters(_) => Ok(()),
            Row::OfNode(node) => put(&mut self.nodes, key.a, node),
            Row::OfEdge(edge) => self.add_entry(alloc, key, edge),
            Row::OfList(list) => self.add_list(key, list),
            Row::OfSlice(slice) => put(&mut self.slices, key.a, slice),
            Row::OfSession(_) => add(&mut self.sessions, key.a),
            Row::OfSustained => self.add_kept(key),
            Row::OfDropped(_) => add(&mut self.dropped, key.a),
            Row::OfDead(dead) => put(&mut self.dead, key.a, dead),
        }
    }

    fn add_entry(&mut self, alloc: Global, key: &RowKey, edge: Edge) -> Result<(), Stop> {
        let name = copied(alloc, key.b.as_slice())?;
        self.entries.push(Entry {
            dir: key.a,
            name,
            edge,
        })?;
        Ok(())
    }

    fn add_list(&mut self, key: &RowKey, list: List) -> Result<(), Stop> {
        self.lists.push(WindowList {
            inode: key.a,
            window: number_in(key.b.as_slice()),
            list,
        })?;
        Ok(())
    }

    fn add_kept(&mut self, key: &RowKey) -> Result<(), Stop> {
        let inode = number_in(key.b.as_slice());
        self.kept.push(Kept { sid: key.a, inode })?;
        put(&mut self.keepers, inode, key.a)
    }

    /// Whether an inode is a directory that is there.
    pub fn is_directory(&self, inode: u64) -> bool {
        self.kind(inode) == Some(DIRECTORY)
    }

    /// Whether an inode is a file that is there.
    pub fn is_file(&self, inode: u64) -> bool {
        self.kind(inode) == Some(FILE)
    }

    fn kind(&self, inode: u64) -> Option<u8> {
        let node = self.nodes.get(&inode)?;
        Some(node.kind)
    }

    /// The parent that a node names: 0 for one that is no directory, or isn't there.
    pub fn parent(&self, inode: u64) -> u64 {
        match self.nodes.get(&inode) {
            Some(node) => node.parent,
            None => 0,
        }
    }
}

/// Puts a value at a number.
fn put<V: Drop>(map: &mut BTreeMap<u64, V>, number: u64, value: V) -> Result<(), Stop> {
    map.insert(number, value)?;
    Ok(())
}

/// Adds a number.
fn add(set: &mut BTreeSet<u64>, number: u64) -> Result<(), Stop> {
    set.insert(number)?;
    Ok(())
}

/// Whether the rows of a table have such keys: one alone, a number, a number and a name, or a number and a number of 32
/// or 64 bits.
fn is_key(key: &RowKey) -> bool {
    let b = key.b.as_slice();
    match key.tab {
        TABLE_OF_SETTING | TABLE_OF_COUNTERS => key.a == 0 && b.is_empty(),
        TABLE_OF_EDGES => is_entry_name(b),
        TABLE_OF_LISTS => b.len() == 4,
        TABLE_OF_SUSTAINED => b.len() == 8,
        tab => tab <= TABLE_OF_DEAD && b.is_empty(),
    }
}

/// Whether an entry may have this name: 1 to [`MAX_NAME`] bytes, none of them a slash or 0.
fn is_entry_name(name: &[u8]) -> bool {
    !name.is_empty()
        && name.len() <= MAX_NAME
        && name.iter().all(|byte| *byte != b'/' && *byte != 0)
}

/// The number that bytes spell, the first byte the greatest; of more than eight bytes that of the last eight.
fn number_in(bytes: &[u8]) -> u64 {
    let mut number = 0u64;
    for byte in bytes {
        number = number.wrapping_mul(256).wrapping_add(u64::from(*byte));
    }
    number
}
