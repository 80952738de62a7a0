//! Changes of rows that a transaction has drafted, beside the keeper that has the rows: what it reads sees its own changes.
ghost use Rattle.std.specs.Prelude.{◌≡◌, ◌==◌, [], None, Some, Ok, true, IsTrue};
ghost use Rattle.std.specs.List.{list_any};
ghost use Rattle.std.specs.Option.{option_copied};
ghost use Rattle.std.specs.Ordering.{eq_by_cmp};
ghost use Rattle.jv_model.specs.declared.row.Row.TheVariants.{OfSetting, OfCounters, OfNode, OfEdge, OfList, OfSlice, OfSession, OfSustained, OfDropped, OfDead};
ghost use Rattle.jv_model.specs.promise.rows.RowGrammar.{is_setting, is_counters, is_node, is_edge, is_list, is_slice, is_session};
ghost use Rattle.jv_model.specs.promise.rows.RowPlaces.{setting_key, counters_key, node_key, edge_key, list_key, slice_key, session_key, sustained_key, dropped_key, dead_key};
ghost use Rattle.jv_model.specs.promise.rows.RowKeys.{row_cmp};
ghost use Rattle.jv_outside.specs.Store.{Commits};
ghost use Rattle.jv_rows.specs.Drafts.{Sees, Drafts, ReadsPut, cell, key_in, last_change};

use crate::grammar::{Grammar, Spelled};
use crate::keys::{
    key_of_counters, key_of_dead, key_of_dropped, key_of_edge, key_of_list, key_of_node,
    key_of_session, key_of_setting, key_of_slice, key_of_sustained,
};
use crate::misread::Misread;
use crate::reading::read_row;
use jv_model::row_bytes::RowBytes;
use jv_model::tables::TABLE_OF_SLICES;
use jv_model::{
    Counters, Dead, Down, Dropped, Edge, List, Name, Node, RowFault, RowKey, Session, Setting,
    SliceRow,
};
use jv_outside::{Batch, Change, Keeper};
use std::alloc::{AllocError, Global};
use std::marker::Model;

// The last change of a key.
pub(crate) fn last_of<'a>(key: &RowKey, changes: &'a [Change]) -> Option<&'a Change>
    ensures { option_copied result ≡ last_change key.now changes.now }
{
    let mut rest = changes.len();
    while rest > 0 {
        rest -= 1;
        let change = &changes[rest];
        if is_of(key, change) {
            return Some(change);
        }
    }
    None
}

// Whether a change is of a key.
fn is_of(key: &RowKey, change: &Change) -> bool
    ensures { result ≡ eq_by_cmp row_cmp key.now (key_in change.now) }
{
    match change {
        Change::Put(at, _) => key.cmp(at).is_eq(),
        Change::Del(at) => key.cmp(at).is_eq(),
    }
}

// Whether a change is of a slice's row.
fn is_of_slice(change: &Change) -> bool
    ensures { result ≡ ((key_in change.now).tab == TABLE_OF_SLICES) }
{
    match change {
        Change::Put(at, _) => at.tab == TABLE_OF_SLICES,
        Change::Del(at) => at.tab == TABLE_OF_SLICES,
    }
}

// The row that bytes spell, which a change left at a key.
fn read_put<R: Grammar>(alloc: Global, key: RowKey, bytes: &RowBytes) -> Result<Option<R>, RowFault>
    ensures { ReadsPut R.read_as R.is_allowed key bytes.now result }
{
    match R::parse(alloc, bytes.joined(alloc)?.as_slice()) {
        Ok(row) => Ok(Some(row)),
        Err(Misread::Malformed) => Err(RowFault::Bad(key, bytes.copied(alloc)?)),
        Err(Misread::Memory) => Err(RowFault::Memory),
    }
}

/// Changes of rows, in the order in which they are made. Contracts see them as a list.
///
/// A reading returns `None` if and only if there is no such row once the changes are made.
///
/// # Errors
///
/// A reading returns [`RowFault::Bad`] for a row whose bytes are malformed, [`RowFault::Failed`] if the keeper failed, and
/// [`RowFault::Memory`] out of memory; rows and changes are then as before. What adds a change fails out of memory
/// alone, and the changes are then as before.
#[derive(Debug, Drop)]
pub struct Draft {
    pub(crate) batch: Batch,
    pub(crate) alloc: Global,
}

impl Model for Draft {
    ghost use Rattle.std.specs.Prelude.{List};
    ghost use Rattle.jv_outside.specs.declared.batch.Change.{Change};

    ghost Value = { List Change };

    ghost view = { λ d. d.batch };
}

impl Draft {
    /// No changes. Takes no memory.
    pub fn new(alloc: Global) -> Draft
        ensures { result ≡ [] }
    {
        Draft {
            batch: Batch::new(alloc),
            alloc,
        }
    }

    /// The volume's setting, of whatever version.
    pub fn setting<K: Keeper>(&self, k: &mut K) -> Result<Option<Setting>, RowFault>
        ensures { Sees OfSetting is_setting setting_key self.now
            (K.seen k.old) (K.seen k.new) result }
    {
        self.row(k, key_of_setting(self.alloc))
    }

    /// The next numbers and the running totals.
    pub fn counters<K: Keeper>(&self, k: &mut K) -> Result<Option<Counters>, RowFault>
        ensures { Sees OfCounters is_counters counters_key self.now
            (K.seen k.old) (K.seen k.new) result }
    {
        self.row(k, key_of_counters(self.alloc))
    }

    /// A node.
    pub fn node<K: Keeper>(&self, k: &mut K, inode: u64) -> Result<Option<Node>, RowFault>
        ensures { Sees OfNode is_node (node_key inode) self.now
            (K.seen k.old) (K.seen k.new) result }
    {
        self.row(k, key_of_node(self.alloc, inode))
    }

    /// An entry of a directory.
    pub fn edge<K: Keeper>(
        &self,
        k: &mut K,
        dir: u64,
        name: &Name,
    ) -> Result<Option<Edge>, RowFault>
        ensures { Sees OfEdge is_edge (edge_key dir name.now) self.now
            (K.seen k.old) (K.seen k.new) result }
    {
        let key = key_of_edge(self.alloc, dir, name)?;
        self.row(k, key)
    }

    /// The records of a window of a file.
    pub fn list<K: Keeper>(
        &self,
        k: &mut K,
        inode: u64,
        window: u32,
    ) -> Result<Option<List>, RowFault>
        ensures { Sees OfList is_list (list_key inode window) self.now
            (K.seen k.old) (K.seen k.new) result }
    {
        let key = key_of_list(self.alloc, inode, window)?;
        self.row(k, key)
    }

    /// A slice with its count.
    pub fn slice<K: Keeper>(&self, k: &mut K, id: u64) -> Result<Option<SliceRow>, RowFault>
        ensures { Sees OfSlice is_slice (slice_key id) self.now
            (K.seen k.old) (K.seen k.new) result }
    {
        self.row(k, key_of_slice(self.alloc, id))
    }

    /// A dead slice.
    pub fn dead<K: Keeper>(&self, k: &mut K, id: u64) -> Result<Option<Dead>, RowFault>
        ensures { Sees OfDead (λ dead. true) (dead_key id) self.now
            (K.seen k.old) (K.seen k.new) result }
    {
        self.row(k, key_of_dead(self.alloc, id))
    }

    /// A mounted client.
    pub fn session<K: Keeper>(&self, k: &mut K, sid: u64) -> Result<Option<Session>, RowFault>
        ensures { Sees OfSession is_session (session_key sid) self.now
            (K.seen k.old) (K.seen k.new) result }
    {
        self.row(k, key_of_session(self.alloc, sid))
    }

    /// Whether a session keeps a file without entries.
    pub fn sustained<K: Keeper>(
        &self,
        k: &mut K,
        sid: u64,
        inode: u64,
    ) -> Result<Option<()>, RowFault>
        ensures { Sees (λ unit. OfSustained) (λ unit. true) (sustained_key sid inode) self.now
            (K.seen k.old) (K.seen k.new) result }
    {
        let key = key_of_sustained(self.alloc, sid, inode)?;
        self.row(k, key)
    }

    /// Adds that these are the next numbers and the running totals. Out of memory the changes are as before.
    pub fn put_counters(&mut self, counters: &Counters) -> Result<(), AllocError>
        requires { IsTrue (is_counters counters.now) }
        ensures { Drafts counters_key (cell OfCounters (Some counters.now))
            self.old self.new result }
    {
        self.put(key_of_counters(self.alloc), counters)
    }

    /// Adds that the inode is this node. Out of memory the changes are as before.
    pub fn put_node(&mut self, inode: u64, node: &Node) -> Result<(), AllocError>
        requires { IsTrue (is_node node.now) }
        ensures { Drafts (node_key inode) (cell OfNode (Some node.now)) self.old self.new result }
    {
        self.put(key_of_node(self.alloc, inode), node)
    }

    /// Adds that the inode has no node. Out of memory the changes are as before.
    pub fn drop_node(&mut self, inode: u64) -> Result<(), AllocError>
        ensures { Drafts (node_key inode) None self.old self.new result }
    {
        self.drop_row(key_of_node(self.alloc, inode))
    }

    /// Adds that the name in the directory is this entry. Out of memory the changes are as before.
    pub fn put_edge(&mut self, dir: u64, name: &Name, edge: &Edge) -> Result<(), AllocError>
        requires { IsTrue (is_edge edge.now) }
        ensures { Drafts (edge_key dir name.now) (cell OfEdge (Some edge.now))
            self.old self.new result }
    {
        let key = key_of_edge(self.alloc, dir, name)?;
        self.put(key, edge)
    }

    /// Adds that the directory has no entry of the name. Out of memory the changes are as before.
    pub fn drop_edge(&mut self, dir: u64, name: &Name) -> Result<(), AllocError>
        ensures { Drafts (edge_key dir name.now) None self.old self.new result }
    {
        let key = key_of_edge(self.alloc, dir, name)?;
        self.drop_row(key)
    }

    /// Adds that the window of the file has these records. Out of memory the changes are as before.
    pub fn put_list(&mut self, inode: u64, window: u32, list: &List) -> Result<(), AllocError>
        requires { IsTrue (is_list list.now) }
        ensures { Drafts (list_key inode window) (cell OfList (Some list.now))
            self.old self.new result }
    {
        let key = key_of_list(self.alloc, inode, window)?;
        self.put(key, list)
    }

    /// Adds that the window of the file has no records. Out of memory the changes are as before.
    pub fn drop_list(&mut self, inode: u64, window: u32) -> Result<(), AllocError>
        ensures { Drafts (list_key inode window) None self.old self.new result }
    {
        let key = key_of_list(self.alloc, inode, window)?;
        self.drop_row(key)
    }

    /// Adds that the slice is this one. Out of memory the changes are as before.
    pub fn put_slice(&mut self, id: u64, slice: &SliceRow) -> Result<(), AllocError>
        requires { IsTrue (is_slice slice.now) }
        ensures { Drafts (slice_key id) (cell OfSlice (Some slice.now)) self.old self.new result }
    {
        self.put(key_of_slice(self.alloc, id), slice)
    }

    /// Adds that there is no such slice. Out of memory the changes are as before.
    pub fn drop_slice(&mut self, id: u64) -> Result<(), AllocError>
        ensures { Drafts (slice_key id) None self.old self.new result }
    {
        self.drop_row(key_of_slice(self.alloc, id))
    }

    /// Adds that the client's session is this one. Out of memory the changes are as before.
    pub fn put_session(&mut self, sid: u64, session: &Session) -> Result<(), AllocError>
        requires { IsTrue (is_session session.now) }
        ensures { Drafts (session_key sid) (cell OfSession (Some session.now))
            self.old self.new result }
    {
        self.put(key_of_session(self.alloc, sid), session)
    }

    /// Adds that there is no such session. Out of memory the changes are as before.
    pub fn drop_session(&mut self, sid: u64) -> Result<(), AllocError>
        ensures { Drafts (session_key sid) None self.old self.new result }
    {
        self.drop_row(key_of_session(self.alloc, sid))
    }

    /// Adds that the session keeps this file without entries. Out of memory the changes are as before.
    pub fn put_sustained(&mut self, sid: u64, inode: u64) -> Result<(), AllocError>
        ensures { Drafts (sustained_key sid inode) (Some (Ok OfSustained))
            self.old self.new result }
    {
        let key = key_of_sustained(self.alloc, sid, inode)?;
        self.put(key, &())
    }

    /// Adds that the session keeps no such file. Out of memory the changes are as before.
    pub fn drop_sustained(&mut self, sid: u64, inode: u64) -> Result<(), AllocError>
        ensures { Drafts (sustained_key sid inode) None self.old self.new result }
    {
        let key = key_of_sustained(self.alloc, sid, inode)?;
        self.drop_row(key)
    }

    /// Adds that the inode was a file of this length, whose lists are still to go. Out of memory the changes are as before.
    pub fn put_dropped(&mut self, inode: u64, dropped: &Dropped) -> Result<(), AllocError>
        ensures { Drafts (dropped_key inode) (cell OfDropped (Some dropped.now))
            self.old self.new result }
    {
        self.put(key_of_dropped(self.alloc, inode), dropped)
    }

    /// Adds that the slice is this dead one. Out of memory the changes are as before.
    pub fn put_dead(&mut self, id: u64, dead: &Dead) -> Result<(), AllocError>
        ensures { Drafts (dead_key id) (cell OfDead (Some dead.now)) self.old self.new result }
    {
        self.put(key_of_dead(self.alloc, id), dead)
    }

    // Whether some change is of a slice's row.
    pub(crate) fn changes_slices(&self) -> bool
        ensures { result ≡ list_any (λ change. (key_in change).tab == TABLE_OF_SLICES) self.now }
    {
        self.batch
            .as_slice()
            .iter()
            .any(|change| is_of_slice(change))
    }

    // The row at a key of a table.
    fn row<K: Keeper, R: Grammar>(&self, k: &mut K, key: RowKey) -> Result<Option<R>, RowFault>
        requires { key.tab ≡ R.tab }
        ensures { Sees R.row_as R.is_allowed key self.now (K.seen k.old) (K.seen k.new) result }
    {
        match last_of(&key, self.batch.as_slice()) {
            None => read_row(self.alloc, k, key),
            Some(Change::Put(_, bytes)) => read_put(self.alloc, key, bytes),
            Some(Change::Del(_)) => Ok(None),
        }
    }

    // Adds the row at a key of a table.
    fn put<R: Spelled>(&mut self, key: RowKey, row: &R) -> Result<(), AllocError>
        requires tab { key.tab ≡ R.tab }
        requires allowed { IsTrue (R.is_allowed row.now) }
        ensures { Drafts key (cell R.row_as (Some row.now)) self.old self.new result }
    {
        let bytes = row.spell(self.alloc)?;
        self.batch.put(key, RowBytes::from_bytes(bytes)?)
    }

    // Takes the row at a key away.
    fn drop_row(&mut self, key: RowKey) -> Result<(), AllocError>
        ensures { Drafts key None self.old self.new result }
    {
        self.batch.del(key)
    }

    /// Makes all the changes, or none of them after an error.
    ///
    /// # Errors
    ///
    /// [`Down::Failed`] if the keeper failed, and [`Down::Memory`] out of memory.
    pub fn commit<K: Keeper>(&self, k: &mut K) -> Result<(), Down>
        ensures { Commits (K.seen k.old) (K.seen k.new) result self.now }
    {
        k.commit(&self.batch)
    }
}
