//! Rows in memory, by their keys.
ghost use Rattle.std.specs.Prelude.{◌≡◌, ◌==◌, [], take, take_while, IfOk, IfErr, OnOk, OnErr};
ghost use Rattle.std.specs.Option.{option_copied};
ghost use Rattle.std.specs.Range.Bound.{bound_map};
ghost use Rattle.jv_model.specs.promise.FiniteMap.{get, insert};
ghost use Rattle.jv_model.specs.rows.RowKeys.{row_map};
ghost use Rattle.jv_outside.specs.LazyTrees.{entries_in};
ghost use Rattle.jv_outside.specs.promise.Rows.{after_change, applied};
ghost use Rattle.jv_outside.specs.Rows.{rows_after};
ghost use Rattle.jv_outside.specs.Stored.{stored, IsSettled, scan_start};

use crate::batch::{Batch, Change};
use crate::lazy_tree::LazyTree;
use jv_model::row_bytes::RowBytes;
use jv_model::{RowKey, Rows, Sequence, push_in_room};
use std::alloc::{AllocError, Global};
use std::collections::VecDeque;
use std::collections::btree_map::Range;
use std::ops::Bound;

/// Rows by their keys. Those that it was given and changes that wait are brought into its tree by the next call.
#[derive(Debug, Drop)]
pub(crate) struct RowStore {
    tree: LazyTree<RowKey, RowBytes>,
    // Rows that aren't in the tree yet. Of rows with one key the first stands, and before one in the tree.
    listed: Vec<(RowKey, RowBytes)>,
    // Changes that were made and aren't in the tree yet.
    waiting: VecDeque<Change>,
    alloc: Global,
}

impl RowStore {
    /// These rows, of which the first of one key stands. Takes no memory.
    pub(crate) fn new(alloc: Global, rows: Rows) -> RowStore
        ensures { stored result ≡ row_map rows }
    {
        RowStore {
            tree: LazyTree::new(alloc),
            listed: rows.into_vec(),
            waiting: VecDeque::new(alloc),
            alloc,
        }
    }

    /// The bytes at a key.
    pub(crate) fn get(&mut self, key: &RowKey) -> Result<Option<RowBytes>, AllocError>
        ensures same { stored self.new ≡ stored self.old }
        ensures value { IfOk result (λ value. value ≡ get (stored self.old) key.now) }
    {
        self.settle()?;
        match self.tree.get(key) {
            Some(bytes) => Ok(Some(bytes.shared()?)),
            None => Ok(None),
        }
    }

    /// The first `n` rows of a table after a key, or from the table's first on, in the order of their keys.
    pub(crate) fn scan(
        &mut self,
        tab: u8,
        after: Option<&RowKey>,
        n: u32,
    ) -> Result<Rows, AllocError>
        ensures same { stored self.new ≡ stored self.old }
        ensures found { IfOk result (λ found.
            found ≡ rows_after (stored self.old) tab (option_copied after.entry) n) }
    {
        self.settle()?;
        self.tree.sort()?;
        let first = RowKey {
            tab,
            a: 0,
            b: Sequence::new(self.alloc),
        };
        let rows = self
            .tree
            .sorted
            .range((start(&first, after), Bound::Unbounded));
        copied_rows(self.alloc, rows, tab, n)
    }

    /// Makes all the changes. Out of memory, it has made none.
    pub(crate) fn commit(&mut self, batch: &Batch) -> Result<(), AllocError>
        ensures ok { OnOk result (stored self.new ≡ applied batch.now (stored self.old)) }
        ensures err { OnErr result (stored self.new ≡ stored self.old) }
    {
        self.settle()?;
        self.waiting = copied_changes(self.alloc, batch.as_slice())?;
        // They are made now. If there is no memory to bring them among the rows, they wait for the next call.
        let _ = self.settle();
        Ok(())
    }

    /// Brings all rows into the tree and makes what waits. Out of memory, some of it waits still.
    fn settle(&mut self) -> Result<(), AllocError>
        ensures same { stored self.new ≡ stored self.old }
        ensures settled { OnOk result (IsSettled self.new) }
    {
        self.settle_listed()?;
        self.make_waiting()
    }

    /// Brings the listed rows into the tree.
    fn settle_listed(&mut self) -> Result<(), AllocError>
        ensures same { stored self.new ≡ stored self.old }
        ensures settled { OnOk result (self.new.listed.items ≡ []) }
    {
        while let Some((key, bytes)) = self.listed.pop() {
            if let Err(refused) = self.tree.insert(key, bytes) {
                push_in_room(&mut self.listed, refused);
                return Err(AllocError);
            }
        }
        Ok(())
    }

    /// Makes the changes that wait.
    fn make_waiting(&mut self) -> Result<(), AllocError>
        requires { self.old.listed.items ≡ [] }
        ensures same { stored self.new ≡ stored self.old }
        ensures settled { OnOk result (IsSettled self.new) }
    {
        while let Some(change) = self.waiting.pop_front() {
            if let Err(refused) = make(&mut self.tree, change) {
                self.waiting.push_front(refused).unwrap();
                return Err(AllocError);
            }
        }
        Ok(())
    }
}

/// Makes a change in a tree. Out of memory, nothing has changed, and it returns the change.
fn make(tree: &mut LazyTree<RowKey, RowBytes>, change: Change) -> Result<(), Change>
    ensures ok { OnOk result (row_map (entries_in tree.new)
        ≡ after_change change (row_map (entries_in tree.old))) }
    ensures err { OnErr result (entries_in tree.new ≡ entries_in tree.old) }
    ensures back { IfErr result (λ refused. refused ≡ change) }
{
    match change {
        Change::Put(key, bytes) => match tree.insert(key, bytes) {
            Ok(()) => Ok(()),
            Err((key, bytes)) => Err(Change::Put(key, bytes)),
        },
        Change::Del(key) => {
            tree.remove(&key);
            Ok(())
        }
    }
}

/// Where the rows of a table after a key begin, for the least key of the table.
fn start<'a>(first: &'a RowKey, after: Option<&'a RowKey>) -> Bound<&'a RowKey>
    ensures { bound_map (λ key. key.now) result ≡ scan_start first.entry.now
        (option_copied after.entry) }
{
    match after {
        Some(last) if first.cmp(last).is_le() => Bound::Excluded(last),
        _ => Bound::Included(first),
    }
}

/// Copies of the first `n` of these rows, up to one of another table.
fn copied_rows(
    alloc: Global,
    rows: Range<'_, RowKey, RowBytes>,
    tab: u8,
    n: u32,
) -> Result<Rows, AllocError>
    ensures { IfOk result (λ found. found ≡ take n (take_while (λ row. row.0.tab == tab)
        rows.entry)) }
{
    let mut found = Sequence::new(alloc);
    for (key, bytes) in rows {
        if key.tab != tab || found.len() >= n as usize {
            break;
        }
        found.push((key.copied(alloc)?, bytes.shared()?))?;
    }
    Ok(found)
}

/// Copies of changes.
fn copied_changes(alloc: Global, changes: &[Change]) -> Result<VecDeque<Change>, AllocError>
    ensures { IfOk result (λ copies. copies.items ≡ changes.now) }
{
    let mut copies = VecDeque::with_capacity(alloc, changes.len())?;
    for change in changes {
        copies.push_back(copied_change(alloc, change)?)?;
    }
    Ok(copies)
}

/// A copy of a change.
fn copied_change(alloc: Global, change: &Change) -> Result<Change, AllocError>
    ensures { IfOk result (λ copy. copy ≡ change.now) }
{
    Ok(match change {
        Change::Put(key, bytes) => Change::Put(key.copied(alloc)?, bytes.shared()?),
        Change::Del(key) => Change::Del(key.copied(alloc)?),
    })
}
