//! A map by keys whose order is made when it is asked for.
ghost use Rattle.std.specs.Prelude.{◌≡◌, [], Some, None, IfErr, OnOk, OnErr};
ghost use Rattle.std.specs.BTreeMap.{is_at};
ghost use Rattle.std.specs.Map.{lookup};
ghost use Rattle.std.specs.Option.{option_copied};
ghost use Rattle.jv_outside.specs.LazyTrees.{entries_in, Alters, IsLike};

use indexmap::IndexMap;
use std::alloc::{AllocError, Global};
use std::collections::BTreeMap;
use std::hash::Hash;

/// Values at keys, which are found by a key's hash. Only `sort` brings them into the order of the keys, each of them once
/// after it was inserted.
#[derive(Debug, Drop)]
pub(crate) struct LazyTree<K: Ord + Hash, V> {
    // What was inserted since the last `sort`. It stands before what is sorted.
    recent: IndexMap<K, V>,
    pub(crate) sorted: BTreeMap<K, V>,
}

impl<K: Ord + Hash + Drop, V: Drop> LazyTree<K, V> {
    /// No values. Takes no memory.
    pub(crate) fn new(alloc: Global) -> LazyTree<K, V>
        ensures { entries_in result ≡ [] }
    {
        LazyTree {
            recent: IndexMap::new(alloc),
            sorted: BTreeMap::new(alloc),
        }
    }

    /// The value at a key, in constant time on average where it was inserted since the last `sort`.
    pub(crate) fn get(&self, key: &K) -> Option<&V>
        ensures { option_copied result ≡ lookup (is_at (K.cmp key.now)) (entries_in self.now) }
    {
        match self.recent.get(key) {
            Some(value) => Some(value),
            None => self.sorted.get(key),
        }
    }

    /// Puts a value at a key. Out of memory, nothing has changed, and it returns both.
    pub(crate) fn insert(&mut self, key: K, value: V) -> Result<(), (K, V)>
        ensures ok { OnOk result
            (Alters K.cmp key (Some value) (entries_in self.old) (entries_in self.new)) }
        ensures err { OnErr result (entries_in self.new ≡ entries_in self.old) }
        ensures back { IfErr result (λ pair. pair ≡ (key, value)) }
    {
        match self.recent.insert(key, value) {
            Ok(_) => Ok(()),
            Err(refused) => Err(refused.value),
        }
    }

    /// Removes the value at a key, if there is one.
    pub(crate) fn remove(&mut self, key: &K)
        ensures { Alters K.cmp key.now None (entries_in self.old) (entries_in self.new) }
    {
        self.recent.swap_remove(key);
        self.sorted.remove(key);
    }

    /// Brings all values into the order of their keys. Out of memory, some of them aren't there yet.
    pub(crate) fn sort(&mut self) -> Result<(), AllocError>
        ensures same { IsLike K.cmp (entries_in self.old) (entries_in self.new) }
        ensures sorted { OnOk result (entries_in self.new ≡ self.new.sorted.entries) }
    {
        // Room for the pair that there is no memory to sort.
        self.recent.reserve(1)?;
        while let Some((key, value)) = self.recent.pop() {
            if let Err((key, value)) = put(&mut self.sorted, key, value) {
                self.recent.insert(key, value).unwrap();
                return Err(AllocError);
            }
        }
        Ok(())
    }
}

/// Puts a value at a key among values in order. Out of memory, nothing has changed, and it returns both.
fn put<K: Ord + Drop, V: Drop>(sorted: &mut BTreeMap<K, V>, key: K, value: V) -> Result<(), (K, V)>
    ensures ok { OnOk result (Alters K.cmp key (Some value) sorted.old.entries sorted.new.entries) }
    ensures err { OnErr result (sorted.new.entries ≡ sorted.old.entries) }
    ensures back { IfErr result (λ pair. pair ≡ (key, value)) }
{
    match sorted.insert(key, value) {
        Ok(_) => Ok(()),
        Err(refused) => Err(refused.value),
    }
}
