//! Staged blocks in memory, in the order of their clients and names.
ghost use Rattle.std.specs.Prelude.{◌≡◌, ◌==◌, [], map, take, take_while, IfOk, IfErr, OnOk, OnErr, unwrap_or};
ghost use Rattle.std.specs.Option.{option_copied};
ghost use Rattle.std.specs.Ordering.{eq_by_cmp};
ghost use Rattle.std.specs.Range.Bound.{bound_map};
ghost use Rattle.jv_model.specs.promise.FiniteMap.{map_of};
ghost use Rattle.jv_outside.specs.Blocks.{key_of, names_after, staged_map, staging, unstaged};
ghost use Rattle.jv_outside.specs.promise.Blocks.{staged_at, staged_cmp, staged_key};
ghost use Rattle.jv_outside.specs.StoredBlocks.{blocks_in, key_start};

use crate::object::{Staged, StagedList};
use jv_model::{Bytes, ClientId, Name, NameList, Sequence, copied, push_in_room};
use std::alloc::{AllocError, Global};
use std::collections::BTreeMap;
use std::collections::btree_map::Range;
use std::ops::Bound;

/// Staged blocks in the order of their clients and names. Those that aren't in order yet are brought there by the next
/// call.
#[derive(Debug, Drop)]
pub(crate) struct BlockStore {
    sorted: BTreeMap<(u8, Name), Bytes>,
    // Blocks that aren't in order yet. Of blocks with one client and name the first stands, and before one in order.
    listed: Vec<Staged>,
    alloc: Global,
}

impl BlockStore {
    /// These blocks, of which the first of one client and name stands. Takes no memory.
    pub(crate) fn new(alloc: Global, blocks: StagedList) -> BlockStore
        ensures { blocks_in result ≡ staged_map blocks }
    {
        BlockStore {
            sorted: BTreeMap::new(alloc),
            listed: blocks.into_vec(),
            alloc,
        }
    }

    /// The bytes of a client's block.
    pub(crate) fn get(&mut self, c: ClientId, name: &Name) -> Result<Option<Bytes>, AllocError>
        ensures same { blocks_in self.new ≡ blocks_in self.old }
        ensures value { IfOk result (λ value. value ≡ staged_at c name.now (blocks_in self.old)) }
    {
        self.settle()?;
        let key = key_for(self.alloc, c.number(), name)?;
        match self.sorted.get(&key) {
            Some(bytes) => Ok(Some(copied(self.alloc, bytes.as_slice())?)),
            None => Ok(None),
        }
    }

    /// Puts a block at its client and name. Out of memory, nothing has changed.
    pub(crate) fn put(&mut self, c: ClientId, name: &Name, bytes: &[u8]) -> Result<(), AllocError>
        ensures ok { OnOk result (blocks_in self.new
            ≡ staging c name.now bytes.now (blocks_in self.old)) }
        ensures err { OnErr result (blocks_in self.new ≡ blocks_in self.old) }
    {
        self.settle()?;
        let block = Staged {
            client: c,
            name: copied(self.alloc, name.as_slice())?,
            bytes: copied(self.alloc, bytes)?,
        };
        match insert(&mut self.sorted, block) {
            Ok(()) => Ok(()),
            Err(_) => Err(AllocError),
        }
    }

    /// Removes a client's block. Out of memory it looks at each block to find it.
    pub(crate) fn remove(&mut self, c: ClientId, name: &Name)
        ensures { blocks_in self.new ≡ unstaged c name.now (blocks_in self.old) }
    {
        if self.remove_by_key(c, name).is_err() {
            self.remove_by_search(c, name);
        }
    }

    /// Removes a client's block. Out of memory, nothing has changed.
    fn remove_by_key(&mut self, c: ClientId, name: &Name) -> Result<(), AllocError>
        ensures ok { OnOk result (blocks_in self.new ≡ unstaged c name.now (blocks_in self.old)) }
        ensures err { OnErr result (blocks_in self.new ≡ blocks_in self.old) }
    {
        self.settle()?;
        let key = key_for(self.alloc, c.number(), name)?;
        self.sorted.remove(&key);
        Ok(())
    }

    /// Removes a client's block, and takes no memory.
    fn remove_by_search(&mut self, c: ClientId, name: &Name)
        ensures { blocks_in self.new ≡ unstaged c name.now (blocks_in self.old) }
    {
        let client = c.number();
        self.listed.retain(|block| !is_block(client, name, block));
        self.sorted.retain(|key, _| !is_key(client, name, key));
    }

    /// The names of a client's first `n` blocks after a name, or from its first on, in their order.
    pub(crate) fn list(
        &mut self,
        c: ClientId,
        after: Option<&Name>,
        n: u32,
    ) -> Result<NameList, AllocError>
        ensures same { blocks_in self.new ≡ blocks_in self.old }
        ensures found { IfOk result (λ found.
            found ≡ names_after c (option_copied after.entry) n (blocks_in self.old)) }
    {
        self.settle()?;
        let client = c.number();
        let first = first_key(self.alloc, client, after)?;
        let blocks = self.sorted.range((start(&first, after), Bound::Unbounded));
        names_of(self.alloc, blocks, client, n)
    }

    /// Brings the listed blocks into order. Out of memory, some of them wait still.
    fn settle(&mut self) -> Result<(), AllocError>
        ensures same { blocks_in self.new ≡ blocks_in self.old }
        ensures settled { OnOk result (self.new.listed.items ≡ []) }
    {
        while let Some(block) = self.listed.pop() {
            if let Err(refused) = insert(&mut self.sorted, block) {
                push_in_room(&mut self.listed, refused);
                return Err(AllocError);
            }
        }
        Ok(())
    }
}

/// Puts a block among blocks in order. Out of memory, nothing has changed, and it returns the block.
fn insert(sorted: &mut BTreeMap<(u8, Name), Bytes>, block: Staged) -> Result<(), Staged>
    ensures ok { OnOk result (map_of {order = staged_key} sorted.new.entries
        ≡ staging block.client block.name block.bytes (map_of sorted.old.entries)) }
    ensures err { OnErr result (sorted.new.entries ≡ sorted.old.entries) }
    ensures back { IfErr result (λ refused. refused ≡ block) }
{
    let client = block.client;
    match sorted.insert((client.number(), block.name), block.bytes) {
        Ok(_) => Ok(()),
        Err(refused) => {
            let ((_, name), bytes) = refused.value;
            Err(Staged {
                client,
                name,
                bytes,
            })
        }
    }
}

/// Whether a block is the one of that client and name.
fn is_block(client: u8, name: &Name, block: &Staged) -> bool
    ensures { result ≡ eq_by_cmp staged_cmp (client, name.now) (key_of block.now) }
{
    client
        .cmp(&block.client.number())
        .then(name.cmp(&block.name))
        .is_eq()
}

/// Whether a key is that of that client and name.
fn is_key(client: u8, name: &Name, key: &(u8, Name)) -> bool
    ensures { result ≡ eq_by_cmp staged_cmp (client, name.now) key.now }
{
    client.cmp(&key.0).then(name.cmp(&key.1)).is_eq()
}

/// The key of a client's name.
fn key_for(alloc: Global, client: u8, name: &Name) -> Result<(u8, Name), AllocError>
    ensures { IfOk result (λ key. key ≡ (client, name.now)) }
{
    Ok((client, copied(alloc, name.as_slice())?))
}

/// The key of a client's name, or the client's least.
fn first_key(alloc: Global, client: u8, name: Option<&Name>) -> Result<(u8, Name), AllocError>
    ensures { IfOk result (λ key. key ≡ (client, unwrap_or (option_copied name.entry) [])) }
{
    match name {
        Some(name) => key_for(alloc, client, name),
        None => Ok((client, Sequence::new(alloc))),
    }
}

/// Where a listing begins: after the key of a name, or else at that key.
fn start<'a>(first: &'a (u8, Name), after: Option<&Name>) -> Bound<&'a (u8, Name)>
    ensures { bound_map (λ key. key.now) result ≡ key_start first.entry.now
        (option_copied after.entry) }
{
    match after {
        Some(_) => Bound::Excluded(first),
        None => Bound::Included(first),
    }
}

/// Copies of the names of the first `n` of these blocks, up to one of another client.
fn names_of(
    alloc: Global,
    blocks: Range<'_, (u8, Name), Bytes>,
    client: u8,
    n: u32,
) -> Result<NameList, AllocError>
    ensures { IfOk result (λ found. found ≡ take n (map (λ block. block.0.1)
        (take_while (λ block. block.0.0 == client) blocks.entry))) }
{
    let mut found = Sequence::new(alloc);
    for (key, _) in blocks {
        if key.0 != client || found.len() >= n as usize {
            break;
        }
        found.push(copied(alloc, key.1.as_slice())?)?;
    }
    Ok(found)
}
