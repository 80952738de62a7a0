use crate::key::BlockKey;
use jv_model::Bytes;
use lru::LruCache;
use std::alloc::{AllocError, Global};
use std::marker::Model;
use std::num::NonZeroUsize;

/// The blocks that a client read last, with counts of hits and misses. It keeps no more of them than it was made for.
#[derive(Drop)]
pub struct BlockCache {
    /// `None` in a cache for no block.
    blocks: Option<LruCache<BlockKey, Bytes>>,
    hits: u64,
    misses: u64,
}

impl Model for BlockCache {
    ghost use Rattle.jv_cache.specs.Cached.{Cached, cached, IsBounded};

    ghost Value = { Cached };

    ghost view = { λ c. cached c.blocks c.hits c.misses };

    ghost invariant = { λ c. IsBounded c.blocks };
}

impl BlockCache {
    ghost use Rattle.std.specs.Prelude.{◌≡◌, ◌⊎◌, ◌<◌, ◌≤◌, [], length, is_some, false, IsSome, IfOk, IsOk, OnOk, OnErr, IfErr};
    ghost use Rattle.std.specs.Option.{option_copied};
    ghost use Rattle.std.specs.Borrow.{sem};
    ghost use Rattle.jv_cache.specs.Loans.{EndsNoted};
    ghost use Rattle.jv_cache.specs.Cached.{found_in, promoted_in, noted_in, kept_in, IsFirst};

    /// An empty cache of at most `entries` blocks. It takes memory for a block only when that is kept. The only error
    /// is out of memory.
    pub fn new(alloc: Global, entries: usize) -> Result<BlockCache, AllocError>
        ensures { IfOk result (λ cache. cache ≡ record {
          blocks = [];
          entries = entries;
          hits = 0;
          misses = 0;
        }) }
    {
        let blocks = match NonZeroUsize::new(entries) {
            None => None,
            Some(entries) => Some(LruCache::sparse(alloc, entries)?),
        };
        Ok(BlockCache {
            blocks,
            hits: 0,
            misses: 0,
        })
    }

    /// Puts a block first, if it is there, and returns whether it is.
    fn promote(&mut self, key: BlockKey) -> bool
        ensures there { result ≡ is_some (found_in self.old key) }
        ensures first { self.new ≡ promoted_in self.old key }
        ensures absent { result ≡ false → self.new ≡ self.old }
    {
        match &mut self.blocks {
            None => false,
            Some(blocks) => blocks.promote(&key),
        }
    }

    fn note(&mut self, key: BlockKey)
        ensures { self.new ≡ noted_in self.old key }
    {
        if self.promote(key) {
            self.hits = self.hits.saturating_add(1);
        } else {
            self.misses = self.misses.saturating_add(1);
        }
    }

    fn peek(&self, key: BlockKey) -> Option<&Bytes>
        ensures { option_copied result ≡ found_in self.now key }
    {
        match &self.blocks {
            None => None,
            Some(blocks) => blocks.peek(&key),
        }
    }

    /// The bytes of a block, if they are kept; the block is then the most recently used one. Counts a hit or a miss. Takes
    /// no memory.
    pub fn find(&mut self, key: BlockKey) -> Option<&Bytes>
        ensures* notes { sem 𝓛 (EndsNoted self.entry key) }
        ensures found { option_copied result ≡ found_in self.old key }
    {
        self.note(key);
        self.peek(key)
    }

    /// Keeps a block as the most recently used one, in place of the least recently used one where there is no room for
    /// another. A cache for no block keeps nothing and succeeds. Out of memory the bytes come back, and nothing has
    /// changed; a block that is there already takes no memory.
    pub fn keep(&mut self, key: BlockKey, bytes: Bytes) -> Result<(), Bytes>
        ensures kept { OnOk result (self.new ≡ kept_in self.old key bytes) }
        ensures first { OnOk result (0 < self.old.entries → IsFirst self.new key bytes) }
        ensures bounded { length self.new.blocks ≤ self.new.entries }
        ensures succeeds { (self.old.entries ≡ 0) ⊎ IsSome (found_in self.old key) → IsOk result }
        ensures returned { IfErr result (λ same. same ≡ bytes) }
        ensures unchanged { OnErr result (self.new ≡ self.old) }
    {
        let Some(blocks) = &mut self.blocks else {
            return Ok(());
        };
        match blocks.put(key, bytes) {
            Ok(_) => Ok(()),
            Err(failed) => Err(failed.value.1),
        }
    }

    /// The number of finds that were hits. It saturates at 2^64 - 1. Takes no memory.
    pub fn hits(&self) -> u64
        ensures { result ≡ self.now.hits }
    {
        self.hits
    }

    /// The number of finds that were misses. It saturates at 2^64 - 1. Takes no memory.
    pub fn misses(&self) -> u64
        ensures { result ≡ self.now.misses }
    {
        self.misses
    }

    /// The number of blocks that are kept. Takes no memory.
    pub fn len(&self) -> usize
        ensures count { result ≡ length self.now.blocks }
        ensures within { result ≤ self.now.entries }
    {
        match &self.blocks {
            None => 0,
            Some(blocks) => blocks.len(),
        }
    }
}
