//! Blocks that are found in the cache.
use jv_cache::{BlockCache, BlockKey};
use jv_model::{Down, copied};
use std::alloc::Global;

/// The blocks that are kept.
const BLOCKS: u32 = 1024;

/// The bytes of each block.
const BYTES: [u8; 16] = [7; 16];

/// What a number is multiplied by, so that blocks aren't found in their order.
const SPREAD: u32 = 2_654_435_769;

fn key(number: u32) -> BlockKey {
    BlockKey {
        id: u64::from(number.wrapping_mul(SPREAD) % BLOCKS),
        index: 0,
    }
}

/// A cache that is full.
fn full_cache(alloc: Global) -> Result<BlockCache, Down> {
    let mut cache = BlockCache::new(alloc, BLOCKS as usize)?;
    for number in 0..BLOCKS {
        if cache.keep(key(number), copied(alloc, &BYTES)?).is_err() {
            return Err(Down::Memory);
        }
    }
    Ok(cache)
}

/// Finds blocks `count` times. Returns the number of hits.
pub fn found(alloc: Global, count: u32) -> Result<u64, Down> {
    let mut cache = full_cache(alloc)?;
    for number in 0..count {
        let _ = cache.find(key(number));
    }
    Ok(cache.hits())
}
