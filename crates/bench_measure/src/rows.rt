//! Rows through a keeper in memory.
use jv_model::row_bytes::RowBytes;
use jv_model::tables::TABLE_OF_NODES;
use jv_model::{Down, RowKey, Rows, Sequence, copied};
use jv_outside::{Batch, Fails, Keeper, MemKeeper};
use std::alloc::{AllocError, Global};

/// The bytes of each row.
const BYTES: [u8; 48] = [7; 48];

/// What a number is multiplied by, so that keys don't come in their order.
const SPREAD: u64 = 0x9E37_79B9_7F4A_7C15;

/// The rows of a commit.
const BATCH: usize = 4;

/// The rows that a scan asks for.
const PAGE: u32 = 256;

/// The key of a row by its number. Keys of different numbers are different.
fn key(alloc: Global, number: u32) -> RowKey {
    RowKey {
        tab: TABLE_OF_NODES,
        a: u64::from(number).wrapping_mul(SPREAD),
        b: Sequence::new(alloc),
    }
}

/// A keeper with `count` rows, which commits wrote.
fn written_keeper(alloc: Global, count: u32) -> Result<MemKeeper, Down> {
    let fails = Fails::At(Sequence::new(alloc));
    let mut keeper = MemKeeper::new(alloc, Sequence::new(alloc), fails);
    let mut batch = Batch::new(alloc);
    for number in 0..count {
        let bytes = RowBytes::from_bytes(copied(alloc, &BYTES)?)?;
        batch.put(key(alloc, number), bytes)?;
        if batch.len() >= BATCH {
            keeper.commit(&batch)?;
            batch = Batch::new(alloc);
        }
    }
    keeper.commit(&batch)?;
    Ok(keeper)
}

/// Writes `count` rows, a few a commit.
pub fn written(alloc: Global, count: u32) -> Result<u64, Down> {
    let _keeper = written_keeper(alloc, count)?;
    Ok(u64::from(count))
}

/// Writes `count` rows and reads each. Returns the number of those that are there.
pub fn read(alloc: Global, count: u32) -> Result<u64, Down> {
    let mut keeper = written_keeper(alloc, count)?;
    let mut found = 0u64;
    for number in 0..count {
        if keeper.get(&key(alloc, number))?.is_some() {
            found = found.saturating_add(1);
        }
    }
    Ok(found)
}

/// Copies the key of each row of a page, and returns the last copy, which is `last` where there is no row.
fn last_key(
    alloc: Global,
    page: &Rows,
    last: Option<RowKey>,
) -> Result<Option<RowKey>, AllocError> {
    let mut last = last;
    for (row, _) in page.as_slice() {
        last = Some(row.copied(alloc)?);
    }
    Ok(last)
}

/// Writes `count` rows and scans them page by page. Returns the number of those that are there.
pub fn scanned(alloc: Global, count: u32) -> Result<u64, Down> {
    let mut keeper = written_keeper(alloc, count)?;
    let mut found = 0u64;
    let mut last = None;
    for _ in 0..=count / PAGE {
        let page = keeper.scan(TABLE_OF_NODES, last.as_ref(), PAGE)?;
        found = found.saturating_add(page.len() as u64);
        last = last_key(alloc, &page, last)?;
    }
    Ok(found)
}
