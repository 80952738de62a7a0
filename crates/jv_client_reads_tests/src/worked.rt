ghost use Rattle.std.specs.Prelude.{◌≡◌, ◌<◌, ◌^◌, length, IfOk};
ghost use Rattle.jv_client_handles.specs.Views.{HasRecords};

use jv_cache::BlockCache;
use jv_client_handles::{View, Views};
use jv_client_reads::{Fetch, Need};
use jv_model::{BlockId, Bytes, List, Rec, WINDOW};
use std::alloc::{AllocError, Global};
use std::test::Fail;
use test_values::{BLOCK, block_bytes, byte};

/// What a reading asked for, the looks that it cites, and its bytes.
#[derive(Drop)]
struct Run {
    asked: Vec<Need>,
    first: u64,
    second: u64,
    bytes: Bytes,
}

/// The bytes of a block, each by its place in the slice.
fn bytes_of(alloc: Global, block: BlockId) -> Result<Bytes, AllocError>
    ensures { IfOk result (λ bytes. length bytes ≡ block.size) }
{
    Ok(Bytes::from_vec(block_bytes(alloc, block)?))
}

/// Slice 1 in the last 60 positions of the first window; in the second, from the tenth position on, 12 bytes of slice 2
/// that lie in two blocks.
fn view_of(alloc: Global, window: u32, length: u64) -> Result<View, AllocError>
    ensures { IfOk result HasRecords }
{
    let shown = if window == 0 {
        Rec {
            pos: WINDOW as u32 - 60,
            id: 1,
            size: 60,
            off: 0,
            len: 60,
        }
    } else {
        Rec {
            pos: 10,
            id: 2,
            size: 70_000,
            off: 65_530,
            len: 12,
        }
    };
    Ok(View {
        entry: 7 + u64::from(window),
        length,
        list: List::from_vec(vec![in alloc; shown]?),
    })
}

/// The byte of a position, worked out from the two records.
fn wanted(position: u64) -> u8 {
    if position >= WINDOW - 60 && position < WINDOW {
        byte(1, position - (WINDOW - 60))
    } else if position >= WINDOW + 10 && position < WINDOW + 22 {
        byte(2, position - (WINDOW + 10) + 65_530)
    } else {
        0
    }
}

fn is_as_wanted(bytes: &[u8], from: u64) -> bool
    requires { from < 2 ^ 60 }
{
    for at in 0..bytes.len() {
        if bytes[at] != wanted(from + at as u64) {
            return false;
        }
    }
    true
}

/// Reads 200 bytes from the hundredth before the second window on, of a file with this length.
fn read(alloc: Global, length: u64, cache: &mut BlockCache) -> Result<Run, AllocError> {
    let mut views = Views::new(alloc);
    let mut asked = Vec::new(alloc);
    let mut fetch = Fetch::new(alloc, WINDOW - 100, 200, BLOCK)?;
    for _ in 0..16 {
        let need = fetch.advance(&views, cache)?;
        asked.push(need)?;
        match need {
            Need::Look(window) => views.set(window, view_of(alloc, window, length)?)?,
            Need::Block(block) => fetch.fill(cache, block, bytes_of(alloc, block)?)?,
            Need::Nothing => {
                let (first, second, bytes) = fetch.into_parts()?;
                return Ok(Run {
                    asked,
                    first,
                    second,
                    bytes,
                });
            }
        }
    }
    Err(AllocError)
}

const FIRST: BlockId = BlockId {
    id: 1,
    index: 0,
    size: 60,
};

const LOW: BlockId = BlockId {
    id: 2,
    index: 0,
    size: BLOCK,
};

const HIGH: BlockId = BlockId {
    id: 2,
    index: 1,
    size: 4_464,
};

#[test]
fn two_windows_are_read_with_their_holes(rt: HostRuntime) -> Result<(), Fail> {
    let mut cache = BlockCache::new(rt.alloc(), 0)?;
    let run = read(rt.alloc(), WINDOW + 80, &mut cache)?;
    let asked = [
        Need::Look(0),
        Need::Block(FIRST),
        Need::Look(1),
        Need::Block(LOW),
        Need::Block(HIGH),
        Need::Nothing,
    ];
    assert_eq!(rt; run.asked.as_slice(), asked.as_slice());
    assert_eq!(rt; (run.first, run.second, run.bytes.len()), (7, 8, 180));
    assert!(rt; is_as_wanted(run.bytes.as_slice(), WINDOW - 100));
    Ok(())
}

#[test]
fn the_second_window_is_not_read_after_a_short_first(rt: HostRuntime) -> Result<(), Fail> {
    let mut cache = BlockCache::new(rt.alloc(), 0)?;
    let run = read(rt.alloc(), WINDOW - 50, &mut cache)?;
    let asked = [Need::Look(0), Need::Block(FIRST), Need::Nothing];
    assert_eq!(rt; run.asked.as_slice(), asked.as_slice());
    assert_eq!(rt; (run.first, run.second, run.bytes.len()), (7, 0, 50));
    assert!(rt; is_as_wanted(run.bytes.as_slice(), WINDOW - 100));
    Ok(())
}

#[test]
fn a_second_reading_finds_each_block_once(rt: HostRuntime) -> Result<(), Fail> {
    let mut cache = BlockCache::new(rt.alloc(), 8)?;
    let _ = read(rt.alloc(), WINDOW + 80, &mut cache)?;
    let run = read(rt.alloc(), WINDOW + 80, &mut cache)?;
    let asked = [Need::Look(0), Need::Look(1), Need::Nothing];
    assert_eq!(rt; run.asked.as_slice(), asked.as_slice());
    assert_eq!(rt; (cache.hits(), cache.misses(), cache.len()), (3, 3, 3));
    assert!(rt; is_as_wanted(run.bytes.as_slice(), WINDOW - 100));
    Ok(())
}
