use jv_cache::{BlockCache, BlockKey};
use jv_model::copied;
use std::process::Abort;
use std::test::Fail;

const FIRST: BlockKey = BlockKey { id: 1, index: 0 };

const SECOND: BlockKey = BlockKey { id: 1, index: 1 };

const THIRD: BlockKey = BlockKey { id: 2, index: 0 };

fn keep(
    rt: &(impl Abort + AllocGlobal),
    cache: &mut BlockCache,
    key: BlockKey,
    text: &str,
) -> Result<(), Fail> {
    let bytes = copied(rt.alloc(), text.as_bytes())?;
    assert!(rt;
        cache.keep(key, bytes).is_ok(),
        "the bytes of {key:?} came back"
    );
    Ok(())
}

fn expect(rt: &impl Abort, cache: &mut BlockCache, key: BlockKey, text: &str) {
    match cache.find(key) {
        Some(bytes) => assert_eq!(rt; bytes.as_slice(), text.as_bytes(), "{key:?}"),
        None => assert!(rt; text == "none", "{key:?} is not there"),
    }
}

#[test]
fn the_least_recently_found_block_makes_room(rt: HostRuntime) -> Result<(), Fail> {
    let mut cache = BlockCache::new(rt.alloc(), 2)?;
    keep(&rt, &mut cache, FIRST, "first")?;
    keep(&rt, &mut cache, SECOND, "second")?;
    expect(&rt, &mut cache, FIRST, "first");
    keep(&rt, &mut cache, THIRD, "third")?;
    expect(&rt, &mut cache, SECOND, "none");
    keep(&rt, &mut cache, THIRD, "again")?;
    expect(&rt, &mut cache, FIRST, "first");
    expect(&rt, &mut cache, THIRD, "again");
    assert_eq!(rt; (cache.hits(), cache.misses(), cache.len()), (3, 1, 2));
    Ok(())
}
