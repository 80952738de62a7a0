use jv_client_puts::{PutFault, put_block};
use jv_model::{ClientId, MAX_BLOCK, MIN_BLOCK, Moment, WINDOW, copied};
use jv_outside::{Carrier, Depot, MemCarrier, MemDepot, MemShelf, ObjectList, Shelf, StagedList};
use jv_slices::blocks_of;
use jv_yard::Yard;
use std::alloc::{AllocError, Global};
use std::test::Fail;
use test_values::{failing_at, setting};

/// A yard over a depot without objects, which fails at one call.
fn started(alloc: Global, fails: u64) -> Result<Option<Yard<MemDepot, MemShelf>>, AllocError> {
    let setting = setting(alloc)?;
    let fails = failing_at(alloc, fails)?;
    let never = failing_at(alloc, 0)?;
    let depot = MemDepot::new(alloc, ObjectList::new(alloc), fails);
    let shelf = MemShelf::new(alloc, StagedList::new(alloc), never);
    Ok(Yard::start(alloc, depot, shelf, &setting).ok())
}

/// Two and a half blocks, of which no two have equal bytes.
fn slice(alloc: Global) -> Result<Vec<u8>, AllocError> {
    let mut bytes = Vec::new(alloc);
    for at in 0..163_840u32 {
        bytes.push((at % 251) as u8)?;
    }
    Ok(bytes)
}

/// Puts a block of client C's slice 7, and returns what came of it. None where the slice has no block at this index.
fn put<D: Depot, H: Shelf>(
    alloc: Global,
    yard: &mut Yard<D, H>,
    carrier: &mut dyn Carrier,
    index: u32,
    bytes: &[u8],
) -> Option<Result<(), PutFault>> {
    let block = yard.setting().block;
    if block < MIN_BLOCK || block > MAX_BLOCK || bytes.len() > WINDOW as usize {
        return None;
    }
    if index >= blocks_of(bytes.len() as u32, block) {
        return None;
    }
    Some(put_block(
        alloc,
        yard,
        carrier,
        ClientId(2),
        Moment(20),
        7,
        index,
        bytes,
    ))
}

/// Whether the depot has these bytes under a name.
fn has(alloc: Global, depot: &mut MemDepot, name: &[u8], bytes: &[u8]) -> Result<bool, AllocError> {
    let name = copied(alloc, name)?;
    match depot.get(&name) {
        Ok(Some(found)) => Ok(found.as_slice() == bytes),
        _ => Ok(false),
    }
}

/// Whether the depot has the three blocks of these bytes under their names.
fn has_blocks(alloc: Global, depot: &mut MemDepot, bytes: &[u8]) -> Result<bool, AllocError> {
    let names = [
        b"test/chunks/0/0/7_0_65536".as_slice(),
        b"test/chunks/0/0/7_1_65536".as_slice(),
        b"test/chunks/0/0/7_2_32768".as_slice(),
    ];
    for (name, part) in names.iter().zip(bytes.chunks(MIN_BLOCK as usize)) {
        if !has(alloc, depot, *name, part)? {
            return Ok(false);
        }
    }
    Ok(true)
}

#[test]
fn a_slice_is_put_block_by_block(rt: HostRuntime) -> Result<(), Fail> {
    let alloc = rt.alloc();
    let bytes = slice(alloc)?;
    let mut carrier = MemCarrier::new(alloc, failing_at(alloc, 0)?);
    let Some(mut yard) = started(alloc, 0)? else {
        return Err(Fail::from(AllocError));
    };
    for index in 0..3 {
        assert_eq!(rt;
            put(alloc, &mut yard, &mut carrier, index, &bytes),
            Some(Ok(())),
            "block {index}"
        );
    }
    assert_eq!(rt; put(alloc, &mut yard, &mut carrier, 3, &bytes), None);
    let (mut depot, _) = yard.into_parts();
    assert!(rt; has_blocks(alloc, &mut depot, &bytes)?);
    Ok(())
}

#[test]
fn a_device_that_fails_is_named_and_the_next_put_succeeds(rt: HostRuntime) -> Result<(), Fail> {
    let alloc = rt.alloc();
    let bytes = slice(alloc)?;
    let mut carrier = MemCarrier::new(alloc, failing_at(alloc, 1)?);
    let Some(mut yard) = started(alloc, 1)? else {
        return Err(Fail::from(AllocError));
    };
    let rows = [
        ("the carrier fails", Err(PutFault::Carrier)),
        ("the depot fails", Err(PutFault::Depot)),
        ("none fails", Ok(())),
    ];
    for (name, result) in rows {
        assert_eq!(rt;
            put(alloc, &mut yard, &mut carrier, 1, &bytes),
            Some(result),
            "{name}"
        );
    }
    assert_eq!(rt; yard.log().len(), 1);
    Ok(())
}
