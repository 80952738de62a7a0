ghost use Rattle.std.specs.Prelude.{◌<◌, ◌≤◌, IfOk};
ghost use Rattle.jv_yard.specs.BlockCalls.{IsBlockParcel};
ghost use Rattle.jv_model.specs.declared.limits.TheConstants.{LAST_CLIENT, MAX_BLOCKS};

use jv_model::{BlockId, ClientId, Moment, Name, Sequence, Setting, copied};
use jv_outside::{
    Depot, Load, MemDepot, MemShelf, Object, ObjectList, Parcel, Shelf, Staged, StagedList,
};
use jv_slices::block_name;
use jv_yard::{Alone, MAIN, Note, What, Yard, YardDoor, YardFault};
use std::alloc::{AllocError, Global};
use std::test::Fail;
use test_values::{failing_at, setting};

/// The number of the slice, and the length of its blocks.
const ID: u64 = 7;

const SIZE: u32 = 3;

fn name_of(alloc: Global, index: u32) -> Result<Name, AllocError> {
    block_name(alloc, &setting(alloc)?, ID, index, SIZE)
}

fn staged(alloc: Global, client: u8, name: Name, bytes: &[u8]) -> Result<Staged, AllocError>
    requires { client ≤ LAST_CLIENT }
{
    Ok(Staged {
        client: ClientId(client),
        name,
        bytes: copied(alloc, bytes)?,
    })
}

/// Client A has staged block 0, and B block 1. Two names are of no block of the volume.
fn blocks(alloc: Global) -> Result<StagedList, AllocError> {
    let mut blocks = Sequence::new(alloc);
    blocks.push(staged(alloc, 0, name_of(alloc, 0)?, b"new")?)?;
    blocks.push(staged(alloc, 0, copied(alloc, b"test/chunks/0/0/7_0_0")?, b"")?)?;
    blocks.push(staged(alloc, 1, name_of(alloc, 1)?, b"of B")?)?;
    blocks.push(staged(alloc, 1, copied(alloc, b"other/chunks/0/0/7_0_3")?, b"new")?)?;
    Ok(blocks)
}

fn objects(alloc: Global) -> Result<ObjectList, AllocError> {
    let mut objects = Sequence::new(alloc);
    objects.push(Object {
        name: name_of(alloc, 0)?,
        bytes: copied(alloc, b"old")?,
        at: Moment(5),
    })?;
    Ok(objects)
}

/// A yard over these blocks and objects, whose depot fails at one call.
fn started(alloc: Global, fails: u64) -> Result<Option<Yard<MemDepot, MemShelf>>, AllocError> {
    let setting = setting(alloc)?;
    let objects = objects(alloc)?;
    let blocks = blocks(alloc)?;
    let fails = failing_at(alloc, fails)?;
    let never = failing_at(alloc, 0)?;
    let depot = MemDepot::new(alloc, objects, fails);
    let shelf = MemShelf::new(alloc, blocks, never);
    Ok(Yard::start(alloc, depot, shelf, &setting).ok())
}

/// A parcel for a block of a slice of a volume.
fn parcel(alloc: Global, setting: &Setting, index: u32) -> Result<Parcel, AllocError>
    requires index { index < MAX_BLOCKS }
    requires block { 3 ≤ setting.now.block }
    ensures { IfOk result (IsBlockParcel setting.now) }
{
    Ok(Parcel {
        name: block_name(alloc, setting, ID, index, SIZE)?,
        at: Moment(20),
        load: Load::Held(copied(alloc, b"put")?),
    })
}

/// Puts a block of client C, if the volume's blocks are long enough. Returns whether the parcel came back, and why.
fn put<D: Depot, H: Shelf>(
    alloc: Global,
    yard: &mut Yard<D, H>,
    index: u32,
) -> Result<Option<YardFault>, AllocError>
    requires { index < MAX_BLOCKS }
{
    if yard.setting().block < SIZE {
        return Ok(None);
    }
    let own = parcel(alloc, yard.setting(), index)?;
    let same = parcel(alloc, yard.setting(), index)?;
    match yard.put_block(ClientId(2), own) {
        Err((back, fault)) if back == same => Ok(Some(fault)),
        _ => Ok(None),
    }
}

/// Whether a client has staged a block.
fn has(
    alloc: Global,
    yard: &Yard<MemDepot, MemShelf>,
    client: ClientId,
    index: u32,
) -> Result<bool, AllocError> {
    let name = name_of(alloc, index)?;
    Ok(yard.is_staged(client, &name))
}

/// Whether a client reads these bytes of a block, or finds none.
fn reads(
    alloc: Global,
    yard: &mut Yard<MemDepot, MemShelf>,
    client: ClientId,
    index: u32,
    bytes: Option<&'static [u8]>,
) -> Result<bool, AllocError> {
    let name = name_of(alloc, index)?;
    match yard.get_block(client, &name) {
        Ok(Some(found)) => Ok(bytes == Some(found.as_slice())),
        Ok(None) => Ok(bytes.is_none()),
        Err(_) => Ok(false),
    }
}

#[test]
fn a_start_finds_the_blocks_that_each_client_has_staged(rt: HostRuntime) -> Result<(), Fail> {
    let alloc = rt.alloc();
    let Some(yard) = started(alloc, 0)? else {
        return Err(Fail::from(AllocError));
    };
    assert_eq!(rt; has(alloc, &yard, ClientId(0), 0), Ok(true));
    assert_eq!(rt; has(alloc, &yard, ClientId(1), 0), Ok(false));
    assert_eq!(rt; has(alloc, &yard, ClientId(1), 1), Ok(true));
    assert_eq!(rt; yard.staged_count(ClientId(0)), 1);
    assert_eq!(rt; yard.staged_count(ClientId(7)), 0);
    assert!(rt; yard.log().is_empty());
    Ok(())
}

#[test]
fn a_client_reads_its_own_shelf_before_the_depot(rt: HostRuntime) -> Result<(), Fail> {
    let alloc = rt.alloc();
    let Some(mut yard) = started(alloc, 0)? else {
        return Err(Fail::from(AllocError));
    };
    assert_eq!(rt;
        reads(alloc, &mut yard, ClientId(0), 0, Some(b"new")),
        Ok(true)
    );
    assert_eq!(rt;
        reads(alloc, &mut yard, ClientId(1), 0, Some(b"old")),
        Ok(true)
    );
    assert_eq!(rt; reads(alloc, &mut yard, ClientId(0), 1, None), Ok(true));
    Ok(())
}

#[test]
fn a_block_that_was_put_is_read_and_noted(rt: HostRuntime) -> Result<(), Fail> {
    let alloc = rt.alloc();
    let Some(yard) = started(alloc, 0)? else {
        return Err(Fail::from(AllocError));
    };
    let mut door = Alone::new(yard);
    let mut yard = door.take();
    assert_eq!(rt; put(alloc, &mut yard, 5), Ok(None));
    let note = Note {
        by: MAIN,
        client: 2,
        what: What::Put,
        block: BlockId {
            id: ID,
            index: 5,
            size: SIZE,
        },
    };
    assert_eq!(rt; yard.log(), [note].as_slice());
    assert_eq!(rt;
        reads(alloc, &mut yard, ClientId(0), 5, Some(b"put")),
        Ok(true)
    );
    door.give(yard);
    let (depot, _) = door.into_yard().into_parts();
    assert_eq!(rt; depot.faults(), 0);
    Ok(())
}

#[test]
fn a_failing_depot_hands_the_parcel_back(rt: HostRuntime) -> Result<(), Fail> {
    let alloc = rt.alloc();
    let Some(mut yard) = started(alloc, 1)? else {
        return Err(Fail::from(AllocError));
    };
    assert_eq!(rt; put(alloc, &mut yard, 5), Ok(Some(YardFault::Depot)));
    assert!(rt; yard.log().is_empty());
    assert_eq!(rt; reads(alloc, &mut yard, ClientId(2), 5, None), Ok(true));
    Ok(())
}
