//! The devices for blocks in memory: what their calls answer where memory is left, and their failing calls.
//! Out of memory a check is false, too.
ghost use Rattle.std.specs.Prelude.{◌≡◌, OnOk};
ghost use Rattle.std.specs.Option.{option_map};
ghost use Rattle.jv_outside.specs.Carriage.{Sends};
ghost use Rattle.jv_outside.specs.Objects.{with_object};

use jv_model::{ClientId, Down, Moment, Name, NameList, Seen, SeenList, Sequence, copied};
use jv_outside::{
    Carrier, Depot, Load, MemCarrier, MemDepot, MemShelf, NeverCarrier, NeverDepot, NeverShelf,
    Object, ObjectList, Parcel, Shelf, Staged, StagedList,
};
use std::alloc::{AllocError, Global};
use test_values::failing_at;

/// Sends bytes and publishes what stands for them.
fn carry<D: Depot>(
    depot: &mut D,
    carrier: &mut dyn Carrier,
    name: &Name,
    bytes: &[u8],
    now: Moment,
) -> Result<(), Down>
    ensures { OnOk result ((D.seen depot.new).content
        ≡ option_map (with_object name.now bytes.now now) (D.seen depot.old).content) }
{
    let parcel = carrier.send(name, bytes, now)?;
    match depot.publish(parcel) {
        Ok(()) => Ok(()),
        Err((_, down)) => Err(down),
    }
}

fn object(alloc: Global, name: &[u8], bytes: &[u8]) -> Result<Object, AllocError> {
    let name = copied(alloc, name)?;
    let bytes = copied(alloc, bytes)?;
    Ok(Object {
        name,
        bytes,
        at: Moment(7),
    })
}

fn two_objects(alloc: Global) -> Result<ObjectList, AllocError> {
    let mut objects = Sequence::new(alloc);
    objects.push(object(alloc, b"9", b"nine")?)?;
    objects.push(object(alloc, b"10", b"ten")?)?;
    Ok(objects)
}

fn mem_depot(alloc: Global, failing: u64) -> Result<MemDepot, AllocError> {
    let fails = failing_at(alloc, failing)?;
    Ok(MemDepot::new(alloc, two_objects(alloc)?, fails))
}

/// Whether depot and carrier open.
fn opens<D: Depot>(alloc: Global, depot: &mut D, carrier: &mut dyn Carrier) -> bool {
    let Ok(place) = copied(alloc, b"a place") else {
        return false;
    };
    depot.attach(&place).is_ok() && carrier.attach(&place).is_ok()
}

/// Whether the depot takes an object of the name `2`.
fn takes<D: Depot>(alloc: Global, depot: &mut D, carrier: &mut dyn Carrier) -> bool {
    let Ok(name) = copied(alloc, b"2") else {
        return false;
    };
    carry(depot, carrier, &name, b"two", Moment(20)).is_ok()
}

/// Whether a depot has these bytes under a name, or no object.
fn finds<D: Depot>(alloc: Global, depot: &mut D, name: &[u8], bytes: Option<&[u8]>) -> bool {
    let Ok(name) = copied(alloc, name) else {
        return false;
    };
    match depot.get(&name) {
        Ok(Some(found)) => bytes == Some(found.as_slice()),
        Ok(None) => bytes.is_none(),
        Err(_) => false,
    }
}

/// What a listing shows of an object: its name, its size and its moment.
type Shown = (&'static [u8], u64, Moment);

fn seen_of(alloc: Global, name: &[u8], size: u64, at: Moment) -> Result<Seen, AllocError> {
    let name = copied(alloc, name)?;
    Ok(Seen { name, size, at })
}

fn all_seen(alloc: Global, all: &[Shown]) -> Result<SeenList, AllocError> {
    let mut list = Sequence::new(alloc);
    for (name, size, at) in all {
        list.push(seen_of(alloc, *name, *size, *at)?)?;
    }
    Ok(list)
}

/// Whether a depot lists these objects, the first `n` after a name.
fn lists<D: Depot>(
    alloc: Global,
    depot: &mut D,
    after: Option<&Name>,
    n: u32,
    all: &[Shown],
) -> bool {
    let Ok(list) = all_seen(alloc, all) else {
        return false;
    };
    depot.list(after, n, Moment(30)) == Ok(list)
}

/// Whether a depot lists three objects in the order of their bytes.
fn lists_all<D: Depot>(alloc: Global, depot: &mut D) -> bool {
    let all = [
        (b"10".as_slice(), 3, Moment(7)),
        (b"2".as_slice(), 3, Moment(20)),
        (b"9".as_slice(), 4, Moment(7)),
    ];
    lists(alloc, depot, None, 9, &all)
}

/// Whether a depot removes an object, and lists the next after it.
fn passes<D: Depot>(alloc: Global, depot: &mut D, name: &Name) -> bool {
    let next = [(b"2".as_slice(), 3, Moment(20))];
    depot.remove(name).is_ok() && lists(alloc, depot, Some(name), 1, &next)
}

/// Whether a depot removes the first of three objects, has it no more, and lists the next after it.
fn removes<D: Depot>(alloc: Global, depot: &mut D) -> bool {
    match copied(alloc, b"10") {
        Ok(ten) => passes(alloc, depot, &ten) && finds(alloc, depot, b"10", None),
        Err(_) => false,
    }
}

/// Whether depot and carrier open, and the depot takes an object and finds it.
fn carries<D: Depot>(alloc: Global, depot: &mut D, carrier: &mut dyn Carrier) -> bool {
    opens(alloc, depot, carrier)
        && takes(alloc, depot, carrier)
        && finds(alloc, depot, b"2", Some(b"two"))
}

/// Whether a carrier in memory stands where it was opened, once a depot took an object from it.
fn carries_in_memory<D: Depot>(alloc: Global, depot: &mut D) -> bool {
    let Ok(fails) = failing_at(alloc, 0) else {
        return false;
    };
    let mut carrier = MemCarrier::new(alloc, fails);
    carries(alloc, depot, &mut carrier) && carrier.opened() == Some(b"a place".as_slice())
}

#[test]
fn a_depot_stores_objects_in_the_order_of_their_bytes(rt: HostRuntime) -> Result<(), AllocError> {
    let mut depot = mem_depot(rt.alloc(), 0)?;
    assert!(rt; carries_in_memory(rt.alloc(), &mut depot));
    assert!(rt; lists_all(rt.alloc(), &mut depot));
    assert!(rt; removes(rt.alloc(), &mut depot));
    Ok(())
}

fn never_depot(alloc: Global) -> Result<NeverDepot, AllocError> {
    Ok(NeverDepot::new(alloc, two_objects(alloc)?))
}

fn never_carries<D: Depot>(alloc: Global, depot: &mut D) -> bool {
    let mut carrier = NeverCarrier::new(alloc);
    carries(alloc, depot, &mut carrier)
}

#[test]
fn a_depot_that_never_fails_stores_objects(rt: HostRuntime) -> Result<(), AllocError> {
    let mut depot = never_depot(rt.alloc())?;
    assert!(rt; never_carries(rt.alloc(), &mut depot));
    assert!(rt; lists_all(rt.alloc(), &mut depot));
    assert!(rt; removes(rt.alloc(), &mut depot));
    Ok(())
}

fn parcel(alloc: Global, load: Load) -> Result<Parcel, AllocError> {
    Ok(Parcel {
        name: copied(alloc, b"9")?,
        at: Moment(20),
        load,
    })
}

/// A parcel for the name `9` that holds its bytes.
fn held(alloc: Global) -> Result<Parcel, AllocError> {
    parcel(alloc, Load::Held(copied(alloc, b"new")?))
}

/// A parcel for the name `9` whose bytes lie in a file.
fn placed(alloc: Global) -> Result<Parcel, AllocError> {
    parcel(alloc, Load::Placed(copied(alloc, b"/tmp/9")?))
}

/// Whether a depot fails to publish a parcel, and hands back one that is the same as another.
fn refuses(depot: &mut MemDepot, own: Parcel, same: &Parcel) -> bool {
    match depot.publish(own) {
        Err((back, down)) => down == Down::Failed && back == *same,
        Ok(()) => false,
    }
}

fn refuses_held(alloc: Global, depot: &mut MemDepot) -> bool {
    let Ok(same) = held(alloc) else {
        return false;
    };
    match held(alloc) {
        Ok(own) => refuses(depot, own, &same),
        Err(_) => false,
    }
}

fn refuses_placed(alloc: Global, depot: &mut MemDepot) -> bool {
    let Ok(same) = placed(alloc) else {
        return false;
    };
    match placed(alloc) {
        Ok(own) => refuses(depot, own, &same),
        Err(_) => false,
    }
}

/// Whether a depot has the bytes that the object `9` began with.
fn has_nine(alloc: Global, depot: &mut MemDepot) -> bool {
    let Ok(nine) = copied(alloc, b"9") else {
        return false;
    };
    match depot.bytes_of(&nine) {
        Ok(Some(bytes)) => bytes.as_slice() == b"nine".as_slice(),
        _ => false,
    }
}

#[test]
fn a_parcel_that_is_not_published_is_handed_back(rt: HostRuntime) -> Result<(), AllocError> {
    let mut depot = mem_depot(rt.alloc(), 1)?;
    assert!(rt; refuses_held(rt.alloc(), &mut depot));
    assert!(rt; refuses_placed(rt.alloc(), &mut depot));
    assert!(rt; depot.faults() == 2);
    assert!(rt; has_nine(rt.alloc(), &mut depot));
    Ok(())
}

/// A carrier as a worker has it.
#[derive(Drop)]
struct Worker {
    carrier: Box<dyn Carrier>,
}

/// Sends bytes by a worker's carrier.
fn send_by(worker: &mut Worker, name: &Name, bytes: &[u8], now: Moment) -> Result<Parcel, Down>
    ensures { Sends
        ((⟦<dyn Carrier as Carrier>⟧ worker.old.carrier.vtable).seen worker.old.carrier.value)
        ((⟦<dyn Carrier as Carrier>⟧ worker.new.carrier.vtable).seen worker.new.carrier.value)
        result name.now bytes.now now }
{
    worker.carrier.send(name, bytes, now)
}

/// Whether a worker sends such a parcel.
fn sends(worker: &mut Worker, same: &Parcel) -> bool {
    match send_by(worker, &same.name, b"new", Moment(20)) {
        Ok(sent) => sent == *same,
        Err(_) => false,
    }
}

/// Whether a worker's carrier fails to send such a parcel.
fn fails(worker: &mut Worker, same: &Parcel) -> bool {
    match send_by(worker, &same.name, b"new", Moment(20)) {
        Ok(_) => false,
        Err(down) => down == Down::Failed,
    }
}

#[test]
fn a_carrier_fails_as_asked(rt: HostRuntime) -> Result<(), AllocError> {
    let alloc = rt.alloc();
    let same = held(alloc)?;
    let carrier = MemCarrier::new(alloc, failing_at(alloc, 1)?);
    let mut worker = Worker {
        carrier: Box::new(alloc, carrier)?,
    };
    assert!(rt; fails(&mut worker, &same));
    assert!(rt; sends(&mut worker, &same));
    Ok(())
}

fn names(alloc: Global, all: &[&'static [u8]]) -> Result<NameList, AllocError> {
    let mut names = Sequence::new(alloc);
    for name in all {
        names.push(copied(alloc, *name)?)?;
    }
    Ok(names)
}

/// A block of the name `9`.
fn block(alloc: Global, client: ClientId, bytes: &[u8]) -> Result<Staged, AllocError> {
    let name = copied(alloc, b"9")?;
    let bytes = copied(alloc, bytes)?;
    Ok(Staged {
        client,
        name,
        bytes,
    })
}

fn two_blocks(alloc: Global) -> Result<StagedList, AllocError> {
    let mut blocks = Sequence::new(alloc);
    blocks.push(block(alloc, ClientId(1), b"of B")?)?;
    blocks.push(block(alloc, ClientId(0), b"of A")?)?;
    Ok(blocks)
}

fn opens_shelf<H: Shelf>(alloc: Global, shelf: &mut H) -> bool {
    match copied(alloc, b"a place") {
        Ok(place) => shelf.attach(&place).is_ok(),
        Err(_) => false,
    }
}

/// Whether a shelf takes a block of the name `10`.
fn stages<H: Shelf>(alloc: Global, shelf: &mut H) -> bool {
    match copied(alloc, b"10") {
        Ok(ten) => shelf.put(ClientId(0), &ten, b"new").is_ok(),
        Err(_) => false,
    }
}

/// Whether a client's block on a shelf has these bytes, or isn't there.
fn stands<H: Shelf>(shelf: &mut H, client: ClientId, name: &Name, bytes: Option<&[u8]>) -> bool {
    match shelf.get(client, name) {
        Ok(Some(found)) => bytes == Some(found.as_slice()),
        Ok(None) => bytes.is_none(),
        Err(_) => false,
    }
}

/// Whether a shelf lists these names of client A's blocks after a name.
fn lists_names<H: Shelf>(
    alloc: Global,
    shelf: &mut H,
    after: Option<&Name>,
    all: &[&'static [u8]],
) -> bool {
    let Ok(names) = names(alloc, all) else {
        return false;
    };
    shelf.list(ClientId(0), after, 9) == Ok(names)
}

/// Whether client A has the block `10`, and a block `9` after it.
fn has_both<H: Shelf>(alloc: Global, shelf: &mut H) -> bool {
    let Ok(ten) = copied(alloc, b"10") else {
        return false;
    };
    stands(shelf, ClientId(0), &ten, Some(b"new")) && lists_names(alloc, shelf, Some(&ten), &[b"9"])
}

/// Whether a shelf opens, takes a block of a client, and finds and lists the client's blocks.
fn keeps<H: Shelf>(alloc: Global, shelf: &mut H) -> bool {
    opens_shelf(alloc, shelf)
        && stages(alloc, shelf)
        && has_both(alloc, shelf)
        && lists_names(alloc, shelf, None, &[b"10", b"9"])
}

/// Whether a shelf removes one client's block, and keeps another's of that name.
fn clears<H: Shelf>(alloc: Global, shelf: &mut H) -> bool {
    let Ok(nine) = copied(alloc, b"9") else {
        return false;
    };
    shelf.remove(ClientId(0), &nine).is_ok()
        && stands(shelf, ClientId(0), &nine, None)
        && stands(shelf, ClientId(1), &nine, Some(b"of B"))
}

/// Whether client A has staged only the block `10`.
fn has_ten(alloc: Global, shelf: &mut MemShelf) -> bool {
    match names(alloc, &[b"10"]) {
        Ok(ten) => shelf.names_of(ClientId(0)) == Ok(ten),
        Err(_) => false,
    }
}

fn mem_shelf(alloc: Global) -> Result<MemShelf, AllocError> {
    let fails = failing_at(alloc, 0)?;
    Ok(MemShelf::new(alloc, two_blocks(alloc)?, fails))
}

#[test]
fn a_shelf_stages_blocks_of_each_client(rt: HostRuntime) -> Result<(), AllocError> {
    let mut shelf = mem_shelf(rt.alloc())?;
    assert!(rt; keeps(rt.alloc(), &mut shelf));
    assert!(rt; clears(rt.alloc(), &mut shelf));
    assert!(rt; has_ten(rt.alloc(), &mut shelf));
    Ok(())
}

fn never_shelf(alloc: Global) -> Result<NeverShelf, AllocError> {
    Ok(NeverShelf::new(alloc, two_blocks(alloc)?))
}

#[test]
fn a_shelf_that_never_fails_stages_blocks(rt: HostRuntime) -> Result<(), AllocError> {
    let mut shelf = never_shelf(rt.alloc())?;
    assert!(rt; keeps(rt.alloc(), &mut shelf));
    assert!(rt; clears(rt.alloc(), &mut shelf));
    Ok(())
}
