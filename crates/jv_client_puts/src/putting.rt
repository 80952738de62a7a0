//! Blocks of a slice, put where the volume's objects are.
ghost use Rattle.std.specs.Prelude.{◌≡◌, ◌<◌, ◌≤◌, length};
ghost use Rattle.jv_client_puts.specs.Putting.{PutsFlight, carrier_fault_of};
ghost use Rattle.jv_model.specs.promise.blocks.Slices.{block_count};
ghost use Rattle.jv_model.specs.declared.limits.TheConstants.{WINDOW};
ghost use Rattle.jv_client_shared.specs.Lengths.{IsLength};

use jv_model::{ClientId, Device, Down, Fault, Moment};
use jv_outside::{Carrier, Depot, Shelf};
use jv_slices::{block_len, block_name};
use jv_yard::{ObservedYard, Yard, YardFault};
use std::alloc::Global;

/// Why a block wasn't put.
#[derive(Clone, Copy, Debug, PartialEq, Eq)]
pub enum PutFault {
    /// The carrier failed, and its count of faults rose.
    Carrier,
    /// The depot failed, and its count of faults rose.
    Depot,
    Memory,
}

impl From<PutFault> for Fault {
    ghost use Rattle.std.specs.Prelude.{◌≡◌};
    ghost use Rattle.jv_client_puts.specs.Putting.{fault_of};

    ghost from_gives = { λ fault refusal. refusal ≡ fault_of fault };

    fn from(fault: PutFault) -> Fault {
        match fault {
            PutFault::Carrier => Fault::DeviceFailed(Device::Carrier),
            PutFault::Depot => Fault::DeviceFailed(Device::Depot),
            PutFault::Memory => Fault::NoMemory,
        }
    }
}

/// What an error of the carrier is to a put.
fn carrier_fault(down: Down) -> PutFault
    ensures { result ≡ carrier_fault_of down }
{
    match down {
        Down::Failed => PutFault::Carrier,
        Down::Memory => PutFault::Memory,
    }
}

/// Puts the block at `index` of a slice into the depot, for a client and with the moment `now`. The slice has the
/// number `id` and these bytes, at most a window of them. The carrier sends the block's bytes under its name, then the
/// depot publishes what was sent, and the yard notes it. The moment is in seconds. JuiceFS, Internals: blocks.
///
/// # Errors
///
/// [`PutFault::Carrier`] if the carrier failed, [`PutFault::Depot`] if the depot failed, or [`PutFault::Memory`].
/// Nothing has changed but the count of the device that failed.
pub fn put_block<D: Depot, H: Shelf>(
    alloc: Global,
    yard: &mut Yard<D, H>,
    carrier: &mut dyn Carrier,
    client: ClientId,
    now: Moment,
    id: u64,
    index: u32,
    bytes: &[u8],
) -> Result<(), PutFault>
    requires named { 0 < id }
    requires length { let seen = ⟦<Yard<D, H> as ObservedYard>⟧.seen in
        IsLength (seen yard.old).setting.block }
    requires short { length bytes.now ≤ WINDOW }
    requires there { let seen = ⟦<Yard<D, H> as ObservedYard>⟧.seen in
        index < block_count (length bytes.now) (seen yard.old).setting.block }
    ensures { let seen = ⟦<Yard<D, H> as ObservedYard>⟧.seen in
        let way = ⟦<dyn Carrier as Carrier>⟧ in
        PutsFlight client now (record { id = id; bytes = bytes.now; put = index })
        (seen yard.old) (seen yard.new)
        ((way carrier.old.0).seen carrier.old.1) ((way carrier.new.0).seen carrier.new.1) result }
{
    let setting = yard.setting();
    let block = setting.block;
    let len = block_len(bytes.len() as u32, block, index);
    let Ok(name) = block_name(alloc, setting, id, index, len) else {
        return Err(PutFault::Memory);
    };
    let from = (index * block) as usize;
    let part = &bytes[from..from + len as usize];
    let parcel = match carrier.send(&name, part, now) {
        Ok(parcel) => parcel,
        Err(down) => return Err(carrier_fault(down)),
    };
    match yard.put_block(client, parcel) {
        Ok(()) => Ok(()),
        Err((_, YardFault::Depot)) => Err(PutFault::Depot),
        Err((_, YardFault::Memory)) => Err(PutFault::Memory),
        Err((_, YardFault::Shelf)) => unreachable!(),
    }
}
