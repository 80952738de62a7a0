ghost use Rattle.std.specs.Prelude.{◌≡◌};
ghost use Rattle.jv_outside.specs.promise.Carriage.{Moves};
ghost use Rattle.jv_cmd.specs.Attaching.{AttachesAll};
ghost use Rattle.jv_cmd.specs.promise.Attaching.{ended_at, ended_by_yard};
ghost use Rattle.jv_cmd.specs.promise.Worlds.{block_devices};

use crate::ended::Ended;
use jv_model::{Down, Text};
use jv_outside::{Carrier, Depot, Shelf};
use jv_yard::YardFault;

/// How a command ends at a device's error, where it ends so if the device failed.
fn ended_at(failed: Ended, down: Down) -> Ended
    ensures { result ≡ ended_at failed down }
{
    match down {
        Down::Failed => failed,
        Down::Memory => Ended::OutOfMemory,
    }
}

/// Opens a carrier at a place.
fn attach_carrier(carrier: &mut Box<dyn Carrier>, place: &Text) -> Result<(), Down>
    ensures { Moves ((⟦<dyn Carrier as Carrier>⟧ carrier.old.vtable).seen carrier.old.value)
        ((⟦<dyn Carrier as Carrier>⟧ carrier.new.vtable).seen carrier.new.value) result place.now }
{
    carrier.attach(place)
}

/// Opens the depot at a bucket, then the carrier there, and then the shelf at a folder. The first one that isn't opened
/// ends it, and those after it are as they were.
pub(crate) fn attach_all<D: Depot, H: Shelf>(
    bucket: &Text,
    folder: &Text,
    depot: &mut D,
    carrier: &mut Box<dyn Carrier>,
    shelf: &mut H,
) -> Result<(), Ended>
    ensures { AttachesAll bucket.now folder.now
        (block_devices (D.seen depot.old) (H.seen shelf.old)
        ((⟦<dyn Carrier as Carrier>⟧ carrier.old.vtable).seen carrier.old.value))
        (block_devices (D.seen depot.new) (H.seen shelf.new)
        ((⟦<dyn Carrier as Carrier>⟧ carrier.new.vtable).seen carrier.new.value))
        result }
{
    if let Err(down) = depot.attach(bucket) {
        return Err(ended_at(Ended::DepotFailed, down));
    }
    if let Err(down) = attach_carrier(carrier, bucket) {
        return Err(ended_at(Ended::CarrierFailed, down));
    }
    if let Err(down) = shelf.attach(folder) {
        return Err(ended_at(Ended::ShelfFailed, down));
    }
    Ok(())
}

/// How a command ends where the yard isn't started.
pub(crate) fn ended_by_yard(fault: YardFault) -> Ended
    ensures { result ≡ ended_by_yard fault }
{
    match fault {
        YardFault::Depot => Ended::DepotFailed,
        YardFault::Shelf => Ended::ShelfFailed,
        YardFault::Memory => Ended::OutOfMemory,
    }
}
