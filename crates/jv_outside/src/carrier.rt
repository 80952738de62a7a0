ghost use Rattle.jv_outside.specs.promise.Carriage.{Carriage, Moves};
ghost use Rattle.jv_outside.specs.Carriage.{Sends};

use crate::parcel::Parcel;
use jv_model::{Down, Moment, Name, Text};

/// What sends an object's bytes on their way to a depot, which then publishes them (JuiceFS, Architecture: data storage).
///
/// Each call returns [`Down::Failed`] if the device failed, or [`Down::Memory`] if it is out of memory. The place is then
/// the same as before the call.
pub trait Carrier: Send + Drop {
    // The place where the carrier was opened last, and how many calls failed: a count of 64 bits at least, which
    // saturates.
    ghost seen: { Self → Carriage };

    /// Opens the carrier at a place: a carrier in memory takes any.
    fn attach(&mut self, place: &Text) -> Result<(), Down>
        ensures { Moves (seen self.old) (seen self.new) result place.now };

    /// Sends bytes, and returns the parcel that stands for the name, the bytes and the moment. Nothing is published.
    fn send(&mut self, name: &Name, bytes: &[u8], now: Moment) -> Result<Parcel, Down>
        ensures { Sends (seen self.old) (seen self.new) result name.now bytes.now now };
}
