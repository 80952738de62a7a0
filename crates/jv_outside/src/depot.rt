ghost use Rattle.std.specs.Option.{option_copied};
ghost use Rattle.jv_outside.specs.promise.Holding.{Holding, Attaches};
ghost use Rattle.jv_outside.specs.Holding.{Answers, Changes};
ghost use Rattle.jv_outside.specs.promise.Objects.{ObjectMap, bytes_at};
ghost use Rattle.jv_outside.specs.Objects.{Publishes, without, seen_after};

use crate::parcel::Parcel;
use jv_model::{Bytes, Down, Moment, Name, SeenList, Text};

/// A store of objects, each with its bytes and its moment at its name (JuiceFS, Architecture: data storage).
///
/// Each call returns [`Down::Failed`] if the device failed, or [`Down::Memory`] if it is out of memory. Objects and
/// place are then the same as before the call.
pub trait Depot {
    // The objects, where they are known, the place where the depot was opened last, and how many calls failed: a count
    // of 64 bits at least, which saturates.
    ghost seen: { Self → Holding ObjectMap };

    /// Opens the objects at a place. They are then the same as before, or, but at `:memory:`, no longer known. A depot of
    /// objects in memory takes any place, and keeps them.
    fn attach(&mut self, place: &Text) -> Result<(), Down>
        ensures { Attaches (seen self.old) (seen self.new) result place.now };

    /// The bytes of an object, or None if and only if there is no object of that name.
    fn get(&mut self, name: &Name) -> Result<Option<Bytes>, Down>
        ensures { Answers (seen self.old) (seen self.new) result (bytes_at name.now) };

    /// Puts the parcel's bytes and moment at its name, whether there was an object or not. On error it returns the parcel.
    /// A depot whose objects are known fails at a parcel whose bytes are [`crate::Load::Placed`].
    fn publish(&mut self, parcel: Parcel) -> Result<(), (Parcel, Down)>
        ensures { Publishes (seen self.old) (seen self.new) result parcel };

    /// Removes an object. It is no error if there is none of that name.
    fn remove(&mut self, name: &Name) -> Result<(), Down>
        ensures { Changes (seen self.old) (seen self.new) result (without name.now) };

    /// The first `n` objects after a name, or from the first on, in the order of their names' bytes. They are fewer only at
    /// the end. A depot that keeps no moments works them out from `now` less an object's age.
    fn list(&mut self, after: Option<&Name>, n: u32, now: Moment) -> Result<SeenList, Down>
        ensures { Answers (seen self.old) (seen self.new) result
            (seen_after (option_copied after.entry) n) };
}
