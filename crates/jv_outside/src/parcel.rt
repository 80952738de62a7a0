ghost use Rattle.std.specs.Prelude.{◌≡◌, IsTrue, IfOk, IfErr};

use crate::object::Object;
use jv_model::{Bytes, Moment, Name, Text};

/// The bytes that a parcel stands for, or where they are.
#[derive(Debug, Drop, PartialEq, Eq)]
pub enum Load {
    /// The bytes themselves.
    Held(Bytes),
    /// The place where a carrier put them, as the path of a file.
    Placed(Text),
}

/// An object that a carrier made ready to be published: its name, its moment and its bytes. It isn't published yet.
#[derive(Debug, Drop, PartialEq, Eq)]
pub struct Parcel {
    pub name: Name,
    /// The moment at which it was made ready, in seconds since 1970.
    pub at: Moment,
    pub load: Load,
}

impl Parcel {
    ghost use Rattle.jv_outside.specs.Parcels.{is_placed, parcel_of};

    /// The object that the parcel stands for, or the parcel again where its bytes are placed.
    pub(crate) fn into_object(self) -> Result<Object, Parcel>
        ensures ok { IfOk result (λ object. parcel_of object ≡ self) }
        ensures same { IfErr result (λ parcel. parcel ≡ self) }
        ensures placed { IfErr result (λ parcel. IsTrue (is_placed self.load)) }
    {
        let Parcel { name, at, load } = self;
        match load {
            Load::Held(bytes) => Ok(Object { name, bytes, at }),
            Load::Placed(place) => Err(Parcel {
                name,
                at,
                load: Load::Placed(place),
            }),
        }
    }
}

impl Object {
    ghost use Rattle.jv_outside.specs.Parcels.{parcel_of};

    /// The parcel that holds the object's bytes.
    pub(crate) fn into_parcel(self) -> Parcel
        ensures { result ≡ parcel_of self }
    {
        Parcel {
            name: self.name,
            at: self.at,
            load: Load::Held(self.bytes),
        }
    }
}
