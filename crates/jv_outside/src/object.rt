//! What a depot and a shelf hold, as a list that one in memory is made from.
use jv_model::{Bytes, ClientId, Moment, Name, Sequence};

/// An object of a depot.
#[derive(Debug, Drop, PartialEq, Eq)]
pub struct Object {
    pub name: Name,
    pub bytes: Bytes,
    /// The moment at which it was made ready to be published, in seconds since 1970.
    pub at: Moment,
}

/// Objects that a depot in memory begins with.
pub type ObjectList = Sequence<Object>;

/// A block that a client has staged on a shelf.
#[derive(Debug, Drop, PartialEq, Eq)]
pub struct Staged {
    pub client: ClientId,
    pub name: Name,
    pub bytes: Bytes,
}

/// Staged blocks that a shelf in memory begins with.
pub type StagedList = Sequence<Staged>;
