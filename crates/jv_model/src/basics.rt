//! Moments, clients, and what names a caller.
ghost use Rattle.std.specs.Prelude.{◌≡◌, ℕ, ◌≤◌};
ghost use Rattle.jv_model.specs.declared.limits.TheConstants.{LAST_MOMENT, LAST_CLIENT};

use crate::sequence::Sequence;
use std::marker::Model;

/// A moment, in seconds since the start of 1970 (UTC), at most [`crate::LAST_MOMENT`].
#[derive(Clone, Copy, Debug, PartialEq, Eq, PartialOrd, Ord)]
pub struct Moment(pub u64);

impl Model for Moment {
    ghost Value = { ℕ };

    ghost view = { λ m. m.0 };

    ghost invariant = { λ m. m.0 ≤ LAST_MOMENT };

    ghost inverse = { λ n. record { 0 = n } };
}

impl Moment {
    /// The moment in seconds.
    pub fn seconds(self) -> u64
        ensures seconds { result ≡ self }
        ensures limit { result ≤ LAST_MOMENT }
    {
        self.0
    }
}

/// One of the eight clients, A to H, as a number from 0 to [`crate::LAST_CLIENT`].
#[derive(Clone, Copy, Debug, PartialEq, Eq, PartialOrd, Ord)]
pub struct ClientId(pub u8);

impl Model for ClientId {
    ghost Value = { ℕ };

    ghost view = { λ c. c.0 };

    ghost invariant = { λ c. c.0 ≤ LAST_CLIENT };

    ghost inverse = { λ n. record { 0 = n } };
}

impl ClientId {
    /// The client as a number from 0 to [`crate::LAST_CLIENT`].
    pub fn number(self) -> u8
        ensures number { result ≡ self }
        ensures limit { result ≤ LAST_CLIENT }
    {
        self.0
    }
}

/// Inodes in rising order.
pub type InodeList = Sequence<u64>;

/// In whose name, and when, a transaction is made.
#[derive(Debug, Drop, PartialEq, Eq)]
pub struct Who {
    /// The session, or 0 for none.
    pub sid: u64,
    /// The inodes that its client has open.
    pub held: InodeList,
    pub now: Moment,
}

/// What bounds a client of a session.
#[derive(Clone, Copy, Debug, PartialEq, Eq)]
pub struct Limits {
    /// Bytes that may be pending, from [`crate::MAX_DATA`] on.
    pub buffer: u64,
    /// Blocks that the cache may hold.
    pub entries: usize,
    /// Whether each mount is in writeback mode.
    pub writeback: bool,
}

/// How a rename treats a target that is there (`renameat2` of Linux).
#[derive(Clone, Copy, Debug, PartialEq, Eq)]
pub enum How {
    /// The target is replaced.
    Plain,
    /// A target is refused.
    NoReplace,
    /// The two entries change places.
    Exchange,
}
