//! Why a check stops.
use jv_rows::Misread;
use std::alloc::{AllocError, AllocFailed};

/// Why a check stops.
#[derive(Clone, Copy)]
pub enum Stop {
    /// Something isn't whole: what it is, in words.
    Flaw(&'static str),
    OutOfMemory,
}

impl From<AllocError> for Stop {
    fn from(_error: AllocError) -> Stop {
        Stop::OutOfMemory
    }
}

impl<T: Drop> From<AllocFailed<T>> for Stop {
    fn from(_failed: AllocFailed<T>) -> Stop {
        Stop::OutOfMemory
    }
}

impl From<Misread> for Stop {
    fn from(why: Misread) -> Stop {
        match why {
            Misread::Malformed => Stop::Flaw("a row is malformed"),
            Misread::Memory => Stop::OutOfMemory,
        }
    }
}

/// Goes on where something holds, and else stops with the flaw.
pub fn expect(holds: bool, flaw: &'static str) -> Result<(), Stop> {
    if holds { Ok(()) } else { Err(Stop::Flaw(flaw)) }
}
