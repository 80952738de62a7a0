//! Why a yard's call didn't do its work.
ghost use Rattle.std.specs.Prelude.{◌≡◌};
ghost use Rattle.jv_yard.specs.Refusals.{fault_by};

use jv_model::Down;
use std::alloc::AllocError;
use thiserror::Error;

/// Why a yard's call didn't do its work.
#[derive(Clone, Copy, Debug, PartialEq, Eq, Error)]
pub enum YardFault {
    /// The depot failed, and its count of faults rose.
    #[error("the depot failed")]
    Depot,
    /// The shelf failed, and its count of faults rose.
    #[error("the shelf failed")]
    Shelf,
    #[error("out of memory")]
    Memory,
}

impl From<AllocError> for YardFault {
    ghost use Rattle.std.specs.Prelude.{◌≡◌};
    ghost use Rattle.jv_yard.specs.declared.faults.YardFault.TheVariants.{Memory};

    ghost from_gives = { λ _ fault. fault ≡ Memory };

    fn from(_: AllocError) -> YardFault {
        YardFault::Memory
    }
}

/// What an error of a device is to the yard, by what it is where the device failed.
pub(crate) fn fault_by(failed: YardFault, down: Down) -> YardFault
    ensures { result ≡ fault_by failed down }
{
    match down {
        Down::Failed => failed,
        Down::Memory => YardFault::Memory,
    }
}
