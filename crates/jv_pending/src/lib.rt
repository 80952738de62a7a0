//! The bytes that a client wrote and hasn't committed.
#![tactic(auto)]

mod pending;
mod place;
mod run;
mod run_bytes;
mod segment;
mod write;

pub use pending::Pending;
pub use segment::{PendingFault, SegmentAt};
