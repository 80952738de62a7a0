//! Blocks of a volume in its object store and on the disks of its clients: which of them are staged, and what was put where
//! (JuiceFS, Cache and Internals).
#![tactic(auto)]

mod door;
mod faults;
mod finding;
mod laws;
mod note;
mod staging;
mod yard;

pub use door::{Alone, YardDoor};
pub use faults::YardFault;
pub use finding::PAGE;
pub use laws::{later_is_reflexive, later_is_transitive, puts_grow};
pub use note::{MAIN, Note, What};
pub use yard::{ObservedYard, Yard};
