//! Runs of scenes over devices in memory, and what is printed of them. Who runs a command's words is handed in.
//!
//! Each function that returns an error fails out of memory alone; what it adds to is then of no use.
#![tactic(auto)]

mod objects;
mod report;
mod rows;
mod stage;
mod sweep;
mod texts;
mod theatre;
mod whole;

pub use stage::{MemParts, Parts, Player, Stores, Streams};
pub use theatre::{Theatre, push_scene};
