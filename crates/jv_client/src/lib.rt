//! A client of a session, one step at a time.
#![tactic(auto)]

mod answers;
mod changes;
mod client;
mod doing;
mod flush;
mod made;
mod reading;
mod step;
mod submission;
mod transactions;

pub use client::Client;
pub use doing::{Doing, Flush, Progress};
