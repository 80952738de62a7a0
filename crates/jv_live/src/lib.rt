//! Transactions on sessions: mount, beat, close and release, each one commit or none (JuiceFS,
//! Architecture: sessions).
//!
//! A refusal, a keeper that failed, and running out of memory leave the rows as they were.
#![tactic(auto)]

mod kept;
mod scanning;
mod sessions;
mod steps;

pub use kept::{close_session, release};
pub use sessions::{beat, mount};
