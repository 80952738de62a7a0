//! Values that the tests of several crates begin with.
#![tactic(auto)]

mod blocks;
mod devices;

pub use blocks::{BLOCK, block_bytes, byte};
pub use devices::{failing_at, setting};
