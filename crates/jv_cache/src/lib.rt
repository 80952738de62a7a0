//! Blocks that a client keeps at hand, the most recently used first.
#![tactic(auto)]

mod cache;
mod key;

pub use cache::BlockCache;
pub use key::BlockKey;
