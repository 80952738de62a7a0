//! The bytes that a read returns, put together from what its handle saw, from blocks at hand and from blocks that come
//! one at a time. It asks no device.
#![tactic(auto)]

mod begun;
mod fetch;
mod laws;
mod need;
mod spans;

pub use fetch::Fetch;
pub use laws::{fetches_go_on, fetches_show};
pub use need::Need;
