//! How a client's slices get into the depot, block by block. It takes no number and commits nothing.
#![tactic(auto)]

mod putting;

pub use putting::{PutFault, put_block};
