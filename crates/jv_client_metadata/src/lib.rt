//! Operations that are one transaction on metadata and no more, each made through the crate of its transaction.
#![tactic(auto)]

mod answers;
mod transactions;

pub use answers::Answer;
pub use transactions::transact;
