//! That ranges are read where there is memory, over bytes that were worked out by hand.
#![tactic(auto)]

#[cfg(test)]
mod worked;
