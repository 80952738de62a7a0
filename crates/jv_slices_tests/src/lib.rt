//! That calls of jv_slices succeed where there is memory, over values that were worked out by hand.
#![tactic(auto)]

#[cfg(test)]
mod worked;
