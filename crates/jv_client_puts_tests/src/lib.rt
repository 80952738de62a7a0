//! What no clause says of puts of blocks: that they succeed where memory is left, and under which names.
#![tactic(auto)]

#[cfg(test)]
mod puts;
