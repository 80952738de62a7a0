//! That a cache keeps blocks where there is memory, which no clause says.
#![tactic(auto)]

#[cfg(test)]
mod keeping;
