//! What no clause says of a yard: that its calls succeed where memory is left, and what a note is.
#![tactic(auto)]

#[cfg(test)]
mod yards;
