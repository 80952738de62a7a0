//! Scripts that are drawn from a seed, and the summary that stands in place of their answers.
#![tactic(auto)]

mod accesses;
mod generator;
mod laws;
mod totals;

pub use accesses::{
    ACCESSES, FILES, INCREMENT, LINES, MAX_LENGTH, MODE, MULTIPLIER, POSITIONS, READ_EVERY,
};
pub use generator::Generator;
pub use laws::{accesses_fit, scripts_have_lines, totals_are_sums};
pub use totals::Totals;
