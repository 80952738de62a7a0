//! Lines of scripts as they are read, and answers as they are printed, row by row.
#![tactic(auto)]

#[cfg(test)]
mod answers;
#[cfg(test)]
mod lines;
