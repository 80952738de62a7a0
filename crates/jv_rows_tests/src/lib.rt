//! That calls on rows succeed where there is memory, which no clause says. The program `bench_measure` writes and reads rows
//! of each kind; what it doesn't call is here.
#![tactic(auto)]

#[cfg(test)]
mod changes;
#[cfg(test)]
mod walks;
