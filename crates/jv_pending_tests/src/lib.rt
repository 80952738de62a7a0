//! Tests of pending bytes: which segments writes leave, and that writes in any order take a time linear in their bytes.
#![tactic(auto)]

#[cfg(test)]
mod costs;
#[cfg(test)]
mod segments;
