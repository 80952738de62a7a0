//! That calls of jv_script_drawn succeed where there is memory, over values that were worked out outside of it.
#![tactic(auto)]

#[cfg(test)]
mod scripts;
#[cfg(test)]
mod summaries;
