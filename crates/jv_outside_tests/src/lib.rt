//! What no clause says of the devices: that their calls succeed where memory is left, and what the adapters make of std.
#![tactic(auto)]

#[cfg(test)]
mod in_memory;
#[cfg(test)]
mod of_blocks;
#[cfg(test)]
mod over_std;
