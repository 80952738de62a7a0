//! Slices of a volume: how their blocks are named and cut, and what a window's records show of them.
#![tactic(auto)]

mod blocks;
mod digits;
mod laws;
mod layout;
mod name_parsing;
mod name_spelling;
mod plans;

pub use blocks::{OrderedBlock, are_few, block_len, blocks_of, needs};
pub use digits::{push_decimal, upper_pair};
pub use laws::{
    indexes_are_low, names_are_distinct, needs_are_few, needs_are_once, needs_are_those,
    needs_have_each_byte, plans_are_determined,
};
pub use name_parsing::parse_block_name;
pub use name_spelling::block_name;
pub use plans::{byte_at, plan};
