//! The program's commands as one call, over devices that are handed in.
#![tactic(auto)]

mod blocks;
mod bounds;
mod command;
mod drawn;
mod ended;
mod format;
mod lines;
mod reader;
mod stage;
mod volume;
mod words;
mod world;

pub use command::{WORDS_REFUSED, run};
pub use ended::{OUT_OF_MEMORY, give_up};
pub use words::refuse;
pub use world::{Finish, Observed, World};
