//! The words of the command line.
mod program;
mod read;
mod refusal;
mod request;
mod values;

pub(crate) use read::read_words;
pub use refusal::refuse;
pub(crate) use request::{Command, SessionOptions, WordsFault};
