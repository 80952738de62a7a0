//! The lines of a script as text, and the text of answers.
#![tactic(auto)]

mod bad_line;
mod data;
mod data_text;
mod escapes;
mod faults;
mod fields;
mod hex_digits;
mod hex_text;
mod laws;
mod line_reader;
mod names;
mod numbers;
mod operation_words;
mod printer;
mod repeats;
mod short_parts;
mod word_cuts;

pub use bad_line::BadLine;
pub use data::read_data;
pub use fields::is_numeral;
pub use hex_text::hex_pair;
pub use laws::{
    data_is_read_again, names_are_read_again, paths_are_read_again, targets_are_read_again,
};
pub use line_reader::{is_silent, read_line};
pub use names::mode_digits;
pub use numbers::push_number;
pub use printer::print_reply;
