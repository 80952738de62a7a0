//! A keeper whose rows are a table of an SQLite database, in a file that sqlite3 reads.
#![tactic(auto)]

mod cause;
mod database;
mod faults;
mod sql_keeper;
mod stored;
mod table;

pub use sql_keeper::SqlKeeper;
