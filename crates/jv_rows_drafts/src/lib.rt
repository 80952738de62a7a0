//! The small changes that transactions are made of, each on the rows of a draft: entries that come and go, a
//! node's times and parent, a node that goes, a file that a session keeps, and the directory of an hour of the trash.
//!
//! Each is the model's change of the tree that the drafted rows are those of (docs/MODEL.md). After an error a draft is given
//! up: it may hold a part of a change.
#![tactic(auto)]

mod entries;
mod hours;
mod nodes;

pub use entries::{put_entry, take_entry};
pub use hours::{HourName, enter_hour, hour_name, trash_name};
pub use nodes::{change_status, drop_node, move_under, sustain};
