//! The rows of a volume's metadata: what bytes spell, read exactly, and the one spelling of each row
//! (JuiceFS, Internals: metadata).
#![tactic(auto)]

mod adjusting;
mod allowed;
mod appending;
mod drafts;
mod fields;
mod fresh;
mod grammar;
mod keys;
mod laws;
mod lists;
mod misread;
mod needing;
mod parsing;
mod reading;
mod scanning;
mod spelling;
mod walking;
mod widths;
mod writing;

pub use adjusting::adjust;
pub use allowed::{
    allows_block, allows_counters, allows_edge, allows_list, allows_node, allows_record,
    allows_session, allows_setting, allows_slice,
};
pub use drafts::Draft;
pub use fresh::{default_setting, fresh_rows, new_directory};
pub use keys::{
    key_of_counters, key_of_dead, key_of_dropped, key_of_edge, key_of_list, key_of_node,
    key_of_session, key_of_setting, key_of_slice, key_of_sustained,
};
pub use laws::rows_are_exact;
pub use lists::next_list;
pub use misread::Misread;
pub use needing::{in_session, needed_counters, needed_node, needed_setting};
pub use parsing::{
    parse_counters, parse_dead, parse_dropped, parse_edge, parse_list, parse_node, parse_session,
    parse_setting, parse_slice, parse_sustained,
};
pub use reading::{
    read_counters, read_dead, read_dropped, read_edge, read_list, read_node, read_session,
    read_setting, read_slice, read_sustained,
};
pub use scanning::{parse_row, scan_rows};
pub use spelling::{
    spell_counters, spell_dead, spell_dropped, spell_edge, spell_list, spell_node, spell_session,
    spell_setting, spell_slice,
};
pub use walking::{
    EntryPlace, Place, child, is_top, is_trash_of, parent, walk, walk_entry, walk_to, walk_to_entry,
};
pub use writing::{
    put_counters, put_dead, put_dropped, put_edge, put_list, put_node, put_session, put_setting,
    put_slice, put_sustained,
};
