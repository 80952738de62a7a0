//! The words that all crates of `juicevol` share: plain types, the journal, and in `specs/` the definitions
//! that the contracts of all crates share.
#![tactic(auto)]

mod act;
mod basics;
mod fault;
mod journal;
pub mod lifetimes;
mod limits;
mod op;
pub mod options;
mod profile;
mod row;
pub mod row_bytes;
mod sequence;
mod setting;
mod slice;
mod spelled;
pub mod tables;
mod texts;

pub use act::{Act, ActKind, NO_CLIENT, Told};
pub use basics::{ClientId, How, InodeList, Limits, Moment, Who};
pub use fault::{Busy, Device, Down, Fault, Gone, RowFault, TxFault};
pub use journal::Journal;
pub use limits::{
    CLIENTS, DEFAULT_BLOCK, DEFAULT_BUFFER, DIRECTORY_LENGTH, FILE_END, FULL_COUNT, FULL_MODE, GIB,
    KIB, LAST_CLIENT, LAST_MOMENT, MAX_BLOCK, MAX_BLOCKS, MAX_BUCKET, MAX_CAPACITY, MAX_DATA,
    MAX_HANDLES, MAX_ITEMS, MAX_LINE, MAX_LINES, MAX_LINKS, MAX_MISSES, MAX_MODE, MAX_NAME,
    MAX_PATH, MAX_SYMLINKS, MAX_TICK, MAX_TRASH_DAYS, MAX_VOLUME_NAME, MIB, MIN_BLOCK,
    MIN_VOLUME_NAME, READ_ONLY_MODE, ROOT, SPACE_UNIT, TRASH_ROOT, WINDOW,
};
pub use op::{Line, Op, Reply, Step};
pub use profile::{Answer, Does, Flushes, Handles, Profile};
pub use row::{
    Counters, Dead, Dropped, Edge, Finding, Findings, Node, Row, RowKey, RowList, Rows, Session,
    SliceRow,
};
pub use sequence::{Sequence, push_in_room};
pub use setting::{Attr, FileKind, Setting, Space};
pub use slice::{
    BlockId, BlockKeys, EntryList, List, NameList, Piece, Pieces, Rec, Seen, SeenList, Spot,
};
pub use texts::{Bytes, Name, Path, Text, copied, has_no_zero};
