//! The numbers of the tables of rows, which begin the keys, the version of the rows, and the length of a record.

/// The version of rows that this program writes, and the last that it reads.
pub const ROWS_VERSION: u32 = 1;

/// What the volume was formatted with: one row.
pub const TABLE_OF_SETTING: u8 = 0;

/// The next numbers and the running totals: one row.
pub const TABLE_OF_COUNTERS: u8 = 1;

/// Nodes, by inode.
pub const TABLE_OF_NODES: u8 = 2;

/// Entries, by directory and name.
pub const TABLE_OF_EDGES: u8 = 3;

/// The records of windows, by inode and window.
pub const TABLE_OF_LISTS: u8 = 4;

/// Slices that records name, by number.
pub const TABLE_OF_SLICES: u8 = 5;

/// Mounted clients, by session.
pub const TABLE_OF_SESSIONS: u8 = 6;

/// Files without an entry that a session keeps, by session and inode.
pub const TABLE_OF_SUSTAINED: u8 = 7;

/// Files that are gone, by inode.
pub const TABLE_OF_DROPPED: u8 = 8;

/// Slices that are gone, by number.
pub const TABLE_OF_DEAD: u8 = 9;

/// The bytes of a record in a row of lists.
pub const RECORD_LENGTH: usize = 24;
