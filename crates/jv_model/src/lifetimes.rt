//! Spans of time: when a removed file, a session or an upload is due, and the hours of the trash.

/// The seconds of an hour.
pub const HOUR: u64 = 3_600;

/// The seconds of a day.
pub const DAY: u64 = 86_400;

/// The seconds after which a session that shows no sign of life may be expired.
pub const SESSION_LIFE: u64 = 60;

/// The seconds after which blocks that no commit named are taken for leaked, and their commit comes too late.
pub const UPLOAD_LIFE: u64 = 3_600;

/// The inode of the directory of the first hour of 1970, which would have the trash's own by its hour: one past that of
/// the last hour that the clock has.
pub const FIRST_HOUR: u64 = 9_223_372_032_866_421_456;
