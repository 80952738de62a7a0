//! Bounds of the numbers in scripts and in the options of commands.

/// The greatest number of a script: 2^64 - 1.
pub const MAX_NUMBER: u64 = 18_446_744_073_709_551_615;

/// The greatest number of a script where a row has 32 bits for it: a window, a user or a group.
pub const MAX_SHORT_NUMBER: u32 = 4_294_967_295;

/// The most digits of a number among the words of a command, but for a seed.
pub const MAX_DIGITS: usize = 19;

/// The largest cache of a client, in MiB.
pub const MAX_CACHE: u64 = 256;

/// The least bound on bytes that wait for their commit, in MiB.
pub const MIN_BUFFER: u64 = 8;

/// The greatest bound on bytes that wait for their commit, in MiB.
pub const MAX_BUFFER: u64 = 256;

/// The most uploads at once.
pub const MAX_UPLOADS: u64 = 64;

/// The days that a removed file stays in the trash where no option sets another number.
pub const DEFAULT_TRASH_DAYS: u32 = 1;
