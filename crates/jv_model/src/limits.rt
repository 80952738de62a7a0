//! The limits of volumes, files, scripts and options, each named once.

/// The inode of the root directory.
pub const ROOT: u64 = 1;

/// The inode of the trash, which no entry names; the directories of its hours follow it.
pub const TRASH_ROOT: u64 = 9_223_372_032_828_243_968;

/// The last moment of the clock, in seconds since the start of 1970.
pub const LAST_MOMENT: u64 = 137_438_953_471;

/// The positions of a window (JuiceFS: chunk) of a file: 64 MiB.
pub const WINDOW: u64 = 67_108_864;

/// The greatest length of a file in bytes, and so the end of its last position: 1 TiB.
pub const FILE_END: u64 = 1_099_511_627_776;

/// The most blocks of a slice: a whole window in blocks of the least length.
pub const MAX_BLOCKS: u32 = 1_024;

/// A stored count that stands here doesn't grow any more: 2^62.
pub const FULL_COUNT: u64 = 4_611_686_018_427_387_904;

/// The greatest link count of an inode (`LINK_MAX`): 2^32 - 1.
pub const MAX_LINKS: u32 = 4_294_967_295;

/// The length of a directory in bytes.
pub const DIRECTORY_LENGTH: u64 = 4_096;

/// Used space is counted in units of this many bytes, and a directory or a symlink takes one.
pub const SPACE_UNIT: u64 = 4_096;

/// The bytes of a KiB.
pub const KIB: u64 = 1_024;

/// The bytes of a MiB.
pub const MIB: u64 = 1_048_576;

/// The bytes of a GiB, in which a capacity is given.
pub const GIB: u64 = 1_073_741_824;

/// The longest name of an entry in bytes (`NAME_MAX`).
pub const MAX_NAME: usize = 255;

/// The longest path, and the longest target of a symlink, in bytes (`PATH_MAX`).
pub const MAX_PATH: usize = 4_096;

/// The most symlinks that are followed in one path (`SYMLOOP_MAX`).
pub const MAX_SYMLINKS: u32 = 40;

/// The most blocks that one read misses.
pub const MAX_MISSES: u32 = 10;

/// The most items that one `clean` takes.
pub const MAX_ITEMS: u64 = 65_536;

/// All permission bits of a mode, and so the greatest one: four octal digits.
pub const MAX_MODE: u16 = 0o7777;

/// The mode of a volume's root and of symlinks: all may read, write and search.
pub const FULL_MODE: u16 = 0o777;

/// The mode of the trash and of its hours: none may write.
pub const READ_ONLY_MODE: u16 = 0o555;

/// The clients of a volume, A to H.
pub const CLIENTS: u8 = 8;

/// The number of the last client, H.
pub const LAST_CLIENT: u8 = CLIENTS - 1;

/// The shortest name of a volume in bytes.
pub const MIN_VOLUME_NAME: usize = 3;

/// The longest name of a volume in bytes.
pub const MAX_VOLUME_NAME: usize = 63;

/// The longest text in bytes that says where the objects lie.
pub const MAX_BUCKET: usize = 1_024;

/// The least length of a block in bytes.
pub const MIN_BLOCK: u32 = 65_536;

/// The greatest length of a block in bytes.
pub const MAX_BLOCK: u32 = 16_777_216;

/// The length of a block in bytes where no option sets another.
pub const DEFAULT_BLOCK: u32 = 4_194_304;

/// The most days that a removed file stays in the trash.
pub const MAX_TRASH_DAYS: u32 = 36_500;

/// The greatest capacity in GiB.
pub const MAX_CAPACITY: u64 = 4_294_967_296;

/// The most bytes that one operation reads or writes.
pub const MAX_DATA: u64 = 8_388_608;

/// The most open handles of a client.
pub const MAX_HANDLES: usize = 1_024;

/// The bytes that may wait for their commit in a client where no option sets another number.
pub const DEFAULT_BUFFER: u64 = 33_554_432;

/// The longest line of a script in bytes, its line feed not counted.
pub const MAX_LINE: usize = 1_048_576;

/// The most lines of a script.
pub const MAX_LINES: u32 = 1_048_576;

/// The most seconds that one `tick` lets pass.
pub const MAX_TICK: u64 = 4_294_967_296;
