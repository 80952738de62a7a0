//! A volume's setting, and what `stat` and `statfs` return.
use crate::limits::{FULL_COUNT, GIB};
use crate::texts::{Text, copied};
use std::alloc::{AllocError, Global};

/// What a volume was formatted with.
#[derive(Debug, Drop, PartialEq, Eq)]
pub struct Setting {
    /// The version of the rows.
    pub version: u32,
    /// The length of a block in bytes, a power of two from [`crate::MIN_BLOCK`] to
    /// [`crate::MAX_BLOCK`].
    pub block: u32,
    /// Days that a removed file stays in the trash; 0 turns the trash off.
    pub trash_days: u32,
    /// The greatest used space in GiB; 0 stands for [`crate::FULL_COUNT`] bytes.
    pub capacity: u64,
    /// The greatest number of used inodes; 0 stands for [`crate::FULL_COUNT`].
    pub inodes: u64,
    /// 1 where object names have the hash prefix, else 0.
    pub hash: u8,
    /// The volume's name, [`crate::MIN_VOLUME_NAME`] to [`crate::MAX_VOLUME_NAME`] bytes.
    pub name: Text,
    /// Where the objects lie, 1 to [`crate::MAX_BUCKET`] bytes.
    pub bucket: Text,
}

impl Setting {
    ghost use Rattle.std.specs.Prelude.{◌≡◌, IfOk};
    ghost use Rattle.jv_model.specs.promise.tree.Tree.{space_limit, inode_limit};

    /// A copy of the setting. The only error is out of memory.
    pub fn copied(&self, alloc: Global) -> Result<Setting, AllocError>
        ensures { IfOk result (λ copy. copy ≡ self.now) }
    {
        Ok(Setting {
            version: self.version,
            block: self.block,
            trash_days: self.trash_days,
            capacity: self.capacity,
            inodes: self.inodes,
            hash: self.hash,
            name: copied(alloc, self.name.as_slice())?,
            bucket: copied(alloc, self.bucket.as_slice())?,
        })
    }

    /// The greatest used space in bytes.
    pub fn space_limit(&self) -> u128
        ensures { result ≡ space_limit self.now }
    {
        if self.capacity == 0 {
            u128::from(FULL_COUNT)
        } else {
            u128::from(self.capacity) * u128::from(GIB)
        }
    }

    /// The greatest number of used inodes.
    pub fn inode_limit(&self) -> u64
        ensures { result ≡ inode_limit self.now }
    {
        if self.inodes == 0 {
            FULL_COUNT
        } else {
            self.inodes
        }
    }
}

/// What an inode is.
#[derive(Clone, Copy, Debug, PartialEq, Eq)]
pub enum FileKind {
    File,
    Directory,
    Symlink,
}

/// The attributes of an inode (`stat` of POSIX), without `atime` and device numbers.
#[derive(Clone, Copy, Debug, PartialEq, Eq)]
pub struct Attr {
    pub inode: u64,
    pub kind: FileKind,
    /// Permission bits, at most [`crate::MAX_MODE`].
    pub mode: u16,
    pub nlink: u32,
    pub uid: u32,
    pub gid: u32,
    /// The length in bytes; [`crate::DIRECTORY_LENGTH`] for a directory.
    pub size: u64,
    /// Seconds.
    pub mtime: u64,
    /// Seconds.
    pub ctime: u64,
}

/// What `statfs` returns of a volume.
#[derive(Clone, Copy, Debug, PartialEq, Eq)]
pub struct Space {
    /// Used space in bytes.
    pub used: u64,
    /// The capacity in GiB, as it was set.
    pub capacity: u64,
    /// Used inodes.
    pub inodes: u64,
    /// The limit of inodes, as it was set.
    pub limit: u64,
}
