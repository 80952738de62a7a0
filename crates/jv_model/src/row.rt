//! The rows of a volume's metadata, a type for each table. Their fields have the widths of the stored numbers.
ghost use Rattle.std.specs.Prelude.{◌≡◌, IfOk};

use crate::row_bytes::RowBytes;
use crate::sequence::Sequence;
use crate::setting::Setting;
use crate::slice::List;
use crate::texts::{Bytes, Name, copied};
use std::alloc::{AllocError, Global};

/// The key of a row: its table and two parts, of which some tables use one. Keys go by table, number and bytes.
#[derive(Debug, Drop, PartialEq, Eq, PartialOrd, Ord, Hash)]
pub struct RowKey {
    /// The table's number.
    pub tab: u8,
    /// The first part, a number: 0 where the table uses none.
    pub a: u64,
    /// The second part: empty where the table uses none.
    pub b: Bytes,
}

impl RowKey {
    /// A copy of the key. The only error is out of memory.
    pub fn copied(&self, alloc: Global) -> Result<RowKey, AllocError>
        ensures { IfOk result (λ copy. copy ≡ self.now) }
    {
        Ok(RowKey {
            tab: self.tab,
            a: self.a,
            b: copied(alloc, self.b.as_slice())?,
        })
    }
}

/// Rows with their bytes.
pub type Rows = Sequence<(RowKey, RowBytes)>;

/// The next numbers and the running totals.
#[derive(Clone, Copy, Debug, PartialEq, Eq)]
pub struct Counters {
    /// The next inode.
    pub inode: u64,
    /// The next slice's number.
    pub slice: u64,
    /// The next session's number.
    pub session: u64,
    /// Used space in bytes.
    pub used_space: u64,
    pub used_inodes: u64,
}

/// An inode.
#[derive(Debug, Drop, PartialEq, Eq)]
pub struct Node {
    /// 1 for a file, 2 for a directory, 3 for a symlink.
    pub kind: u8,
    /// Permission bits, at most [`crate::MAX_MODE`].
    pub mode: u16,
    pub uid: u32,
    pub gid: u32,
    /// How many entries name it; for a directory 2 and one for each directory in it.
    pub nlink: u32,
    /// Seconds.
    pub mtime: u64,
    /// Seconds.
    pub ctime: u64,
    /// Bytes; [`crate::DIRECTORY_LENGTH`] for a directory.
    pub length: u64,
    /// A directory's parent, else 0.
    pub parent: u64,
    /// A symlink's target, else empty.
    pub target: Bytes,
}

/// An entry of a directory.
#[derive(Clone, Copy, Debug, PartialEq, Eq)]
pub struct Edge {
    /// As the node's.
    pub kind: u8,
    pub inode: u64,
}

/// A slice with the number of records that name it.
#[derive(Clone, Copy, Debug, PartialEq, Eq)]
pub struct SliceRow {
    /// Bytes.
    pub size: u32,
    /// How many records name it.
    pub count: u64,
}

/// A mounted client.
#[derive(Clone, Copy, Debug, PartialEq, Eq)]
pub struct Session {
    /// 0 to [`crate::LAST_CLIENT`].
    pub client: u8,
    /// The moment from which on a cleaning may end it, in seconds since 1970.
    pub expiry: u64,
}

/// A file that is gone and whose lists are still there.
#[derive(Clone, Copy, Debug, PartialEq, Eq)]
pub struct Dropped {
    /// Bytes.
    pub length: u64,
}

/// A slice that nothing names and whose blocks are still there.
#[derive(Clone, Copy, Debug, PartialEq, Eq)]
pub struct Dead {
    /// Bytes.
    pub size: u32,
    /// When its blocks may be removed, in seconds.
    pub due: u64,
}

/// A row by its table.
#[derive(Debug, Drop, PartialEq, Eq)]
pub enum Row {
    OfSetting(Setting),
    OfCounters(Counters),
    OfNode(Node),
    OfEdge(Edge),
    OfList(List),
    OfSlice(SliceRow),
    OfSession(Session),
    /// A session keeps an unlinked file, which its key names.
    OfSustained,
    OfDropped(Dropped),
    OfDead(Dead),
}

/// Rows as their types.
pub type RowList = Sequence<(RowKey, Row)>;

/// Something that a whole volume doesn't have.
#[derive(Debug, Drop, PartialEq, Eq)]
pub enum Finding {
    /// An entry's node is absent or has another kind.
    EdgeOff {
        dir: u64,
        name: Name,
    },
    /// A node that nothing names or sustains.
    Orphan {
        inode: u64,
    },
    /// A node's stored link count is another than its entries' number.
    LinkCountOff {
        inode: u64,
        stored: u32,
        counted: u64,
    },
    /// A list that belongs to no file, or has a record without its slice.
    ListOff {
        inode: u64,
        window: u32,
    },
    /// A slice's stored count is another than the number of records that name it.
    RefCountOff {
        id: u64,
        stored: u64,
        counted: u64,
    },
    /// A position past the length that doesn't read zero.
    PastEnd {
        inode: u64,
    },
    /// The stored sum of used space, in bytes, is another than that of the nodes.
    UsedSpaceOff {
        stored: u64,
        counted: u128,
    },
    /// The stored number of used inodes is another than that of the nodes.
    UsedInodesOff {
        stored: u64,
        counted: u64,
    },
    /// A block that is in neither the object store nor staged.
    BlockMissing {
        name: Name,
    },
    /// An object of another length than its name says.
    BlockSizeOff {
        name: Name,
        length: u64,
    },
}

/// What a check of a volume finds, in the order in which it does.
pub type Findings = Sequence<Finding>;
