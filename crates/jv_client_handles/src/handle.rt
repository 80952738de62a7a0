//! What a client keeps of an open file: its inode, and what was seen of its windows.
use crate::views::Views;

/// A file that a client has open.
#[derive(Drop)]
pub struct Handle {
    pub inode: u64,
    /// The number of the journal entry that opened it.
    pub opened: u64,
    pub views: Views,
}
