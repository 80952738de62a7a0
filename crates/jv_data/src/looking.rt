//! Looks at the windows of files.
ghost use Rattle.jv_data.specs.Committing.{HasFile};
ghost use Rattle.jv_data.specs.Records.{LooksAt, HasRecords};

use jv_model::{Fault, Gone, List, Node, TxFault, Who};
use jv_outside::Keeper;
use jv_rows::{Draft, in_session, read_list};
use std::alloc::Global;

/// What a session sees of a window of a file.
#[derive(Debug, Drop, PartialEq, Eq)]
pub struct View {
    /// The length of the whole file in bytes.
    pub length: u64,
    /// The records of the window, the latest last.
    pub list: List,
}

/// The length of a file in bytes and the records of one of its windows, as the caller's session sees them now. A window
/// without a list has no records. JuiceFS, Internals: slices.
///
/// # Errors
///
/// Stale where the session is gone, or the inode isn't a file's. Bad for a malformed row. Failed if the keeper failed.
/// Memory. On error no row has changed.
pub fn look<K: Keeper>(
    alloc: Global,
    k: &mut K,
    who: &Who,
    inode: u64,
    window: u32,
) -> Result<View, TxFault>
    ensures { LooksAt who.entry.now.sid inode window (K.seen k.old) (K.seen k.new) result }
{
    let file = file(alloc, k, who.sid, inode)?;
    let list = records(alloc, k, inode, window)?;
    Ok(View {
        length: file.length,
        list,
    })
}

/// The row of a file, which a session is there to see.
pub(crate) fn file<K: Keeper>(
    alloc: Global,
    k: &mut K,
    sid: u64,
    inode: u64,
) -> Result<Node, TxFault>
    ensures { HasFile sid inode (K.seen k.old) (K.seen k.new) result }
{
    in_session(alloc, k, sid)?;
    let Some(node) = Draft::new(alloc).node(k, inode)? else {
        return Err(TxFault::Refused(Fault::Stale(Gone::Node(inode))));
    };
    if node.kind != 1 {
        return Err(TxFault::Refused(Fault::Stale(Gone::Node(inode))));
    }
    Ok(node)
}

/// The records of a window of a file, none where there is no list.
///
/// # Errors
///
/// Bad for a malformed row. Failed if the keeper failed. Memory.
pub(crate) fn records<K: Keeper>(
    alloc: Global,
    k: &mut K,
    inode: u64,
    window: u32,
) -> Result<List, TxFault>
    ensures { HasRecords inode window (K.seen k.old) (K.seen k.new) result }
{
    match read_list(alloc, k, inode, window)? {
        Some(list) => Ok(list),
        None => Ok(List::new(alloc)),
    }
}
