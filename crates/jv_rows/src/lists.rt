//! The lists of a file, one after another by their windows.
ghost use Rattle.std.specs.Prelude.{◌≡◌, IfOk, IfSome};
ghost use Rattle.jv_model.specs.promise.rows.RowFields.{word};
ghost use Rattle.jv_rows.specs.Lists.{last_list_key, window_in, list_of_row, is_of_another, IsSpelled, FindsList};

use crate::keys::key_of_list;
use crate::scanning::scan_rows;
use jv_model::tables::TABLE_OF_LISTS;
use jv_model::{List, Row, RowFault, RowKey, Sequence};
use jv_outside::Keeper;
use std::alloc::{AllocError, Global};

/// The key of a window of a file, or one below the keys of all its windows.
fn key_after(alloc: Global, inode: u64, last: Option<u32>) -> Result<RowKey, AllocError>
    ensures { IfOk result (λ key. key ≡ last_list_key inode last) }
{
    match last {
        Some(window) => key_of_list(alloc, inode, window),
        None => Ok(RowKey {
            tab: TABLE_OF_LISTS,
            a: inode,
            b: Sequence::new(alloc),
        }),
    }
}

/// The window that four bytes spell.
fn window_in(bytes: &[u8]) -> Option<u32>
    ensures number { result ≡ window_in bytes.now }
    ensures spelled { IfSome result (λ window. bytes.now ≡ word window) }
{
    if bytes.len() != 4 {
        return None;
    }
    Some(u32::from_be_bytes([bytes[0], bytes[1], bytes[2], bytes[3]]))
}

/// The list of a row, if it is the file's and comes after a window: a keeper whose rows aren't known may show any.
fn list_of(inode: u64, last: Option<u32>, key: &RowKey, row: Row) -> Option<(u32, List)>
    ensures found { result ≡ list_of_row inode last key.now row }
    ensures spelled { IsSpelled key.now }
{
    let window = window_in(key.b.as_slice())?;
    let is_past = match last {
        Some(last) => last < window,
        None => true,
    };
    let Row::OfList(list) = row else {
        return None;
    };
    if key.a == inode && is_past {
        Some((window, list))
    } else {
        None
    }
}

/// Whether a row that is malformed is another file's, so that no list of this one is behind.
fn is_of_another(inode: u64, fault: &RowFault) -> bool
    ensures { result ≡ is_of_another inode fault.now }
{
    match fault {
        RowFault::Bad(at, _) => at.a != inode,
        RowFault::Failed | RowFault::Memory => false,
    }
}

/// The next list of a file with its window, after a window or from the first on. `None` if there is none behind. A row of
/// the table whose key has no window ends the search; no whole volume has one.
///
/// # Errors
///
/// [`RowFault::Bad`] where the row behind is the file's and malformed, [`RowFault::Failed`] if the keeper failed, and
/// [`RowFault::Memory`] out of memory.
pub fn next_list<K: Keeper>(
    alloc: Global,
    k: &mut K,
    inode: u64,
    last: Option<u32>,
) -> Result<Option<(u32, List)>, RowFault>
    ensures { FindsList inode last (K.seen k.old) (K.seen k.new) result }
{
    let after = key_after(alloc, inode, last)?;
    let rows = match scan_rows(alloc, k, TABLE_OF_LISTS, Some(&after), 1) {
        Ok(rows) => rows,
        Err(fault) if is_of_another(inode, &fault) => return Ok(None),
        Err(fault) => return Err(fault),
    };
    match rows.into_vec().pop() {
        Some((key, row)) => Ok(list_of(inode, last, &key, row)),
        None => Ok(None),
    }
}
