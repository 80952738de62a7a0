//! The files that a session keeps without entries, one after another by their inodes.
ghost use Rattle.std.specs.Prelude.{◌≡◌, IfOk, IfSome};
ghost use Rattle.jv_live.specs.Steps.{last_key, number_in, first_kept, IsSpelled, FindsKept};
ghost use Rattle.jv_model.specs.promise.rows.RowFields.{long};

use jv_model::tables::TABLE_OF_SUSTAINED;
use jv_model::{Row, RowKey, Sequence, TxFault};
use jv_outside::Keeper;
use jv_rows::{key_of_sustained, scan_rows};
use std::alloc::{AllocError, Global};

/// The key of a session's file, or one below the keys of all its files.
fn key_after(alloc: Global, sid: u64, after: Option<u64>) -> Result<RowKey, AllocError>
    ensures { IfOk result (λ key. key ≡ last_key sid after) }
{
    match after {
        Some(inode) => key_of_sustained(alloc, sid, inode),
        None => Ok(RowKey {
            tab: TABLE_OF_SUSTAINED,
            a: sid,
            b: Sequence::new(alloc),
        }),
    }
}

/// The number that eight bytes spell.
fn number_in(bytes: &[u8]) -> Option<u64>
    ensures number { result ≡ number_in bytes.now }
    ensures spelled { IfSome result (λ number. bytes.now ≡ long number) }
{
    if bytes.len() != 8 {
        return None;
    }
    Some(u64::from_be_bytes([
        bytes[0], bytes[1], bytes[2], bytes[3], bytes[4], bytes[5], bytes[6], bytes[7],
    ]))
}

/// The file of the first of rows, if it is the session's and comes after one: a keeper whose rows aren't known may
/// show any.
fn first_in(sid: u64, after: Option<u64>, rows: &[(RowKey, Row)]) -> Option<u64>
    ensures found { result ≡ first_kept sid after rows.now }
    ensures spelled { IsSpelled rows.now }
{
    let (key, _) = rows.first()?;
    let inode = number_in(key.b.as_slice())?;
    let is_past = match after {
        Some(last) => last < inode,
        None => true,
    };
    if key.a == sid && is_past {
        Some(inode)
    } else {
        None
    }
}

/// The next file that a session keeps, after one or from the first on.
///
/// # Errors
///
/// Bad where the row behind is malformed. Failed if the keeper failed. Memory.
pub(crate) fn next_kept<K: Keeper>(
    alloc: Global,
    k: &mut K,
    sid: u64,
    after: Option<u64>,
) -> Result<Option<u64>, TxFault>
    ensures { FindsKept sid after (K.seen k.old) (K.seen k.new) result }
{
    let last = key_after(alloc, sid, after)?;
    let rows = scan_rows(alloc, k, TABLE_OF_SUSTAINED, Some(&last), 1)?;
    Ok(first_in(sid, after, rows.as_slice()))
}
