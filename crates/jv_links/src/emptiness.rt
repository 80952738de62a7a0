//! Whether directories have entries.
ghost use Rattle.std.specs.Prelude.{Ok};
ghost use Rattle.jv_model.specs.promise.tree.Tree as model;
ghost use Rattle.jv_rows.specs.Transactions.{Looks};

use jv_model::tables::TABLE_OF_EDGES;
use jv_model::{RowKey, Sequence, TxFault};
use jv_outside::Keeper;
use jv_rows::scan_rows;
use std::alloc::Global;

/// Whether a directory has entries. No row changes.
///
/// # Errors
///
/// Bad for a malformed row of the first entry behind the directory's beginning, Failed if the keeper failed, Memory.
pub(crate) fn has_entries<K: Keeper>(alloc: Global, k: &mut K, dir: u64) -> Result<bool, TxFault>
    ensures { Looks (K.seen k.old) (K.seen k.new) result (λ t. Ok (model.has_entries t dir)) }
{
    let start = RowKey {
        tab: TABLE_OF_EDGES,
        a: dir,
        b: Sequence::new(alloc),
    };
    let page = scan_rows(alloc, k, TABLE_OF_EDGES, Some(&start), 1)?;
    match page.as_slice() {
        [] => Ok(false),
        [(key, _), ..] => Ok(key.a == dir),
    }
}
