//! Several rows of a keeper, each read by its table's grammar.
ghost use Rattle.std.specs.Prelude.{◌≡◌, Some, Ok, IfOk, IfErr, IsTrue};
ghost use Rattle.std.specs.Option.{option_copied};
ghost use Rattle.jv_model.specs.promise.rows.RowGrammar.{row_of, row_bytes};
ghost use Rattle.jv_model.specs.rows.RowGrammar.{is_row};
ghost use Rattle.jv_rows.specs.Reads.{ReadsAs, IsSpelled};
ghost use Rattle.jv_rows.specs.Scans.{rows_read, AreAllowed, RefusesBytes, RefusesRows, ScansRows};

use crate::misread::Misread;
use crate::parsing::{
    parse_counters, parse_dead, parse_dropped, parse_edge, parse_list, parse_node, parse_session,
    parse_setting, parse_slice, parse_sustained,
};
use jv_model::row_bytes::RowBytes;
use jv_model::tables::{
    TABLE_OF_COUNTERS, TABLE_OF_DEAD, TABLE_OF_DROPPED, TABLE_OF_EDGES, TABLE_OF_LISTS,
    TABLE_OF_NODES, TABLE_OF_SESSIONS, TABLE_OF_SETTING, TABLE_OF_SLICES, TABLE_OF_SUSTAINED,
};
use jv_model::{Row, RowFault, RowKey, RowList, Rows, Sequence};
use jv_outside::Keeper;
use std::alloc::Global;

/// The row that the bytes spell in the table of that number. There are no rows in tables behind [`TABLE_OF_DEAD`].
#[tactic(auto, unfolding(jv_model::specs::promise::rows::RowGrammar::row_of))]
fn row_in(alloc: Global, tab: u8, bytes: &[u8]) -> Result<Row, Misread>
    ensures { ReadsAs result (row_of tab bytes.now) }
{
    match tab {
        TABLE_OF_SETTING => Ok(Row::OfSetting(parse_setting(alloc, bytes)?)),
        TABLE_OF_COUNTERS => Ok(Row::OfCounters(parse_counters(bytes)?)),
        TABLE_OF_NODES => Ok(Row::OfNode(parse_node(alloc, bytes)?)),
        TABLE_OF_EDGES => Ok(Row::OfEdge(parse_edge(bytes)?)),
        TABLE_OF_LISTS => Ok(Row::OfList(parse_list(alloc, bytes)?)),
        TABLE_OF_SLICES => Ok(Row::OfSlice(parse_slice(bytes)?)),
        TABLE_OF_SESSIONS => Ok(Row::OfSession(parse_session(bytes)?)),
        TABLE_OF_SUSTAINED => {
            parse_sustained(bytes)?;
            Ok(Row::OfSustained)
        }
        TABLE_OF_DROPPED => Ok(Row::OfDropped(parse_dropped(bytes)?)),
        TABLE_OF_DEAD => Ok(Row::OfDead(parse_dead(bytes)?)),
        _ => Err(Misread::Malformed),
    }
}

/// The row that the bytes spell in the table of that number.
///
/// # Errors
///
/// [`Misread::Malformed`] where no row of the table has these bytes, or there is no such table, and [`Misread::Memory`]
/// out of memory.
pub fn parse_row(alloc: Global, tab: u8, bytes: &[u8]) -> Result<Row, Misread>
    ensures reads { ReadsAs result (row_of tab bytes.now) }
    ensures sound { IfOk result (IsSpelled (row_of tab) row_bytes is_row bytes.now) }
{
    row_in(alloc, tab, bytes)
}

/// A row with its key.
fn typed_row(alloc: Global, key: RowKey, bytes: RowBytes) -> Result<(RowKey, Row), RowFault>
    ensures key { IfOk result (λ row. row.0 ≡ key) }
    ensures found { IfOk result (λ row. row_of key.tab bytes ≡ Some row.1) }
    ensures allowed { IfOk result (λ row. IsTrue (is_row row.1)) }
    ensures refused { IfErr result (RefusesBytes key bytes) }
{
    match parse_row(alloc, key.tab, bytes.joined(alloc)?.as_slice()) {
        Ok(row) => Ok((key, row)),
        Err(Misread::Malformed) => Err(RowFault::Bad(key, bytes.copied(alloc)?)),
        Err(Misread::Memory) => Err(RowFault::Memory),
    }
}

/// Rows with their keys, up to the first that is malformed.
fn typed_rows(alloc: Global, rows: Rows) -> Result<RowList, RowFault>
    ensures found { IfOk result (λ list. rows_read rows ≡ Ok list) }
    ensures allowed { IfOk result AreAllowed }
    ensures refused { IfErr result (RefusesRows rows) }
{
    let mut list = Sequence::new(alloc);
    for (key, bytes) in rows.into_vec() {
        list.push(typed_row(alloc, key, bytes)?)?;
    }
    Ok(list)
}

/// The first `n` rows of a table after a key, or from the table's first on. Their keys are not judged: which keys rows
/// may have is a part of what a whole volume is.
///
/// # Errors
///
/// [`RowFault::Bad`] with the key and the bytes of the first row that is malformed, [`RowFault::Failed`] if the keeper
/// failed, and [`RowFault::Memory`] out of memory. The rows are the same in each case.
pub fn scan_rows<K: Keeper>(
    alloc: Global,
    k: &mut K,
    tab: u8,
    after: Option<&RowKey>,
    n: u32,
) -> Result<RowList, RowFault>
    ensures { ScansRows tab (option_copied after.entry) n
        (K.seen k.old) (K.seen k.new) result }
{
    let rows = k.scan(tab, after, n)?;
    typed_rows(alloc, rows)
}
