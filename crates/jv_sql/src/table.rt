//! The statements, each with its function. The connection keeps the plan of each text.
//!
//! No clause says what they do to the rows, since nobody knows those of a file; the tests read them back.
use crate::cause::{Cause, Refusal};
use crate::stored::{read, stored};
use jv_model::row_bytes::RowBytes;
use jv_model::{RowKey, Rows, Sequence};
use jv_outside::{Batch, Change};
use sqlite::{Alter, Connection, Error as SqlError, ErrorCode, Row, Transaction, params};
use std::alloc::Global;

/// Each column is filled, and `a` is the key's first part less 2^63.
const CREATE: &str =
    "CREATE TABLE jfs_row (tab INTEGER NOT NULL, a INTEGER NOT NULL, b BLOB NOT NULL, v BLOB NOT NULL, PRIMARY KEY (tab, a, b)) STRICT";

const DEFINED: &str = "SELECT sql FROM sqlite_schema WHERE name = 'jfs_row'";

const ANY: &str = "SELECT tab FROM jfs_row LIMIT 1";

const GET: &str = "SELECT v FROM jfs_row WHERE tab = ?1 AND a = ?2 AND b = ?3";

const FROM_NUMBER: &str =
    "SELECT a, b, v FROM jfs_row WHERE tab = ?1 AND a >= ?2 ORDER BY a, b LIMIT ?3";

const WITHIN_NUMBER: &str =
    "SELECT a, b, v FROM jfs_row WHERE tab = ?1 AND a = ?2 AND b > ?3 ORDER BY b LIMIT ?4";

const PUT: &str =
    "INSERT INTO jfs_row (tab, a, b, v) VALUES (?1, ?2, ?3, ?4) ON CONFLICT (tab, a, b) DO UPDATE SET v = excluded.v";

const REMOVE: &str = "DELETE FROM jfs_row WHERE tab = ?1 AND a = ?2 AND b = ?3";

/// The text that the table was made by, where the name is taken.
fn definition<S: Alter>(conn: &mut Connection<S>) -> Result<Option<String>, SqlError> {
    match conn.query_row(DEFINED, &[]) {
        Ok(row) => Ok(Some(row.get(0)?)),
        Err(SqlError::QueryReturnedNoRows) => Ok(None),
        Err(error) => Err(error),
    }
}

/// Whether the database has the table. Fails if another one has its name.
pub(crate) fn has_table<S: Alter>(conn: &mut Connection<S>) -> Result<bool, Refusal> {
    match definition(conn)? {
        None => Ok(false),
        Some(text) if text.as_str() == CREATE => Ok(true),
        Some(_) => Err(Refusal::Failed(Cause::OtherTable)),
    }
}

/// Whether the table has a row.
fn has_rows<S: Alter>(conn: &mut Connection<S>) -> Result<bool, SqlError> {
    match conn.query_row(ANY, &[]) {
        Ok(_) => Ok(true),
        Err(SqlError::QueryReturnedNoRows) => Ok(false),
        Err(error) => Err(error),
    }
}

/// The bytes at a key.
pub(crate) fn get<S: Alter>(
    conn: &mut Connection<S>,
    key: &RowKey,
) -> Result<Option<RowBytes>, Refusal> {
    let keyed = params![u32::from(key.tab), stored(key.a), key.b.as_slice()];
    match conn.query_row(GET, keyed) {
        Ok(row) => Ok(Some(bytes_in(&row, 0)?)),
        Err(SqlError::QueryReturnedNoRows) => Ok(None),
        Err(error) => Err(error.into()),
    }
}

/// The bytes in a column.
fn bytes_in(row: &Row, column: usize) -> Result<RowBytes, Refusal> {
    let bytes: Vec<u8> = row.get(column)?;
    Ok(RowBytes::from_bytes(Sequence::from_vec(bytes))?)
}

/// A row of a table from its columns `a`, `b` and `v`.
fn keyed(tab: u8, row: &Row) -> Result<(RowKey, RowBytes), Refusal> {
    let b: Vec<u8> = row.get(1)?;
    let key = RowKey {
        tab,
        a: read(row.get(0)?),
        b: Sequence::from_vec(b),
    };
    Ok((key, bytes_in(row, 2)?))
}

/// The first `n` rows of a table whose number is `a` or greater.
fn from_number<S: Alter>(
    conn: &mut Connection<S>,
    tab: u8,
    a: i64,
    n: u32,
) -> Result<Vec<Row>, SqlError> {
    conn.query_all(FROM_NUMBER, params![u32::from(tab), a, n])
}

/// The first `n` rows of a table with the key's number behind the key.
fn within_number<S: Alter>(
    conn: &mut Connection<S>,
    key: &RowKey,
    n: u32,
) -> Result<Vec<Row>, SqlError> {
    let keyed = params![u32::from(key.tab), stored(key.a), key.b.as_slice(), n];
    conn.query_all(WITHIN_NUMBER, keyed)
}

/// Adds rows of a table.
fn add(rows: &mut Rows, tab: u8, found: &[Row]) -> Result<(), Refusal> {
    for row in found {
        rows.push(keyed(tab, row)?)?;
    }
    Ok(())
}

/// The first `n` rows of a table after a key, or from its first on, in the order of their keys. Rows of one number are read
/// apart from those behind them, since the two together would be read from the number's first row on.
pub(crate) fn scan<S: Alter>(
    conn: &mut Connection<S>,
    alloc: Global,
    tab: u8,
    after: Option<&RowKey>,
    n: u32,
) -> Result<Rows, Refusal> {
    let mut rows = Sequence::new(alloc);
    match after {
        Some(last) if last.tab > tab => {}
        Some(last) if last.tab == tab => {
            add(&mut rows, tab, within_number(conn, last, n)?.as_slice())?;
            let left = n.saturating_sub(u32::try_from(rows.len()).unwrap_or(n));
            if let Some(next) = stored(last.a).checked_add(1) {
                add(
                    &mut rows,
                    tab,
                    from_number(conn, tab, next, left)?.as_slice(),
                )?;
            }
        }
        _ => add(
            &mut rows,
            tab,
            from_number(conn, tab, i64::MIN, n)?.as_slice(),
        )?,
    }
    Ok(rows)
}

fn put<'a, S: Alter>(
    tx: &mut Transaction<'_, S>,
    key: &'a RowKey,
    value: &'a [u8],
) -> Result<(), Refusal> {
    let values = params![u32::from(key.tab), stored(key.a), key.b.as_slice(), value];
    tx.execute(PUT, values)?;
    Ok(())
}

fn remove<S: Alter>(tx: &mut Transaction<'_, S>, key: &RowKey) -> Result<(), Refusal> {
    let keyed = params![u32::from(key.tab), stored(key.a), key.b.as_slice()];
    tx.execute(REMOVE, keyed)?;
    Ok(())
}

/// Makes all the changes in their order.
fn change<S: Alter>(
    tx: &mut Transaction<'_, S>,
    alloc: Global,
    batch: &Batch,
) -> Result<(), Refusal> {
    for change in batch.as_slice() {
        match change {
            Change::Put(key, bytes) => put(tx, key, bytes.joined(alloc)?.as_slice())?,
            Change::Del(key) => remove(tx, key)?,
        }
    }
    Ok(())
}

/// No transaction can be open between two calls, so this is never returned.
const IN_TRANSACTION: Refusal = Refusal::Failed(Cause::Database(SqlError::SqliteFailure(
    ErrorCode::TransactionState,
)));

/// Makes all the changes as one transaction, or none of them after an error.
pub(crate) fn commit<S: Alter>(
    conn: &mut Connection<S>,
    alloc: Global,
    batch: &Batch,
) -> Result<(), Refusal> {
    if !conn.is_autocommit() {
        return Err(IN_TRANSACTION);
    }
    let mut tx = conn.transaction();
    change(&mut tx, alloc, batch)?;
    tx.commit()?;
    Ok(())
}

/// Makes the table where it isn't there, and all the changes, as one transaction. Fails if the table has rows.
pub(crate) fn commit_first<S: Alter>(
    conn: &mut Connection<S>,
    alloc: Global,
    batch: &Batch,
) -> Result<(), Refusal> {
    if has_table(conn)? {
        if has_rows(conn)? {
            return Err(Refusal::Failed(Cause::Appeared));
        }
        return commit(conn, alloc, batch);
    }
    if !conn.is_autocommit() {
        return Err(IN_TRANSACTION);
    }
    let mut tx = conn.transaction();
    tx.execute(CREATE, &[])?;
    change(&mut tx, alloc, batch)?;
    tx.commit()?;
    Ok(())
}
