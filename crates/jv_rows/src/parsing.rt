//! What the bytes of a row spell.
ghost use Rattle.std.specs.Prelude.{◌≡◌, ◌<◌, length, None};
ghost use Rattle.jv_model.specs.declared.tables.TheConstants.{RECORD_LENGTH};
ghost use Rattle.jv_model.specs.promise.rows.RowGrammar.{setting_of, counters_of, node_of, edge_of, record_at, records_at, list_of, slice_of, session_of_bytes, sustained_of, dropped_of, dead_of};
ghost use Rattle.jv_model.specs.promise.rows.RowFields.{whole};
ghost use Rattle.jv_rows.specs.Reads.{Takes, ReadsAs};

use crate::allowed::{
    allows_counters, allows_edge, allows_list, allows_node, allows_session, allows_setting,
    allows_slice,
};
use crate::fields::{take_byte, take_front, take_half, take_long, take_word};
use crate::misread::Misread;
use jv_model::tables::RECORD_LENGTH;
use jv_model::{
    Counters, Dead, Dropped, Edge, List, Node, Rec, Sequence, Session, Setting, SliceRow, copied,
};
use std::alloc::Global;

/// The value, where it is allowed and no bytes are left over.
fn settled<T: Drop>(value: T, allowed: bool, rest: &[u8]) -> Result<T, Misread>
    ensures { ReadsAs result (whole (λ _. allowed) value rest.now) }
{
    if !rest.is_empty() || !allowed {
        return Err(Misread::Malformed);
    }
    Ok(value)
}

/// The setting that the bytes spell, of whatever version.
///
/// # Errors
///
/// [`Misread::Malformed`] if and only if no row of the table has these bytes, and [`Misread::Memory`] out of memory.
#[tactic(auto, unfolding(jv_model::specs::promise::rows::RowGrammar::setting_of))]
pub fn parse_setting(alloc: Global, bytes: &[u8]) -> Result<Setting, Misread>
    ensures { ReadsAs result (setting_of bytes.now) }
{
    let (version, rest) = take_word(bytes)?;
    let (block, rest) = take_word(rest)?;
    let (trash_days, rest) = take_word(rest)?;
    let (capacity, rest) = take_long(rest)?;
    let (inodes, rest) = take_long(rest)?;
    let (hash, rest) = take_byte(rest)?;
    let (name_length, rest) = take_byte(rest)?;
    let (name, rest) = take_front(name_length as usize, rest)?;
    let (bucket_length, rest) = take_half(rest)?;
    let (bucket, rest) = take_front(bucket_length as usize, rest)?;
    let setting = Setting {
        version,
        block,
        trash_days,
        capacity,
        inodes,
        hash,
        name: copied(alloc, name)?,
        bucket: copied(alloc, bucket)?,
    };
    let allowed = allows_setting(&setting);
    settled(setting, allowed, rest)
}

/// The next numbers and the running totals that the bytes spell. Errors are as of [`parse_setting`].
#[tactic(auto, unfolding(jv_model::specs::promise::rows::RowGrammar::counters_of))]
pub fn parse_counters(bytes: &[u8]) -> Result<Counters, Misread>
    ensures { ReadsAs result (counters_of bytes.now) }
{
    let (inode, rest) = take_long(bytes)?;
    let (slice, rest) = take_long(rest)?;
    let (session, rest) = take_long(rest)?;
    let (used_space, rest) = take_long(rest)?;
    let (used_inodes, rest) = take_long(rest)?;
    let counters = Counters {
        inode,
        slice,
        session,
        used_space,
        used_inodes,
    };
    let allowed = allows_counters(&counters);
    settled(counters, allowed, rest)
}

/// The node that the bytes spell. Errors are as of [`parse_setting`].
#[tactic(auto, unfolding(jv_model::specs::promise::rows::RowGrammar::node_of))]
pub fn parse_node(alloc: Global, bytes: &[u8]) -> Result<Node, Misread>
    ensures { ReadsAs result (node_of bytes.now) }
{
    let (kind, rest) = take_byte(bytes)?;
    let (mode, rest) = take_half(rest)?;
    let (uid, rest) = take_word(rest)?;
    let (gid, rest) = take_word(rest)?;
    let (nlink, rest) = take_word(rest)?;
    let (mtime, rest) = take_long(rest)?;
    let (ctime, rest) = take_long(rest)?;
    let (length, rest) = take_long(rest)?;
    let (parent, rest) = take_long(rest)?;
    let node = Node {
        kind,
        mode,
        uid,
        gid,
        nlink,
        mtime,
        ctime,
        length,
        parent,
        target: copied(alloc, rest)?,
    };
    let allowed = allows_node(&node);
    settled(node, allowed, &[])
}

/// The entry that the bytes spell. Errors are as of [`parse_setting`].
#[tactic(auto, unfolding(jv_model::specs::promise::rows::RowGrammar::edge_of))]
pub fn parse_edge(bytes: &[u8]) -> Result<Edge, Misread>
    ensures { ReadsAs result (edge_of bytes.now) }
{
    let (kind, rest) = take_byte(bytes)?;
    let (inode, rest) = take_long(rest)?;
    let edge = Edge { kind, inode };
    let allowed = allows_edge(&edge);
    settled(edge, allowed, rest)
}

/// Fewer bytes than a record has spell none: a law, which runs no code.
fn has_no_record(bytes: &[u8])
    requires { length bytes.now < RECORD_LENGTH }
    ensures { record_at bytes.now ≡ None }
{}

/// A record at the front of bytes, and the bytes after it.
#[tactic(auto, unfolding(jv_model::specs::promise::rows::RowGrammar::record_at))]
pub(crate) fn take_record(bytes: &[u8]) -> Result<(Rec, &[u8]), Misread>
    ensures { Takes (λ x. (x.0, x.1.now)) result (record_at bytes.now) }
{
    // One test of the length in place of five.
    if bytes.len() < RECORD_LENGTH {
        has_no_record(bytes);
        return Err(Misread::Malformed);
    }
    let (pos, rest) = take_word(bytes)?;
    let (id, rest) = take_long(rest)?;
    let (size, rest) = take_word(rest)?;
    let (off, rest) = take_word(rest)?;
    let (len, rest) = take_word(rest)?;
    Ok((
        Rec {
            pos,
            id,
            size,
            off,
            len,
        },
        rest,
    ))
}

/// The first `count` records of bytes, and the bytes after them.
fn take_records(alloc: Global, count: usize, bytes: &[u8]) -> Result<(Vec<Rec>, &[u8]), Misread>
    ensures { Takes (λ x. (x.0.items, x.1.now)) result (records_at count bytes.now) }
{
    let mut records = Vec::with_capacity(alloc, count)?;
    let mut rest = bytes;
    for _ in 0..count {
        let (record, after) = take_record(rest)?;
        records.push(record)?;
        rest = after;
    }
    Ok((records, rest))
}

/// The list of a window that the bytes spell. Errors are as of [`parse_setting`].
#[tactic(auto, unfolding(jv_model::specs::promise::rows::RowGrammar::list_of))]
pub fn parse_list(alloc: Global, bytes: &[u8]) -> Result<List, Misread>
    ensures { ReadsAs result (list_of bytes.now) }
{
    let (records, rest) = take_records(alloc, bytes.len() / RECORD_LENGTH, bytes)?;
    let list = Sequence::from_vec(records);
    let allowed = allows_list(&list);
    settled(list, allowed, rest)
}

/// The slice that the bytes spell. Errors are as of [`parse_setting`].
#[tactic(auto, unfolding(jv_model::specs::promise::rows::RowGrammar::slice_of))]
pub fn parse_slice(bytes: &[u8]) -> Result<SliceRow, Misread>
    ensures { ReadsAs result (slice_of bytes.now) }
{
    let (size, rest) = take_word(bytes)?;
    let (count, rest) = take_long(rest)?;
    let slice = SliceRow { size, count };
    let allowed = allows_slice(&slice);
    settled(slice, allowed, rest)
}

/// The session that the bytes spell. Errors are as of [`parse_setting`].
#[tactic(auto, unfolding(jv_model::specs::promise::rows::RowGrammar::session_of_bytes))]
pub fn parse_session(bytes: &[u8]) -> Result<Session, Misread>
    ensures { ReadsAs result (session_of_bytes bytes.now) }
{
    let (client, rest) = take_byte(bytes)?;
    let (expiry, rest) = take_long(rest)?;
    let session = Session { client, expiry };
    let allowed = allows_session(&session);
    settled(session, allowed, rest)
}

/// Nothing, of which the row of a sustained file consists. Errors are as of [`parse_setting`].
#[tactic(auto, unfolding(jv_model::specs::promise::rows::RowGrammar::sustained_of))]
pub fn parse_sustained(bytes: &[u8]) -> Result<(), Misread>
    ensures { ReadsAs result (sustained_of bytes.now) }
{
    settled((), true, bytes)
}

/// The dropped file that the bytes spell. Errors are as of [`parse_setting`].
#[tactic(auto, unfolding(jv_model::specs::promise::rows::RowGrammar::dropped_of))]
pub fn parse_dropped(bytes: &[u8]) -> Result<Dropped, Misread>
    ensures { ReadsAs result (dropped_of bytes.now) }
{
    let (length, rest) = take_long(bytes)?;
    settled(Dropped { length }, true, rest)
}

/// The dead slice that the bytes spell. Errors are as of [`parse_setting`].
#[tactic(auto, unfolding(jv_model::specs::promise::rows::RowGrammar::dead_of))]
pub fn parse_dead(bytes: &[u8]) -> Result<Dead, Misread>
    ensures { ReadsAs result (dead_of bytes.now) }
{
    let (size, rest) = take_word(bytes)?;
    let (due, rest) = take_long(rest)?;
    settled(Dead { size, due }, true, rest)
}
