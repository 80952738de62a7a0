//! The one spelling of each row.
ghost use Rattle.std.specs.Prelude.{◌≡◌, ◌++◌, OnOk, IfOk, IsTrue};
ghost use Rattle.jv_model.specs.promise.rows.RowGrammar.{is_setting, setting_bytes, counters_bytes, node_bytes, edge_bytes, record_bytes, list_bytes, slice_bytes, session_bytes, dropped_bytes, dead_bytes};

use jv_model::tables::RECORD_LENGTH;
use jv_model::{
    Bytes, Counters, Dead, Dropped, Edge, List, Node, Rec, Sequence, Session, Setting, SliceRow,
};
use std::alloc::{AllocError, Global};

// How many bytes a row of a table has; a node's without its target's.
const COUNTERS_LENGTH: usize = 40;

const NODE_LENGTH: usize = 47;

const EDGE_LENGTH: usize = 9;

const SLICE_LENGTH: usize = 12;

const SESSION_LENGTH: usize = 9;

const DROPPED_LENGTH: usize = 8;

const DEAD_LENGTH: usize = 12;

/// The bytes of a setting. The only error is out of memory, here and for the rows of each other table.
#[tactic(auto, unfolding(jv_model::specs::promise::rows::RowGrammar::setting_bytes))]
pub fn spell_setting(alloc: Global, s: &Setting) -> Result<Bytes, AllocError>
    requires { IsTrue (is_setting s.now) }
    ensures { IfOk result (λ bytes. bytes ≡ setting_bytes s.now) }
{
    let mut out = Vec::new(alloc);
    out.extend_from_slice(&s.version.to_be_bytes())?;
    out.extend_from_slice(&s.block.to_be_bytes())?;
    out.extend_from_slice(&s.trash_days.to_be_bytes())?;
    out.extend_from_slice(&s.capacity.to_be_bytes())?;
    out.extend_from_slice(&s.inodes.to_be_bytes())?;
    out.push(s.hash)?;
    out.push(s.name.len() as u8)?;
    out.extend_from_slice(s.name.as_slice())?;
    out.extend_from_slice(&(s.bucket.len() as u16).to_be_bytes())?;
    out.extend_from_slice(s.bucket.as_slice())?;
    Ok(Sequence::from_vec(out))
}

/// The bytes of the next numbers and the running totals.
#[tactic(auto, unfolding(jv_model::specs::promise::rows::RowGrammar::counters_bytes))]
pub fn spell_counters(alloc: Global, c: &Counters) -> Result<Bytes, AllocError>
    ensures { IfOk result (λ bytes. bytes ≡ counters_bytes c.now) }
{
    let mut out = Vec::with_capacity(alloc, COUNTERS_LENGTH)?;
    out.extend_from_slice(&c.inode.to_be_bytes())?;
    out.extend_from_slice(&c.slice.to_be_bytes())?;
    out.extend_from_slice(&c.session.to_be_bytes())?;
    out.extend_from_slice(&c.used_space.to_be_bytes())?;
    out.extend_from_slice(&c.used_inodes.to_be_bytes())?;
    Ok(Sequence::from_vec(out))
}

/// The bytes of a node.
#[tactic(auto, unfolding(jv_model::specs::promise::rows::RowGrammar::node_bytes))]
pub fn spell_node(alloc: Global, node: &Node) -> Result<Bytes, AllocError>
    ensures { IfOk result (λ bytes. bytes ≡ node_bytes node.now) }
{
    let mut out = Vec::with_capacity(alloc, NODE_LENGTH + node.target.len())?;
    out.push(node.kind)?;
    out.extend_from_slice(&node.mode.to_be_bytes())?;
    out.extend_from_slice(&node.uid.to_be_bytes())?;
    out.extend_from_slice(&node.gid.to_be_bytes())?;
    out.extend_from_slice(&node.nlink.to_be_bytes())?;
    out.extend_from_slice(&node.mtime.to_be_bytes())?;
    out.extend_from_slice(&node.ctime.to_be_bytes())?;
    out.extend_from_slice(&node.length.to_be_bytes())?;
    out.extend_from_slice(&node.parent.to_be_bytes())?;
    out.extend_from_slice(node.target.as_slice())?;
    Ok(Sequence::from_vec(out))
}

/// The bytes of an entry.
#[tactic(auto, unfolding(jv_model::specs::promise::rows::RowGrammar::edge_bytes))]
pub fn spell_edge(alloc: Global, edge: &Edge) -> Result<Bytes, AllocError>
    ensures { IfOk result (λ bytes. bytes ≡ edge_bytes edge.now) }
{
    let mut out = Vec::with_capacity(alloc, EDGE_LENGTH)?;
    out.push(edge.kind)?;
    out.extend_from_slice(&edge.inode.to_be_bytes())?;
    Ok(Sequence::from_vec(out))
}

/// Adds the bytes of a record at the end.
#[tactic(auto, unfolding(jv_model::specs::promise::rows::RowGrammar::record_bytes))]
pub(crate) fn put_record(out: &mut Vec<u8>, r: &Rec) -> Result<(), AllocError>
    ensures { OnOk result (out.new.items ≡ out.old.items ++ record_bytes r.now) }
{
    out.extend_from_slice(&r.pos.to_be_bytes())?;
    out.extend_from_slice(&r.id.to_be_bytes())?;
    out.extend_from_slice(&r.size.to_be_bytes())?;
    out.extend_from_slice(&r.off.to_be_bytes())?;
    out.extend_from_slice(&r.len.to_be_bytes())?;
    Ok(())
}

/// The bytes of a window's list.
#[tactic(auto, unfolding(jv_model::specs::promise::rows::RowGrammar::list_bytes))]
pub fn spell_list(alloc: Global, list: &List) -> Result<Bytes, AllocError>
    ensures { IfOk result (λ bytes. bytes ≡ list_bytes list.now) }
{
    let mut out = Vec::with_capacity(alloc, list.len().saturating_mul(RECORD_LENGTH))?;
    for record in list.as_slice() {
        put_record(&mut out, record)?;
    }
    Ok(Sequence::from_vec(out))
}

/// The bytes of a slice's row.
#[tactic(auto, unfolding(jv_model::specs::promise::rows::RowGrammar::slice_bytes))]
pub fn spell_slice(alloc: Global, slice: &SliceRow) -> Result<Bytes, AllocError>
    ensures { IfOk result (λ bytes. bytes ≡ slice_bytes slice.now) }
{
    let mut out = Vec::with_capacity(alloc, SLICE_LENGTH)?;
    out.extend_from_slice(&slice.size.to_be_bytes())?;
    out.extend_from_slice(&slice.count.to_be_bytes())?;
    Ok(Sequence::from_vec(out))
}

/// The bytes of a session.
#[tactic(auto, unfolding(jv_model::specs::promise::rows::RowGrammar::session_bytes))]
pub fn spell_session(alloc: Global, session: &Session) -> Result<Bytes, AllocError>
    ensures { IfOk result (λ bytes. bytes ≡ session_bytes session.now) }
{
    let mut out = Vec::with_capacity(alloc, SESSION_LENGTH)?;
    out.push(session.client)?;
    out.extend_from_slice(&session.expiry.to_be_bytes())?;
    Ok(Sequence::from_vec(out))
}

/// The bytes of a dropped file's row.
#[tactic(auto, unfolding(jv_model::specs::promise::rows::RowGrammar::dropped_bytes))]
pub fn spell_dropped(alloc: Global, dropped: &Dropped) -> Result<Bytes, AllocError>
    ensures { IfOk result (λ bytes. bytes ≡ dropped_bytes dropped.now) }
{
    let mut out = Vec::with_capacity(alloc, DROPPED_LENGTH)?;
    out.extend_from_slice(&dropped.length.to_be_bytes())?;
    Ok(Sequence::from_vec(out))
}

/// The bytes of a dead slice's row.
#[tactic(auto, unfolding(jv_model::specs::promise::rows::RowGrammar::dead_bytes))]
pub fn spell_dead(alloc: Global, dead: &Dead) -> Result<Bytes, AllocError>
    ensures { IfOk result (λ bytes. bytes ≡ dead_bytes dead.now) }
{
    let mut out = Vec::with_capacity(alloc, DEAD_LENGTH)?;
    out.extend_from_slice(&dead.size.to_be_bytes())?;
    out.extend_from_slice(&dead.due.to_be_bytes())?;
    Ok(Sequence::from_vec(out))
}
