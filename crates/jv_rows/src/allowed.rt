//! What the values of rows may be.
ghost use Rattle.std.specs.Prelude.{◌≡◌};
ghost use Rattle.std.specs.List.{list_all};
ghost use Rattle.std.specs.Str.{is_utf8};
ghost use Rattle.jv_model.specs.promise.rows.RowGrammar.{is_setting, is_block_length, is_volume_name, is_name_byte, is_bucket, is_counters, is_node, is_of_kind, is_target, is_edge, is_list, is_slice, is_session};
ghost use Rattle.jv_model.specs.promise.blocks.Slices.{is_record, is_part};

use jv_model::{
    Counters, DIRECTORY_LENGTH, Edge, FULL_COUNT, LAST_CLIENT, List, MAX_BLOCK, MAX_BUCKET,
    MAX_CAPACITY, MAX_MODE, MAX_PATH, MAX_TRASH_DAYS, MAX_VOLUME_NAME, MIN_BLOCK, MIN_VOLUME_NAME,
    Node, Rec, Session, Setting, SliceRow, WINDOW, has_no_zero,
};
use std::str::from_utf8;

/// The lengths that a volume's blocks may have, in bytes: the powers of two from 64 KiB to 16 MiB.
const BLOCK_SIZES: [u32; 9] = [
    MIN_BLOCK,
    2 * MIN_BLOCK,
    4 * MIN_BLOCK,
    8 * MIN_BLOCK,
    16 * MIN_BLOCK,
    32 * MIN_BLOCK,
    64 * MIN_BLOCK,
    128 * MIN_BLOCK,
    MAX_BLOCK,
];

/// Whether blocks may have this length.
pub fn allows_block(size: u32) -> bool
    ensures { result ≡ is_block_length size }
{
    BLOCK_SIZES.contains(&size)
}

/// Whether a byte may stand in a volume's name: a lower-case letter, a digit or `-`.
fn allows_name_byte(byte: u8) -> bool
    ensures { result ≡ is_name_byte byte }
{
    (b'a' <= byte && byte <= b'z') || (b'0' <= byte && byte <= b'9') || byte == b'-'
}

fn allows_name_bytes(name: &[u8]) -> bool
    ensures { result ≡ list_all is_name_byte name.now }
{
    name.iter().all(|byte| allows_name_byte(*byte))
}

/// Whether a volume may have this name: 3 to 63 bytes of lower-case letters, digits and `-`, which is neither first
/// nor last.
fn allows_name(name: &[u8]) -> bool
    ensures { result ≡ is_volume_name name.now }
{
    MIN_VOLUME_NAME <= name.len()
        && name.len() <= MAX_VOLUME_NAME
        && allows_name_bytes(name)
        && name[0] != b'-'
        && name[name.len() - 1] != b'-'
}

fn is_text(bytes: &[u8]) -> bool
    ensures { result ≡ is_utf8 bytes.now }
{
    from_utf8(bytes).is_ok()
}

/// Whether objects may lie in this bucket: 1 to [`MAX_BUCKET`] bytes of UTF-8.
fn allows_bucket(bucket: &[u8]) -> bool
    ensures { result ≡ is_bucket bucket.now }
{
    1 <= bucket.len() && bucket.len() <= MAX_BUCKET && is_text(bucket)
}

/// Whether a volume may have this setting, of any version from 1 on.
pub fn allows_setting(s: &Setting) -> bool
    ensures { result ≡ is_setting s.now }
{
    1 <= s.version
        && allows_block(s.block)
        && s.trash_days <= MAX_TRASH_DAYS
        && s.capacity <= MAX_CAPACITY
        && s.inodes <= FULL_COUNT
        && s.hash <= 1
        && allows_name(s.name.as_slice())
        && allows_bucket(s.bucket.as_slice())
}

/// Whether each next number is at least 1.
pub fn allows_counters(c: &Counters) -> bool
    ensures { result ≡ is_counters c.now }
{
    1 <= c.inode && 1 <= c.slice && 1 <= c.session
}

/// Whether a symlink may have this target: 1 to [`MAX_PATH`] bytes without the byte 0.
fn allows_target(target: &[u8]) -> bool
    ensures { result ≡ is_target target.now }
{
    1 <= target.len() && target.len() <= MAX_PATH && has_no_zero(target)
}

fn fits_kind(node: &Node) -> bool
    ensures { result ≡ is_of_kind node.now }
{
    match node.kind {
        1 => node.parent == 0 && node.target.is_empty(),
        2 => node.length == DIRECTORY_LENGTH && node.target.is_empty(),
        3 => {
            node.parent == 0
                && node.length == node.target.len() as u64
                && allows_target(node.target.as_slice())
        }
        _ => false,
    }
}

/// Whether a node may be so: its permission bits, and what its kind asks of parent, length and target.
pub fn allows_node(node: &Node) -> bool
    ensures { result ≡ is_node node.now }
{
    node.mode <= MAX_MODE && fits_kind(node)
}

/// Whether an entry names a kind of node.
pub fn allows_edge(edge: &Edge) -> bool
    ensures { result ≡ is_edge edge.now }
{
    1 <= edge.kind && edge.kind <= 3
}

fn is_part_of_slice(r: &Rec) -> bool
    ensures { result ≡ is_part r.now }
{
    if r.id == 0 {
        r.size == 0 && r.off == 0
    } else {
        u64::from(r.off) + u64::from(r.len) <= u64::from(r.size)
    }
}

/// Whether a record shows a position or more, inside its window and its slice.
pub fn allows_record(r: &Rec) -> bool
    ensures { result ≡ is_record r.now }
{
    1 <= r.len && u64::from(r.pos) + u64::from(r.len) <= WINDOW && is_part_of_slice(r)
}

fn allows_records(records: &[Rec]) -> bool
    ensures { result ≡ list_all is_record records.now }
{
    records.iter().all(|record| allows_record(record))
}

/// Whether a list has a record or more, each of them allowed.
pub fn allows_list(list: &List) -> bool
    ensures { result ≡ is_list list.now }
{
    !list.is_empty() && allows_records(list.as_slice())
}

/// Whether a record or more names the slice.
pub fn allows_slice(slice: &SliceRow) -> bool
    ensures { result ≡ is_slice slice.now }
{
    1 <= slice.count
}

/// Whether the session's client is one of eight.
pub fn allows_session(session: &Session) -> bool
    ensures { result ≡ is_session session.now }
{
    session.client <= LAST_CLIENT
}
