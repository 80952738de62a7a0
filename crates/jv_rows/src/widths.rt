//! The numbers of rows have the widths of their fields. Each law is a function that only reads the fields.
ghost use Rattle.std.specs.Prelude.{◌<◌, ◌^◌};
ghost use Rattle.jv_model.specs.Lists.{AreBytes};
ghost use Rattle.jv_rows.specs.RoundTrips.{CountersWidths, NodeWidths, EdgeWidths, RecordWidths, ListWidths, SliceWidths, SessionWidths, DroppedWidths, DeadWidths};

use jv_model::row_bytes::are_bytes;
use jv_model::{Counters, Dead, Dropped, Edge, List, Node, Rec, Session, SliceRow};

pub(crate) fn has_counters_widths(counters: &Counters)
    ensures { CountersWidths counters.now }
{
    let _inode = counters.inode;
    let _slice = counters.slice;
    let _session = counters.session;
    let _used_space = counters.used_space;
    let _used_inodes = counters.used_inodes;
}

pub(crate) fn has_edge_widths(edge: &Edge)
    ensures { EdgeWidths edge.now }
{
    let _kind = edge.kind;
    let _inode = edge.inode;
}

pub(crate) fn has_node_widths(node: &Node)
    ensures { NodeWidths node.now }
{
    has_owner_widths(node);
    has_time_widths(node);
    has_target_widths(node);
}

pub(crate) fn has_session_widths(session: &Session)
    ensures { SessionWidths session.now }
{
    let _client = session.client;
    let _expiry = session.expiry;
}

pub(crate) fn has_dropped_widths(dropped: &Dropped)
    ensures { DroppedWidths dropped.now }
{
    let _length = dropped.length;
}

pub(crate) fn has_list_widths(list: &List)
    ensures { ListWidths list.now }
{
    for record in list.as_slice() {
        has_record_widths(record);
    }
}

pub(crate) fn has_record_widths(r: &Rec)
    ensures { RecordWidths r.now }
{
    let _pos = r.pos;
    let _id = r.id;
    let _size = r.size;
    let _off = r.off;
    let _len = r.len;
}

pub(crate) fn has_slice_widths(slice: &SliceRow)
    ensures { SliceWidths slice.now }
{
    let _size = slice.size;
    let _count = slice.count;
}

pub(crate) fn has_dead_widths(dead: &Dead)
    ensures { DeadWidths dead.now }
{
    let _size = dead.size;
    let _due = dead.due;
}

fn has_owner_widths(node: &Node)
    ensures kind { node.now.kind < 2 ^ 8 }
    ensures mode { node.now.mode < 2 ^ 16 }
    ensures uid { node.now.uid < 2 ^ 32 }
    ensures gid { node.now.gid < 2 ^ 32 }
    ensures nlink { node.now.nlink < 2 ^ 32 }
{
    let _kind = node.kind;
    let _mode = node.mode;
    let _uid = node.uid;
    let _gid = node.gid;
    let _nlink = node.nlink;
}

fn has_time_widths(node: &Node)
    ensures mtime { node.now.mtime < 2 ^ 64 }
    ensures ctime { node.now.ctime < 2 ^ 64 }
    ensures length { node.now.length < 2 ^ 64 }
    ensures parent { node.now.parent < 2 ^ 64 }
{
    let _mtime = node.mtime;
    let _ctime = node.ctime;
    let _length = node.length;
    let _parent = node.parent;
}

fn has_target_widths(node: &Node)
    ensures { AreBytes node.now.target }
{
    are_bytes(node.target.as_slice());
}
