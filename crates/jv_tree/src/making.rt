//! New entries, by POSIX.1-2017's "mkdirat", "openat" with O_CREAT and O_EXCL, and "symlinkat".
ghost use Rattle.std.specs.Prelude.{◌≡◌, ◌≤◌, ◌<◌, ℕ, [], length, IsTrue};
ghost use Rattle.jv_model.specs.declared.limits.TheConstants.{MAX_MODE};
ghost use Rattle.jv_model.specs.declared.op.Reply.TheVariants.{Found, FileOpened};
ghost use Rattle.jv_model.specs.promise.tree.Caller.{Caller};
ghost use Rattle.jv_model.specs.declared.op.Reply.{Reply};
ghost use Rattle.jv_model.specs.promise.rows.RowGrammar.{is_setting, is_node};
ghost use Rattle.jv_model.specs.promise.tree.Making as model;
ghost use Rattle.jv_model.specs.promise.tree.Tree.{Kind};
ghost use Rattle.jv_rows.specs.Transactions.{IsFor, Transacts, Always};
ghost use Rattle.jv_rows.specs.Walks.{ComesToEntry, HasNodeRow};
ghost use Rattle.jv_model.specs.promise.Lists.{has_no_zero};
ghost use Rattle.jv_tree.specs.Entering.{new_pair, place_of, IsFreePlace, IsNewKind, new_row, enter, Grows, GetsEntry};

use jv_model::{
    Bytes, Counters, DIRECTORY_LENGTH, Edge, FULL_COUNT, FULL_MODE, Fault, MAX_PATH, Moment, Node,
    Path, RowFault, SPACE_UNIT, Sequence, Setting, TRASH_ROOT, TxFault, Who, copied,
};
use jv_outside::Keeper;
use jv_rows::{
    Draft, EntryPlace, in_session, is_trash_of, needed_counters, needed_setting, read_edge,
    walk_to_entry,
};
use std::alloc::Global;

/// Whether a new entry may stand there: not in the trash, and not in the place of `.trash`.
pub fn may_be_new(place: &EntryPlace) -> bool
    ensures { result ≡ model.may_be_new (place_of place.now) }
{
    place.dir.inode < TRASH_ROOT && !is_trash_of(place.dir.inode, place.name.as_slice())
}

/// Where a new entry may stand: not in the trash, not in the place of `.trash`, and not where an entry is. No row
/// changes. POSIX.1-2017, 4.13 "Pathname Resolution".
///
/// # Errors
///
/// As of [`jv_rows::walk_to_entry`], NotPermitted in the trash and in the place of `.trash`, and AlreadyExists where an
/// entry is. Bad for a malformed entry, Failed if the keeper failed, Memory.
pub fn new_place<K: Keeper>(alloc: Global, k: &mut K, path: &Path) -> Result<EntryPlace, TxFault>
    ensures { ComesToEntry (K.seen k.old) (K.seen k.new) result (λ t. new_pair t path.now) }
{
    let place = walk_to_entry(alloc, k, path)?;
    if !may_be_new(&place) {
        return Err(TxFault::Refused(Fault::NotPermitted));
    }
    match read_edge(alloc, k, place.dir.inode, &place.name)? {
        Some(_) => Err(TxFault::Refused(Fault::AlreadyExists)),
        None => Ok(place),
    }
}

/// The counters with one more node of the least space, where the volume's limits allow it.
fn grown(setting: &Setting, counters: &Counters) -> Result<Counters, Fault>
    requires { IsTrue (is_setting setting.now) }
    ensures { Grows setting.now counters.now result }
{
    let space = u128::from(counters.used_space) + u128::from(SPACE_UNIT);
    let has_room = space <= setting.space_limit() && counters.used_inodes < setting.inode_limit();
    if counters.inode >= FULL_COUNT || !has_room {
        return Err(Fault::NoSpace);
    }
    Ok(Counters {
        inode: counters.inode + 1,
        used_space: counters.used_space + SPACE_UNIT,
        used_inodes: counters.used_inodes + 1,
        ..*counters
    })
}

/// A directory that gets an entry at a moment, of a directory or not; refused where its link count is full.
fn with_entry(parent: &mut Node, now: Moment, kind: u8) -> Result<(), Fault>
    ensures { GetsEntry parent.old parent.new now kind result }
{
    parent.mtime = now.seconds();
    parent.ctime = now.seconds();
    if kind == 2 {
        parent.nlink = parent.nlink.checked_add(1).ok_or(Fault::NoSpace)?;
    }
    Ok(())
}

/// Makes a node under a new entry, with the next inode, which it returns.
fn enter<K: Keeper>(
    alloc: Global,
    k: &mut K,
    now: Moment,
    place: &mut EntryPlace,
    node: &Node,
) -> Result<u64, TxFault>
    requires node { IsTrue (is_node node.now) }
    requires dir { IsTrue (is_node place.old.dir.node) }
    requires stands { HasNodeRow (K.seen k.old) place.old.dir.inode place.old.dir.node }
    ensures { (kind : Kind) (reply : ℕ → Reply) → IsNewKind place.old.dir.inode kind
        → node.now ≡ new_row kind node.now.mode now
        → Transacts (λ t. IsFreePlace t (place_of place.old)) (K.seen k.old) (K.seen k.new)
        result reply (enter kind node.now.mode now (place_of place.old) reply) }
{
    let mut draft = Draft::new(alloc);
    let setting = needed_setting(alloc, k, &draft)?;
    let counters = needed_counters(alloc, k, &draft)?;
    let after = grown(&setting, &counters)?;
    with_entry(&mut place.dir.node, now, node.kind)?;
    let edge = Edge {
        kind: node.kind,
        inode: counters.inode,
    };
    draft.put_node(counters.inode, node)?;
    draft.put_edge(place.dir.inode, &place.name, &edge)?;
    draft.put_node(place.dir.inode, &place.dir.node)?;
    draft.put_counters(&after)?;
    match draft.commit(k) {
        Ok(()) => Ok(counters.inode),
        Err(down) => Err(TxFault::Rows(RowFault::from(down))),
    }
}

/// A node that is made at a moment, of user and group 0.
fn new_node(alloc: Global, kind: u8, mode: u16, now: Moment) -> Node
    ensures { result ≡ record {
      kind = kind;
      mode = mode;
      uid = 0;
      gid = 0;
      nlink = 1;
      mtime = now;
      ctime = now;
      length = 0;
      parent = 0;
      target = [];
    } }
{
    Node {
        kind,
        mode,
        uid: 0,
        gid: 0,
        nlink: 1,
        mtime: now.seconds(),
        ctime: now.seconds(),
        length: 0,
        parent: 0,
        target: Sequence::new(alloc),
    }
}

/// Makes an empty directory with these permission bits, at most [`jv_model::MAX_MODE`], and returns its inode.
/// POSIX.1-2017, mkdirat.
///
/// # Errors
///
/// Stale where the session is gone, then as of [`new_place`], and NoSpace where a limit of the volume, the inodes or
/// the link count of the directory leaves no room. Bad for a malformed setting or malformed counters, and without bytes
/// where one of them is absent. Failed if the keeper failed. Memory. On error no row has changed.
pub fn mkdir<K: Keeper>(
    alloc: Global,
    k: &mut K,
    who: &Who,
    path: &Path,
    mode: u16,
) -> Result<u64, TxFault>
    requires mode { mode ≤ MAX_MODE }
    requires path { IsTrue (has_no_zero path.now) }
    ensures { (caller : Caller) → IsFor who.entry.now caller
        → Transacts Always (K.seen k.old) (K.seen k.new)
        result (λ inode. Found inode) (λ t. model.mkdir t caller path.now mode) }
{
    in_session(alloc, k, who.sid)?;
    let mut place = new_place(alloc, k, path)?;
    let node = Node {
        nlink: 2,
        length: DIRECTORY_LENGTH,
        parent: place.dir.inode,
        ..new_node(alloc, 2, mode, who.now)
    };
    enter(alloc, k, who.now, &mut place, &node)
}

/// Makes an empty file with these permission bits, at most [`jv_model::MAX_MODE`], and returns its inode. POSIX.1-2017,
/// openat with O_CREAT and O_EXCL.
///
/// # Errors
///
/// As of [`mkdir`], but that the link count of the directory stays.
pub fn create<K: Keeper>(
    alloc: Global,
    k: &mut K,
    who: &Who,
    path: &Path,
    mode: u16,
) -> Result<u64, TxFault>
    requires mode { mode ≤ MAX_MODE }
    requires path { IsTrue (has_no_zero path.now) }
    ensures { (caller : Caller) → IsFor who.entry.now caller
        → Transacts Always (K.seen k.old) (K.seen k.new)
        result (λ inode. FileOpened caller.free_handle inode)
        (λ t. model.create t caller path.now mode) }
{
    in_session(alloc, k, who.sid)?;
    let mut place = new_place(alloc, k, path)?;
    enter(
        alloc,
        k,
        who.now,
        &mut place,
        &new_node(alloc, 1, mode, who.now),
    )
}

/// Makes a symlink with a target, and returns its inode. POSIX.1-2017, symlinkat.
///
/// # Errors
///
/// As of [`create`], and NameTooLong for a target of over [`jv_model::MAX_PATH`] bytes, before the path is looked at.
pub fn symlink<K: Keeper>(
    alloc: Global,
    k: &mut K,
    who: &Who,
    target: &Bytes,
    path: &Path,
) -> Result<u64, TxFault>
    requires target { IsTrue (has_no_zero target.now) }
    requires not_empty { 0 < length target.now }
    requires path { IsTrue (has_no_zero path.now) }
    ensures { (caller : Caller) → IsFor who.entry.now caller
        → Transacts Always (K.seen k.old) (K.seen k.new)
        result (λ inode. Found inode) (λ t. model.symlink t caller target.now path.now) }
{
    in_session(alloc, k, who.sid)?;
    if target.len() > MAX_PATH {
        return Err(TxFault::Refused(Fault::NameTooLong));
    }
    let mut place = new_place(alloc, k, path)?;
    let node = Node {
        length: target.len() as u64,
        target: copied(alloc, target.as_slice())?,
        // All may do all with a symlink: its target's bits decide.
        ..new_node(alloc, 3, FULL_MODE, who.now)
    };
    enter(alloc, k, who.now, &mut place, &node)
}
