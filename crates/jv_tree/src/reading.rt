//! Look-ups and attributes, by POSIX.1-2017's "fstatat", "readdir", "readlink" and "fstatvfs".
ghost use Rattle.std.specs.Prelude.{◌≡◌, ◌++◌, false, Ok, IfOk, IsTrue};
ghost use Rattle.jv_model.specs.declared.op.Reply.TheVariants.{Found, Described, Entries, Usage, Target, FileOpened};
ghost use Rattle.jv_model.specs.promise.tree.Caller.{Caller};
ghost use Rattle.jv_model.specs.promise.tree.Reading as model;
ghost use Rattle.jv_tree.specs.Attributes.{kind_in, attr_in};
ghost use Rattle.jv_tree.specs.Directories.{last_of, entries_within, all_within};
ghost use Rattle.jv_rows.specs.Transactions.{IsFor, Looks, Transacts, Always};

use jv_model::tables::TABLE_OF_EDGES;
use jv_model::{
    Attr, Bytes, EntryList, Fault, FileKind, Gone, Node, Path, Row, RowKey, RowList, Sequence,
    Space, TxFault, Who,
};
use jv_outside::Keeper;
use jv_rows::{Draft, in_session, needed_counters, needed_setting, scan_rows, walk_to};
use std::alloc::{AllocError, Global};

/// The inode of a path, whose last symlink isn't followed. No row changes. POSIX.1-2017, 4.13 "Pathname Resolution".
///
/// # Errors
///
/// Stale where the session is gone, and then as of [`walk_to`].
pub fn lookup<K: Keeper>(alloc: Global, k: &mut K, who: &Who, path: &Path) -> Result<u64, TxFault>
    ensures { (caller : Caller) → IsFor who.entry.now caller
        → Transacts Always (K.seen k.old) (K.seen k.new)
        result (λ inode. Found inode) (λ t. model.lookup t caller path.now) }
{
    in_session(alloc, k, who.sid)?;
    Ok(walk_to(alloc, k, path, false)?.inode)
}

/// The kind of a node, by its row.
fn kind_of(node: &Node) -> FileKind
    ensures { result ≡ kind_in node.now.kind }
{
    match node.kind {
        1 => FileKind::File,
        2 => FileKind::Directory,
        _ => FileKind::Symlink,
    }
}

fn attr_of(inode: u64, node: &Node) -> Attr
    ensures { result ≡ attr_in inode node.now }
{
    Attr {
        inode,
        kind: kind_of(node),
        mode: node.mode,
        nlink: node.nlink,
        uid: node.uid,
        gid: node.gid,
        size: node.length,
        mtime: node.mtime,
        ctime: node.ctime,
    }
}

/// The attributes of what a path leads to, where a last symlink is followed or isn't. No row changes. POSIX.1-2017,
/// fstatat.
///
/// # Errors
///
/// As of [`lookup`].
pub fn stat<K: Keeper>(
    alloc: Global,
    k: &mut K,
    who: &Who,
    path: &Path,
    follow: bool,
) -> Result<Attr, TxFault>
    ensures followed { IsTrue follow → (caller : Caller) → IsFor who.entry.now caller
        → Transacts Always (K.seen k.old) (K.seen k.new)
        result (λ attr. Described attr) (λ t. model.stat t caller path.now) }
    ensures unfollowed { follow ≡ false → (caller : Caller) → IsFor who.entry.now caller
        → Transacts Always (K.seen k.old) (K.seen k.new)
        result (λ attr. Described attr) (λ t. model.lstat t caller path.now) }
{
    in_session(alloc, k, who.sid)?;
    let place = walk_to(alloc, k, path, follow)?;
    Ok(attr_of(place.inode, &place.node))
}

/// The attributes of an open file, which may be gone. No row changes. POSIX.1-2017, fstat.
///
/// # Errors
///
/// Stale where the session is gone, or then the file. Bad for a malformed row of the file, Failed if the keeper failed.
/// Memory.
pub fn fstat<K: Keeper>(alloc: Global, k: &mut K, who: &Who, inode: u64) -> Result<Attr, TxFault>
    ensures { (caller : Caller) → IsFor who.entry.now caller → caller.inode ≡ inode
        → Transacts Always (K.seen k.old) (K.seen k.new) result (λ attr. Described attr)
        (λ t. model.fstat t caller) }
{
    in_session(alloc, k, who.sid)?;
    match Draft::new(alloc).node(k, inode)? {
        Some(node) => Ok(attr_of(inode, &node)),
        None => Err(TxFault::Refused(Fault::Stale(Gone::Node(inode)))),
    }
}

/// The inode of a file to open for reading and writing: no directory, and behind a followed walk no symlink. No row
/// changes. POSIX.1-2017, openat.
///
/// # Errors
///
/// As of [`lookup`], and IsADirectory.
pub fn open_node<K: Keeper>(
    alloc: Global,
    k: &mut K,
    who: &Who,
    path: &Path,
) -> Result<u64, TxFault>
    ensures { (caller : Caller) → IsFor who.entry.now caller
        → Transacts Always (K.seen k.old) (K.seen k.new)
        result (λ inode. FileOpened caller.free_handle inode)
        (λ t. model.open_file t caller path.now) }
{
    in_session(alloc, k, who.sid)?;
    let place = walk_to(alloc, k, path, true)?;
    match kind_of(&place.node) {
        FileKind::Directory => Err(TxFault::Refused(Fault::IsADirectory)),
        FileKind::File | FileKind::Symlink => Ok(place.inode),
    }
}

/// The most rows that are read at once.
const PAGE: u32 = 128;

/// A copy of the key of the last row.
fn last_key(alloc: Global, page: &[(RowKey, Row)]) -> Result<Option<RowKey>, AllocError>
    ensures { IfOk result (λ found. found ≡ last_of page.now) }
{
    match page.last() {
        Some((key, _)) => Ok(Some(key.copied(alloc)?)),
        None => Ok(None),
    }
}

/// Adds the rows that are entries of a directory, up to the first that isn't, and returns whether
/// all are.
fn take_entries(dir: u64, page: RowList, entries: &mut EntryList) -> Result<bool, AllocError>
    ensures { IfOk result (λ all. (entries.new ≡ entries.old ++ entries_within dir page)
        × (all ≡ all_within dir page)) }
{
    for (key, row) in page.into_vec() {
        let Row::OfEdge(edge) = row else {
            return Ok(false);
        };
        if key.a != dir {
            return Ok(false);
        }
        entries.push((key.b, edge.inode))?;
    }
    Ok(true)
}

/// The entries of a directory, read in pages. A malformed row is Bad if a page has it, also where it
/// comes behind the directory's entries.
fn entries_in<K: Keeper>(alloc: Global, k: &mut K, dir: u64) -> Result<EntryList, TxFault>
    ensures { Looks (K.seen k.old) (K.seen k.new) result (λ t. Ok (model.entries_of t dir)) }
{
    let mut entries = Sequence::new(alloc);
    let mut last = RowKey {
        tab: TABLE_OF_EDGES,
        a: dir,
        b: Sequence::new(alloc),
    };
    loop {
        let page = scan_rows(alloc, k, TABLE_OF_EDGES, Some(&last), PAGE)?;
        let next = last_key(alloc, page.as_slice())?;
        // No list has 2^63 entries, so that the loop ends.
        let count = entries.len();
        let all = take_entries(dir, page, &mut entries)?;
        match next {
            Some(key) if all => last = key,
            _ => return Ok(entries),
        }
    }
}

/// The entries of a directory in the order of their names' bytes; `.` and `..` aren't listed, nor `.trash` in the root.
/// No row changes. POSIX.1-2017, readdir.
///
/// # Errors
///
/// As of [`lookup`], and NotADirectory. Bad also for a malformed entry, here or in a directory that comes right behind.
pub fn readdir<K: Keeper>(
    alloc: Global,
    k: &mut K,
    who: &Who,
    path: &Path,
) -> Result<EntryList, TxFault>
    ensures { (caller : Caller) → IsFor who.entry.now caller
        → Transacts Always (K.seen k.old) (K.seen k.new)
        result (λ entries. Entries entries) (λ t. model.readdir t caller path.now) }
{
    in_session(alloc, k, who.sid)?;
    let place = walk_to(alloc, k, path, true)?;
    match kind_of(&place.node) {
        FileKind::Directory => entries_in(alloc, k, place.inode),
        FileKind::File | FileKind::Symlink => Err(TxFault::Refused(Fault::NotADirectory)),
    }
}

/// The target of a symlink. No row changes. POSIX.1-2017, readlinkat.
///
/// # Errors
///
/// As of [`lookup`], and Invalid where the path leads to no symlink.
pub fn readlink<K: Keeper>(
    alloc: Global,
    k: &mut K,
    who: &Who,
    path: &Path,
) -> Result<Bytes, TxFault>
    ensures { (caller : Caller) → IsFor who.entry.now caller
        → Transacts Always (K.seen k.old) (K.seen k.new)
        result (λ target. Target target) (λ t. model.readlink t caller path.now) }
{
    in_session(alloc, k, who.sid)?;
    let place = walk_to(alloc, k, path, false)?;
    match kind_of(&place.node) {
        FileKind::Symlink => Ok(place.node.target),
        FileKind::File | FileKind::Directory => Err(TxFault::Refused(Fault::Invalid)),
    }
}

/// Used space and inodes, and the two limits as they were set. No row changes. Space is in bytes. POSIX.1-2017,
/// fstatvfs.
///
/// # Errors
///
/// Stale where the session is gone. Bad for a malformed setting or malformed counters, and without bytes where one of
/// them is absent. Failed if the keeper failed. Memory.
pub fn statfs<K: Keeper>(alloc: Global, k: &mut K, who: &Who) -> Result<Space, TxFault>
    ensures { (caller : Caller) → IsFor who.entry.now caller
        → Transacts Always (K.seen k.old) (K.seen k.new)
        result (λ space. Usage space) (λ t. model.statfs t caller) }
{
    in_session(alloc, k, who.sid)?;
    let draft = Draft::new(alloc);
    let setting = needed_setting(alloc, k, &draft)?;
    let counters = needed_counters(alloc, k, &draft)?;
    Ok(Space {
        used: counters.used_space,
        capacity: setting.capacity,
        inodes: counters.used_inodes,
        limit: setting.inodes,
    })
}
