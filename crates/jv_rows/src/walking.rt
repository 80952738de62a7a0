//! Walks through a volume's rows (POSIX.1-2017, 4.13 "Pathname Resolution"). Each component costs one reading of an edge
//! and one of a node.
ghost use Rattle.std.specs.Prelude.{◌≡◌, true, ◌≤◌, ◌++◌, ◌&&◌, ◌||◌, ◌==◌, not, length, drop, Ok, IfOk, OnOk, IsTrue};
ghost use Rattle.jv_model.specs.declared.fault.Fault.TheVariants.{NotFound};
ghost use Rattle.jv_model.specs.declared.fault.RowFault.TheVariants.{Bad};
ghost use Rattle.jv_model.specs.declared.fault.TxFault.TheVariants.{Rows as OfRows};
ghost use Rattle.jv_model.specs.declared.limits.TheConstants.{MAX_SYMLINKS};
ghost use Rattle.jv_model.specs.promise.FiniteMap.{get};
ghost use Rattle.jv_model.specs.promise.rows.RowGrammar.{is_node};
ghost use Rattle.jv_model.specs.promise.tree.Attempt.{some_or};
ghost use Rattle.jv_model.specs.promise.tree.Walk.{names_of, is_absolute, is_dot, is_dot_dot, is_trash, stepped, walk as walked, inode_by};
ghost use Rattle.jv_rows.specs.Transactions.{Looks};
ghost use Rattle.jv_rows.specs.Walks.{HasNodeRow, HasEdgeRow, Comes, ComesToEntry, Goes, onward, course, one_name, entry_pair};
ghost use Rattle.jv_volume.specs.promise.Shape.{is_top};

use crate::keys::{key_of_edge, key_of_node};
use crate::reading::{read_edge, read_node};
use crate::spelling::{spell_edge, spell_node};
use jv_model::{
    Bytes, Edge, Fault, MAX_NAME, MAX_PATH, MAX_SYMLINKS, Name, Node, Path, ROOT, RowFault, RowKey,
    Sequence, TRASH_ROOT, TxFault, copied,
};
use jv_outside::Keeper;
use std::alloc::{AllocError, Global};

/// Names in a row, as those of a path.
type Names = Sequence<Name>;

/// What a walk reaches: a node with its row.
#[derive(Debug, Drop)]
pub struct Place {
    pub inode: u64,
    pub node: Node,
}

/// An entry that a path names, whether it is there or not.
#[derive(Debug, Drop)]
pub struct EntryPlace {
    /// Its directory.
    pub dir: Place,
    pub name: Name,
}

/// Where a walk comes without following a symlink.
#[derive(Debug, Drop)]
pub(crate) enum Leg {
    Ends(Place),
    /// It goes on at a symlink, from that place by these names.
    Follows(Place, Names),
}

/// The inode that a path leads to from the root, where a symlink that comes last is followed, or isn't. No row changes.
///
/// # Errors
///
/// As of [`walk_to`].
pub fn walk<K: Keeper>(alloc: Global, k: &mut K, path: &Path, follow: bool) -> Result<u64, TxFault>
    ensures { Looks (K.seen k.old) (K.seen k.new) result (λ t. inode_by follow t path.now) }
{
    let place = walk_to(alloc, k, path, follow)?;
    Ok(place.inode)
}

/// The entry that a path names, whether it is there or not: the inode of its directory, and its name. No row changes.
///
/// # Errors
///
/// As of [`walk_to_entry`].
pub fn walk_entry<K: Keeper>(alloc: Global, k: &mut K, path: &Path) -> Result<(u64, Name), TxFault>
    ensures { Looks (K.seen k.old) (K.seen k.new) result (λ t. entry_pair t path.now) }
{
    let entry = walk_to_entry(alloc, k, path)?;
    Ok((entry.dir.inode, entry.name))
}

/// The node that a path leads to from the root, with its row, where a symlink that comes last is followed, or isn't. Rows and
/// the keeper's place are as before, whatever is returned.
///
/// # Errors
///
/// NotFound, NotADirectory, NameTooLong or SymlinkLoop, as the path is. Bad for a row that is malformed or names a node that
/// isn't there, and without bytes where the root or the trash itself is absent. Failed if the keeper failed. Memory.
pub fn walk_to<K: Keeper>(
    alloc: Global,
    k: &mut K,
    path: &Path,
    follow: bool,
) -> Result<Place, TxFault>
    ensures { Comes (K.seen k.old) (K.seen k.new) result (λ t. inode_by follow t path.now) }
{
    if path.len() > MAX_PATH {
        return Err(TxFault::Refused(Fault::NameTooLong));
    }
    let names = split(alloc, path.as_slice())?;
    walk_names(alloc, k, names, follow)
}

/// The entry that a path names, whether it is there or not: its directory, with its row, and its name. Rows and the keeper's
/// place are as before, whatever is returned.
///
/// # Errors
///
/// As of [`walk_to`] for the path of the directory, NotADirectory where that path leads elsewhere, NameTooLong for a last name
/// that is too long, and Invalid for a path without a last name, or whose last name is `.` or `..`.
pub fn walk_to_entry<K: Keeper>(
    alloc: Global,
    k: &mut K,
    path: &Path,
) -> Result<EntryPlace, TxFault>
    ensures { ComesToEntry (K.seen k.old) (K.seen k.new) result (λ t. entry_pair t path.now) }
{
    if path.len() > MAX_PATH {
        return Err(TxFault::Refused(Fault::NameTooLong));
    }
    let mut names = split(alloc, path.as_slice())?.into_vec();
    let Some(name) = names.pop() else {
        return Err(TxFault::Refused(Fault::Invalid));
    };
    if is_dots(name.as_slice()) {
        return Err(TxFault::Refused(Fault::Invalid));
    }
    let dir = walk_names(alloc, k, Sequence::from_vec(names), true)?;
    if dir.node.kind != 2 {
        return Err(TxFault::Refused(Fault::NotADirectory));
    }
    if name.len() > MAX_NAME {
        return Err(TxFault::Refused(Fault::NameTooLong));
    }
    Ok(EntryPlace { dir, name })
}

// A walk by names from the root.
fn walk_names<K: Keeper>(
    alloc: Global,
    k: &mut K,
    names: Names,
    follow: bool,
) -> Result<Place, TxFault>
    ensures { Comes (K.seen k.old) (K.seen k.new) result
        (λ t. walked MAX_SYMLINKS t follow ROOT names) }
{
    let mut place = top(alloc, k, ROOT)?;
    let mut names = names;
    let mut left = MAX_SYMLINKS;
    loop {
        match go_on(alloc, k, place, names.as_slice(), follow)? {
            Leg::Ends(end) => return Ok(end),
            Leg::Follows(from, rest) => {
                if left == 0 {
                    return Err(TxFault::Refused(Fault::SymlinkLoop));
                }
                left -= 1;
                place = from;
                names = rest;
            }
        }
    }
}

// A walk by names from a place up to the first symlink that it follows.
fn go_on<K: Keeper>(
    alloc: Global,
    k: &mut K,
    start: Place,
    names: &[Name],
    follow: bool,
) -> Result<Leg, TxFault>
    requires stands { HasNodeRow (K.seen k.old) start.inode start.node }
    requires allowed { IsTrue (is_node start.node) }
    ensures { Goes (K.seen k.old) (K.seen k.new) result
        (λ t. course t follow start.inode names.now) }
{
    let mut place = start;
    for index in 0..names.len() {
        let next = step(alloc, k, &place, &names[index])?;
        if is_followed(&next.node, follow, index + 1 == names.len()) {
            return by_target(alloc, k, place, &next.node.target, names, index + 1);
        }
        place = next;
    }
    Ok(Leg::Ends(place))
}

// Whether a walk goes on by a node's target: a symlink's, where it isn't the last or is followed there too.
fn is_followed(node: &Node, follow: bool, last: bool) -> bool
    ensures { result ≡ ((follow || not last) && node.now.kind == 3) }
{
    (follow || !last) && node.kind == 3
}

// A walk that goes on by the target of a symlink in a directory, and the names from an index on.
fn by_target<K: Keeper>(
    alloc: Global,
    k: &mut K,
    dir: Place,
    target: &Bytes,
    names: &[Name],
    behind: usize,
) -> Result<Leg, TxFault>
    requires stands { HasNodeRow (K.seen k.old) dir.inode dir.node }
    requires allowed { IsTrue (is_node dir.node) }
    requires within { behind ≤ length names.now }
    ensures { Goes (K.seen k.old) (K.seen k.new) result
        (λ t. Ok (onward dir.inode target.now (drop behind names.now))) }
{
    let mut all = split(alloc, target.as_slice())?;
    append(alloc, &mut all, names, behind)?;
    if begins_at_root(target.as_slice()) {
        let from = top(alloc, k, ROOT)?;
        Ok(Leg::Follows(from, all))
    } else {
        Ok(Leg::Follows(dir, all))
    }
}

// One name of a walk.
fn step<K: Keeper>(alloc: Global, k: &mut K, place: &Place, name: &Name) -> Result<Place, TxFault>
    requires stands { HasNodeRow (K.seen k.old) place.now.inode place.now.node }
    requires allowed { IsTrue (is_node place.now.node) }
    ensures { Comes (K.seen k.old) (K.seen k.new) result
        (λ t. stepped t place.now.inode name.now) }
{
    if place.node.kind != 2 {
        return Err(TxFault::Refused(Fault::NotADirectory));
    }
    if name.len() > MAX_NAME {
        return Err(TxFault::Refused(Fault::NameTooLong));
    }
    if is_here(name.as_slice()) {
        Ok(place.copied(alloc)?)
    } else if is_up(name.as_slice()) {
        parent(alloc, k, place)
    } else if is_trash_of(place.inode, name.as_slice()) {
        top(alloc, k, TRASH_ROOT)
    } else {
        child(alloc, k, place.inode, name)
    }
}

// Whether a name is `.`.
fn is_here(name: &[u8]) -> bool
    ensures { result ≡ is_dot name.now }
{
    name == b".".as_slice()
}

// Whether a name is `..`.
fn is_up(name: &[u8]) -> bool
    ensures { result ≡ is_dot_dot name.now }
{
    name == b"..".as_slice()
}

// Whether a name is one of them.
fn is_dots(name: &[u8]) -> bool
    ensures { result ≡ (is_dot name.now || is_dot_dot name.now) }
{
    is_here(name) || is_up(name)
}

/// Whether a name leads from a directory to the trash.
pub fn is_trash_of(dir: u64, name: &[u8]) -> bool
    ensures { result ≡ is_trash dir name.now }
{
    dir == ROOT && name == b".trash".as_slice()
}

// Whether a path or a target begins with a slash.
fn begins_at_root(path: &[u8]) -> bool
    ensures { result ≡ is_absolute path.now }
{
    match path {
        [] => false,
        [first, ..] => *first == b'/',
    }
}

impl Place {
    /// A copy of the place.
    pub fn copied(&self, alloc: Global) -> Result<Place, AllocError>
        ensures { IfOk result (λ copy. copy ≡ self.now) }
    {
        Ok(Place {
            inode: self.inode,
            node: copied_node(alloc, &self.node)?,
        })
    }
}

// A copy of a node.
fn copied_node(alloc: Global, node: &Node) -> Result<Node, AllocError>
    ensures { IfOk result (λ copy. copy ≡ node.now) }
{
    Ok(Node {
        kind: node.kind,
        mode: node.mode,
        uid: node.uid,
        gid: node.gid,
        nlink: node.nlink,
        mtime: node.mtime,
        ctime: node.ctime,
        length: node.length,
        parent: node.parent,
        target: copied(alloc, node.target.as_slice())?,
    })
}

/// Whether an inode is the root or the trash, which no entry of a whole volume names.
pub fn is_top(inode: u64) -> bool
    ensures { result ≡ is_top inode }
{
    inode == ROOT || inode == TRASH_ROOT
}

// The root or the trash, of which each volume has the node.
fn top<K: Keeper>(alloc: Global, k: &mut K, inode: u64) -> Result<Place, TxFault>
    requires { IsTrue (is_top inode) }
    ensures { Comes (K.seen k.old) (K.seen k.new) result (λ t. Ok inode) }
{
    match read_node(alloc, k, inode)? {
        Some(node) => Ok(Place { inode, node }),
        None => Err(bad(key_of_node(alloc, inode), Bytes::new(alloc))),
    }
}

/// The parent of a directory, with its row. Rows and the keeper's place are as before, whatever is returned.
///
/// # Errors
///
/// Bad for a malformed row of the parent, and for the directory's own where its parent isn't there. NotADirectory where the
/// parent is a file or a symlink, which it is over no whole rows. Failed if the keeper failed. Memory.
pub fn parent<K: Keeper>(alloc: Global, k: &mut K, dir: &Place) -> Result<Place, TxFault>
    requires stands { HasNodeRow (K.seen k.old) dir.now.inode dir.now.node }
    requires is_directory { dir.now.node.kind ≡ 2 }
    ensures comes { Comes (K.seen k.old) (K.seen k.new) result (λ t. Ok dir.now.node.parent) }
    ensures directory { IfOk result (λ above. above.node.kind ≡ 2) }
{
    let inode = dir.node.parent;
    match read_node(alloc, k, inode)? {
        None => Err(bad(key_of_node(alloc, dir.inode), spell_node(alloc, &dir.node)?)),
        Some(node) => {
            if node.kind != 2 {
                return Err(TxFault::Refused(Fault::NotADirectory));
            }
            Ok(Place { inode, node })
        }
    }
}

/// The node that an entry of a directory names, with its row. Rows and the keeper's place are as before, whatever is returned.
///
/// # Errors
///
/// NotFound where there is no such entry. Bad for a row that is malformed, or an entry whose node isn't there. Failed if the
/// keeper failed. Memory.
pub fn child<K: Keeper>(alloc: Global, k: &mut K, dir: u64, name: &Name) -> Result<Place, TxFault>
    ensures { Comes (K.seen k.old) (K.seen k.new) result
        (λ t. some_or (get t.entries (record { dir = dir; name = name.now })) NotFound) }
{
    match read_edge(alloc, k, dir, name)? {
        Some(edge) => named(alloc, k, dir, name, &edge),
        None => Err(TxFault::Refused(Fault::NotFound)),
    }
}

// The node that an entry names.
fn named<K: Keeper>(
    alloc: Global,
    k: &mut K,
    dir: u64,
    name: &Name,
    edge: &Edge,
) -> Result<Place, TxFault>
    requires { HasEdgeRow (K.seen k.old) dir name.now edge.now }
    ensures { Comes (K.seen k.old) (K.seen k.new) result (λ t. Ok edge.now.inode) }
{
    let inode = edge.inode;
    match read_node(alloc, k, inode)? {
        Some(node) => Ok(Place { inode, node }),
        None => Err(bad(key_of_edge(alloc, dir, name)?, spell_edge(alloc, edge)?)),
    }
}

// A row that is Bad.
fn bad(key: RowKey, bytes: Bytes) -> TxFault
    ensures { result ≡ OfRows (Bad key bytes) }
{
    TxFault::Rows(RowFault::Bad(key, bytes))
}

// The names of a path or a target.
fn split(alloc: Global, path: &[u8]) -> Result<Names, AllocError>
    ensures { IfOk result (λ names. names ≡ names_of path.now) }
{
    let mut names = Names::new(alloc);
    let mut name = Name::new(alloc);
    for byte in path {
        if *byte == b'/' {
            add(&mut names, name)?;
            name = Name::new(alloc);
        } else {
            name.push(*byte)?;
        }
    }
    add(&mut names, name)?;
    Ok(names)
}

// Adds a name, if it is one.
fn add(names: &mut Names, name: Name) -> Result<(), AllocError>
    ensures { OnOk result (names.new ≡ names.old ++ one_name name) }
{
    if name.is_empty() {
        return Ok(());
    }
    names.push(name)
}

// Adds copies of the names from an index on.
fn append(alloc: Global, all: &mut Names, names: &[Name], behind: usize) -> Result<(), AllocError>
    requires { behind ≤ length names.now }
    ensures { OnOk result (all.new ≡ all.old ++ drop behind names.now) }
{
    for index in behind..names.len() {
        all.push(copied(alloc, names[index].as_slice())?)?;
    }
    Ok(())
}
