use jv_model::row_bytes::RowBytes;
use jv_model::{Bytes, Down, Edge, Node, ROOT, Sequence, TRASH_ROOT, copied};
use jv_outside::{Batch, Keeper, NeverKeeper};
use jv_rows::{Draft, key_of_edge, key_of_node, spell_edge, spell_node, walk, walk_entry};
use std::alloc::{AllocError, Global};

fn bytes_of(alloc: Global, text: &str) -> Result<Bytes, AllocError> {
    copied(alloc, text.as_bytes())
}

/// A file, a directory in the root, or a symlink.
fn node(alloc: Global, kind: u8, target: &str) -> Result<Node, AllocError> {
    let target = bytes_of(alloc, target)?;
    let is_directory = kind == 2;
    Ok(Node {
        kind,
        mode: 0o755,
        uid: 0,
        gid: 0,
        nlink: 1,
        mtime: 7,
        ctime: 7,
        length: if is_directory {
            4_096
        } else {
            target.len() as u64
        },
        parent: if is_directory { ROOT } else { 0 },
        target,
    })
}

fn add_node(
    alloc: Global,
    batch: &mut Batch,
    inode: u64,
    kind: u8,
    target: &str,
) -> Result<(), AllocError> {
    let node = node(alloc, kind, target)?;
    let bytes = RowBytes::from_bytes(spell_node(alloc, &node)?)?;
    batch.put(key_of_node(alloc, inode), bytes)
}

fn add_entry(
    alloc: Global,
    batch: &mut Batch,
    dir: u64,
    name: &str,
    edge: Edge,
) -> Result<(), AllocError> {
    let name = bytes_of(alloc, name)?;
    let bytes = RowBytes::from_bytes(spell_edge(alloc, &edge)?)?;
    batch.put(key_of_edge(alloc, dir, &name)?, bytes)
}

fn add_nodes(alloc: Global, batch: &mut Batch) -> Result<(), AllocError> {
    let nodes = [
        (ROOT, 2, ""),
        (TRASH_ROOT, 2, ""),
        (2, 2, ""),
        (3, 1, ""),
        (4, 3, "../d/f"),
        (5, 3, "/d"),
    ];
    for (inode, kind, target) in &nodes {
        add_node(alloc, batch, *inode, *kind, *target)?;
    }
    Ok(())
}

fn add_entries(alloc: Global, batch: &mut Batch) -> Result<(), AllocError> {
    let entries = [
        (ROOT, "d", 2, 2),
        (2, "f", 1, 3),
        (2, "up", 3, 4),
        (ROOT, "top", 3, 5),
    ];
    for (dir, name, kind, inode) in &entries {
        let edge = Edge {
            kind: *kind,
            inode: *inode,
        };
        add_entry(alloc, batch, *dir, *name, edge)?;
    }
    Ok(())
}

/// The rows of `/d/f`, a file, `/d/up`, a symlink to `../d/f`, and `/top`, a symlink to `/d`.
fn rows(alloc: Global) -> Result<Batch, AllocError> {
    let mut batch = Batch::new(alloc);
    add_nodes(alloc, &mut batch)?;
    add_entries(alloc, &mut batch)?;
    Ok(batch)
}

fn small_tree(alloc: Global) -> Result<NeverKeeper, Down> {
    let rows = rows(alloc)?;
    let mut keeper = NeverKeeper::new(alloc, Sequence::new(alloc));
    keeper.commit(&rows)?;
    Ok(keeper)
}

/// Whether a walk reaches an inode. It does not where memory runs out.
fn comes_to(alloc: Global, keeper: &mut NeverKeeper, path: &str, follow: bool, inode: u64) -> bool {
    match bytes_of(alloc, path) {
        Ok(path) => walk(alloc, keeper, &path, follow) == Ok(inode),
        Err(_) => false,
    }
}

#[test]
fn a_walk_reaches_an_inode(rt: HostRuntime) -> Result<(), Down> {
    let mut keeper = small_tree(rt.alloc())?;
    for (path, follow, inode) in [
        ("", true, ROOT),
        ("/.trash", true, TRASH_ROOT),
        ("//d/./f/", true, 3),
        ("/d/../d/up", true, 3),
        ("/d/up", false, 4),
        ("/top/up", true, 3),
        ("/top", false, 5),
    ] {
        assert!(rt;
            comes_to(rt.alloc(), &mut keeper, path, follow, inode),
            "{path}"
        );
    }
    Ok(())
}

/// Whether a path names this entry of a directory.
fn names(alloc: Global, keeper: &mut NeverKeeper, path: &str, dir: u64, name: &[u8]) -> bool {
    let Ok(path) = bytes_of(alloc, path) else {
        return false;
    };
    match walk_entry(alloc, keeper, &path) {
        Ok((found, last)) => found == dir && last.as_slice() == name,
        Err(_) => false,
    }
}

#[test]
fn a_path_names_an_entry(rt: HostRuntime) -> Result<(), Down> {
    let mut keeper = small_tree(rt.alloc())?;
    assert!(rt; names(rt.alloc(), &mut keeper, "/top/new", 2, b"new"));
    Ok(())
}

fn without_a_file(alloc: Global) -> Result<Draft, AllocError> {
    let mut draft = Draft::new(alloc);
    draft.drop_node(3)?;
    Ok(draft)
}

/// Whether a draft reads that a node is there, or that it is not.
fn reads(draft: &Draft, keeper: &mut NeverKeeper, inode: u64, there: bool) -> bool {
    match draft.node(keeper, inode) {
        Ok(node) => node.is_some() == there,
        Err(_) => false,
    }
}

#[test]
fn a_draft_reads_its_own_changes(rt: HostRuntime) -> Result<(), Down> {
    let draft = without_a_file(rt.alloc())?;
    let mut keeper = small_tree(rt.alloc())?;
    assert!(rt; reads(&draft, &mut keeper, 3, false));
    assert!(rt; reads(&draft, &mut keeper, 4, true));
    Ok(())
}
