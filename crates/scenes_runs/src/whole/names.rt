//! How often entries name inodes.
use crate::whole::counts::{Counts, count, count_of};
use crate::whole::tables::{DIRECTORY, Entry, Tables};
use jv_model::Node;
use std::alloc::{AllocError, Global};
use std::collections::BTreeMap;

/// How often entries name inodes.
#[derive(Drop)]
pub struct Names {
    /// How many entries name an inode.
    of: Counts,
    /// How many entries of a directory name directories.
    directories: Counts,
}

/// Counts what the entries of a volume name.
pub fn count_names(alloc: Global, tables: &Tables) -> Result<Names, AllocError> {
    let mut names = Names {
        of: BTreeMap::new(alloc),
        directories: BTreeMap::new(alloc),
    };
    names.add_all(tables)?;
    Ok(names)
}

impl Names {
    fn add_all(&mut self, tables: &Tables) -> Result<(), AllocError> {
        for entry in tables.entries.as_slice() {
            self.add(tables, entry)?;
        }
        Ok(())
    }

    fn add(&mut self, tables: &Tables, entry: &Entry) -> Result<(), AllocError> {
        let inode = entry.edge.inode;
        count(&mut self.of, inode)?;
        if tables.is_directory(inode) {
            count(&mut self.directories, entry.dir)?;
        }
        Ok(())
    }

    /// How many entries name an inode.
    pub fn of(&self, inode: u64) -> u64 {
        count_of(&self.of, inode)
    }

    /// The link count of a node: of a directory 2 and one for each directory in it, else the number of its entries.
    pub fn links(&self, inode: u64, node: &Node) -> u64 {
        if node.kind == DIRECTORY {
            count_of(&self.directories, inode).saturating_add(2)
        } else {
            self.of(inode)
        }
    }
}
