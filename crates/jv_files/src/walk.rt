//! The files below a folder, in the order of their names.
use crate::names::{if_there, is_part, joined, written_at};
use jv_model::{Name, Seen, Sequence};
use std::alloc::{AllocError, Global};
use std::fs::{self, DirEntry};
use std::io::{self, ErrorKind};

/// What is left of a listing of the files below a folder, in the order of the names' bytes. Each folder is read when the
/// listing comes to it.
#[derive(Drop)]
pub(crate) struct Walk {
    rt: HostRuntime,
    root: String,
    /// The name after which the listing goes on, or None at its beginning.
    after: Option<Name>,
    // From the last to the first.
    left: Vec<Entry>,
}

/// A file or a folder by its name below the root, which has a slash at its end if it is a folder's. So the order of what is
/// in one folder is that of the names of all files below it.
#[derive(Debug, Drop, PartialEq, Eq, PartialOrd, Ord)]
struct Entry {
    name: String,
    is_folder: bool,
}

impl Walk {
    /// The files below a folder after a name, or from the first on.
    pub(crate) fn new(
        rt: HostRuntime,
        root: &str,
        after: Option<Name>,
    ) -> Result<Walk, AllocError> {
        let alloc = rt.alloc();
        let mut left = Vec::new(alloc);
        left.push(Entry {
            name: String::new(alloc),
            is_folder: true,
        })?;
        Ok(Walk {
            rt,
            root: String::from_str(alloc, root)?,
            after,
            left,
        })
    }

    /// Whether this is the listing below that folder that goes on after that name.
    pub(crate) fn goes_on(&self, root: &str, after: Option<&Name>) -> bool {
        self.root.as_str() == root && self.after.as_ref() == after
    }

    /// Has the listing go on after the last of these files.
    pub(crate) fn pause(&mut self, last: Option<Name>) {
        if last.is_some() {
            self.after = last;
        }
    }

    /// The next file, or None at the end.
    pub(crate) fn next(&mut self) -> io::Result<Option<Seen>> {
        for _ in 0..u64::MAX {
            let Some(entry) = self.left.pop() else {
                break;
            };
            if entry.is_folder {
                self.enter(entry.name.as_str())?;
            } else if let Some(file) = self.look(entry.name)? {
                return Ok(Some(file));
            }
        }
        Ok(None)
    }

    /// What a listing shows of a file, or None if it isn't there any more.
    fn look(&self, name: String) -> io::Result<Option<Seen>> {
        let path = joined(self.rt.alloc(), self.root.as_str(), name.as_str())?;
        let found = if_there(fs::symlink_metadata(&self.rt, path.as_str()))?;
        Ok(
            found.filter(|file| file.is_file()).map(|file| Seen {
                name: Sequence::from_vec(name.into_bytes()),
                size: file.len(),
                at: written_at(&file),
            }),
        )
    }

    /// Reads a folder, so that what is in it comes next. A folder that isn't there has nothing in it.
    fn enter(&mut self, folder: &str) -> io::Result<()> {
        let mut entries = self.entries(folder)?;
        entries.sort()?;
        entries.reverse();
        for entry in entries {
            self.left.push(entry)?;
        }
        Ok(())
    }

    /// The files and folders in a folder that the listing hasn't passed, in no order.
    fn entries(&self, folder: &str) -> io::Result<Vec<Entry>> {
        let alloc = self.rt.alloc();
        let mut entries = Vec::new(alloc);
        let path = joined(alloc, self.root.as_str(), folder)?;
        let Some(found) = if_there(fs::read_dir(&self.rt, path.as_str()))? else {
            return Ok(entries);
        };
        for found in found {
            if let Some(entry) = entry_of(alloc, folder, found)? {
                if self.is_left(&entry) {
                    entries.push(entry)?;
                }
            }
        }
        Ok(entries)
    }

    /// Whether a file comes after the name, or one below a folder may.
    fn is_left(&self, entry: &Entry) -> bool {
        match &self.after {
            Some(after) => {
                let name = entry.name.as_bytes();
                name > after.as_slice() || entry.is_folder && after.as_slice().starts_with(name)
            }
            None => true,
        }
    }
}

/// A file or a folder that was found in a folder. None for what a listing doesn't show: a draft, a link, what isn't there
/// any more, or a name that isn't text.
fn entry_of(alloc: Global, folder: &str, found: io::Result<DirEntry>) -> io::Result<Option<Entry>> {
    let found = match found {
        Ok(found) => found,
        Err(error) if is_no_text(&error) => return Ok(None),
        Err(error) => return Err(error),
    };
    if !is_part(found.file_name()) {
        return Ok(None);
    }
    let Some(kind) = if_there(found.file_type())? else {
        return Ok(None);
    };
    let slash = if kind.is_dir() { "/" } else { "" };
    let name = format!(in alloc; "{folder}{}{slash}", found.file_name())?;
    let entry = Entry {
        name,
        is_folder: kind.is_dir(),
    };
    Ok((kind.is_dir() || kind.is_file()).then_some(entry))
}

/// Whether a name in a folder isn't text.
fn is_no_text(error: &io::Error) -> bool {
    error.kind() == ErrorKind::InvalidFilename && error.raw_os_error().is_none()
}
