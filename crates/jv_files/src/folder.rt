//! Files below a folder, each of which is there as a whole or not at all.
ghost use Rattle.std.specs.Prelude.{◌≡◌, ◌↔◌, ◌≤◌, length, IsNone, OnOk, IfOk, IfErr};
ghost use Rattle.jv_outside.specs.promise.Causes.{IsCaused};
ghost use Rattle.jv_outside.specs.promise.Holding.{memory_place};

use crate::faults::Faults;
use crate::names::{Place, if_there, joined, parent};
use crate::syncing::{make_folders, sync_folder, write_file};
use crate::walk::Walk;
use jv_model::{Bytes, Down, Moment, Name, SeenList, Sequence, Text, copied};
use std::fs;
use std::io::{self, ErrorKind, Read};

/// Files below a folder, each at its name. A file's bytes never change. The folder is made with its first file.
#[derive(Drop)]
pub(crate) struct Folder {
    rt: HostRuntime,
    root: String,
    // What is said of a file that would get other bytes.
    taken: &'static str,
    // What is left of the last listing, until a file is put.
    walk: Option<Walk>,
}

/// What is said of an object that would get other bytes.
pub(crate) const OTHER_OBJECT: &str = "holds other bytes: does another volume use this bucket?";

/// What is said of a staged block that would get other bytes.
pub(crate) const OTHER_BLOCK: &str = "holds other bytes: does another volume use this folder?";

/// The place of what is in memory, which no folder has.
const MEMORY: &[u8; 8] = b":memory:";

/// Opens the folder at a place, or None for what is in memory. The text is what is said of a file that would get other bytes.
pub(crate) fn opened_folder(
    rt: HostRuntime,
    faults: &mut Faults,
    place: &Text,
    taken: &'static str,
) -> Result<Option<Folder>, Down>
    ensures memory { IfOk result (λ folder. IsNone folder ↔ (place.now ≡ memory_place)) }
    ensures calm { OnOk result (faults.new.counted ≡ faults.old.counted) }
    ensures cause { IfErr result (IsCaused faults.old.counted faults.new.counted) }
{
    if place.as_slice() == MEMORY.as_slice() {
        return Ok(None);
    }
    match Folder::open(rt, place, taken) {
        Ok(folder) => Ok(Some(folder)),
        Err(error) => Err(faults.cause(place.as_slice(), error)),
    }
}

/// Why a device isn't in memory again: it is open in a folder.
pub(crate) fn open_in_a_folder() -> io::Error {
    io::Error::new(ErrorKind::InvalidInput, "open in a folder already")
}

impl Folder {
    /// Opens a folder. Fails if something else is at that place, or if nothing is, and no folder is around it.
    fn open(rt: HostRuntime, place: &Text, taken: &'static str) -> io::Result<Folder> {
        let Ok(place) = str::from_utf8(place.as_slice()) else {
            return Err(io::Error::new(ErrorKind::InvalidInput, "not a file's name"));
        };
        let found = match if_there(fs::metadata(&rt, place))? {
            Some(found) => found,
            None => fs::metadata(&rt, parent(place))?,
        };
        if !found.is_dir() {
            return Err(io::Error::from(ErrorKind::NotADirectory));
        }
        Ok(Folder {
            rt,
            root: String::from_str(rt.alloc(), place)?,
            taken,
            walk: None,
        })
    }

    /// Where the folder is, as it was opened.
    pub(crate) fn root(&self) -> &str {
        self.root.as_str()
    }

    /// The bytes of a file, or None if there is none of that name.
    pub(crate) fn read(&self, name: &[u8]) -> io::Result<Option<Bytes>> {
        let place = self.place(name)?;
        read_file(self.rt, place.file.as_str())
    }

    /// Writes a draft of a file, with its time if one is given, and returns its path. On error there is no draft.
    pub(crate) fn write_draft(
        &self,
        name: &[u8],
        bytes: &[u8],
        at: Option<Moment>,
    ) -> io::Result<Text> {
        let Place { file: _, draft } = self.place(name)?;
        if let Err(error) = self.write(draft.as_str(), bytes, at) {
            let _ = fs::remove_file(&self.rt, draft.as_str());
            return Err(error);
        }
        Ok(Sequence::from_vec(draft.into_bytes()))
    }

    /// Writes a draft, and first makes the folders around it where they aren't there.
    fn write(&self, draft: &str, bytes: &[u8], at: Option<Moment>) -> io::Result<()> {
        if if_there(fs::metadata(&self.rt, parent(draft)))?.is_none() {
            make_folders(self.rt, self.root.as_str(), draft)?;
        }
        write_file(self.rt, draft, bytes, at)
    }

    /// Puts a draft at its file's name. A file that is there with the same bytes takes the draft's time; one with other bytes
    /// is an error, and stays. On error the draft is gone.
    pub(crate) fn settle(&mut self, draft: &Text, name: &[u8]) -> io::Result<()> {
        self.walk = None;
        let place = self.place(name)?;
        let Ok(draft) = str::from_utf8(draft.as_slice()) else {
            return Err(io::Error::new(ErrorKind::InvalidInput, "not a file's name"));
        };
        let settled = replace(self.rt, draft, place.file.as_str(), self.taken);
        if settled.is_err() {
            let _ = fs::remove_file(&self.rt, draft);
        }
        settled
    }

    /// Writes a file, with its time if one is given. A file that is there with the same bytes takes that time; one with
    /// other bytes is an error, and stays.
    pub(crate) fn put(&mut self, name: &[u8], bytes: &[u8], at: Option<Moment>) -> io::Result<()> {
        let draft = self.write_draft(name, bytes, at)?;
        self.settle(&draft, name)
    }

    /// Removes a file and its draft, if they are there. After a loss of power they may be there again.
    pub(crate) fn remove(&self, name: &[u8]) -> io::Result<()> {
        let place = self.place(name)?;
        if_there(fs::remove_file(&self.rt, place.draft.as_str()))?;
        if_there(fs::remove_file(&self.rt, place.file.as_str()))?;
        Ok(())
    }

    /// The first `n` files below a folder in this one, or below this one for an empty name, after a name or from the first
    /// on, in the order of their names' bytes: without drafts, links and names that aren't text. A listing that goes on where
    /// the last one ended reads no folder again, and so doesn't see what others put there meanwhile.
    pub(crate) fn list(&mut self, inner: &str, after: Option<&Name>, n: u32) -> io::Result<SeenList>
        ensures { IfOk result (λ found. length found ≤ n) }
    {
        let alloc = self.rt.alloc();
        let root = joined(alloc, self.root.as_str(), inner)?;
        let mut walk = match self.walk.take() {
            Some(walk) if walk.goes_on(root.as_str(), after) => walk,
            _ => Walk::new(self.rt, root.as_str(), copy_of(self.rt, after)?)?,
        };
        let mut found = Sequence::new(alloc);
        for _ in 0..n {
            let Some(file) = walk.next()? else {
                break;
            };
            found.push(file)?;
        }
        let last = found.as_slice().last().map(|file| &file.name);
        walk.pause(copy_of(self.rt, last)?);
        self.walk = Some(walk);
        Ok(found)
    }

    fn place(&self, name: &[u8]) -> io::Result<Place> {
        Place::below(self.rt.alloc(), self.root.as_str(), name)
    }
}

/// A copy of a name, if there is one.
fn copy_of(rt: HostRuntime, name: Option<&Name>) -> io::Result<Option<Name>> {
    match name {
        Some(name) => Ok(Some(copied(rt.alloc(), name.as_slice())?)),
        None => Ok(None),
    }
}

/// The bytes of a file, or None if it isn't there. Fails at a folder, a link and whatever else is no file.
fn read_file(rt: HostRuntime, path: &str) -> io::Result<Option<Bytes>> {
    let Some(found) = if_there(fs::symlink_metadata(&rt, path))? else {
        return Ok(None);
    };
    if !found.is_file() {
        return Err(io::Error::new(ErrorKind::InvalidInput, "not a file"));
    }
    let Some(mut file) = if_there(fs::open(&rt, path))? else {
        return Ok(None);
    };
    let mut bytes = Vec::with_capacity(rt.alloc(), found.len() as usize)?;
    file.read_to_end(&mut bytes)?;
    Ok(Some(Sequence::from_vec(bytes)))
}

/// Renames a draft to a file, and waits until the disk has its name. On error the file is as before.
fn replace(rt: HostRuntime, draft: &str, file: &str, taken: &str) -> io::Result<()> {
    let there = read_file(rt, file)?;
    if there.is_some() && there != read_file(rt, draft)? {
        return Err(io::Error::new(ErrorKind::AlreadyExists, taken));
    }
    fs::rename(&rt, draft, file)?;
    let synced = sync_folder(rt, parent(file));
    if synced.is_err() && there.is_none() {
        let _ = fs::remove_file(&rt, file);
    }
    synced
}
