//! A shelf over files.
ghost use Rattle.std.specs.Prelude.{◌≡◌, None, Some};
ghost use Rattle.jv_outside.specs.Blocks.{staged_map};
ghost use Rattle.jv_files.specs.Known.{known};

use crate::faults::Faults;
use crate::folder::{Folder, OTHER_BLOCK, open_in_a_folder, opened_folder};
use jv_model::{Bytes, ClientId, Device, Down, Name, NameList, Sequence, Text, copied};
use jv_outside::{NeverShelf, Shelf, StagedList};
use std::alloc::{AllocError, Global};
use std::io;

/// A shelf that is in memory until it is opened at another place than `:memory:`. From then on a block is a file below a
/// folder of its client, `A` to `H`, in the folder at that place. A block there is never replaced by other bytes. The folder
/// is made with its first block, if it isn't there. Names whose parts begin with a dot, and names that aren't text, fail.
#[derive(Drop)]
pub struct FileShelf {
    rt: HostRuntime,
    memory: NeverShelf,
    // None until it is opened in a folder.
    folder: Option<Folder>,
    opened: Option<Text>,
    faults: Faults,
}

impl FileShelf {
    /// A shelf of these blocks, which isn't opened anywhere. Takes no memory. Of blocks with one client and name the first
    /// stands.
    pub fn new(rt: HostRuntime, blocks: StagedList) -> FileShelf
        ensures { ⟦<FileShelf as Shelf>⟧.seen result ≡ record {
          content = Some (staged_map blocks);
          opened = None;
          faults = 0;
        } }
    {
        FileShelf {
            rt,
            memory: NeverShelf::new(rt.alloc(), blocks),
            folder: None,
            opened: None,
            faults: Faults::new(rt, Device::Shelf),
        }
    }
}

impl Shelf for FileShelf {
    ghost seen = { λ s. record {
      content = known s.folder s.memory.content;
      opened = s.opened;
      faults = s.faults.counted;
    } };

    fn attach(&mut self, place: &Text) -> Result<(), Down> {
        let opened = copied(self.rt.alloc(), place.as_slice())?;
        let folder = opened_folder(self.rt, &mut self.faults, place, OTHER_BLOCK)?;
        if folder.is_none() && self.folder.is_some() {
            self.faults.count(place.as_slice(), open_in_a_folder());
            return Err(Down::Failed);
        }
        self.folder = folder;
        self.opened = Some(opened);
        Ok(())
    }

    fn put(&mut self, c: ClientId, name: &Name, bytes: &[u8]) -> Result<(), Down> {
        let Some(folder) = &mut self.folder else {
            return self.memory.put(c, name, bytes);
        };
        match put(self.rt.alloc(), folder, c, name, bytes) {
            Ok(()) => Ok(()),
            Err(error) => Err(self.faults.cause(name.as_slice(), error)),
        }
    }

    fn get(&mut self, c: ClientId, name: &Name) -> Result<Option<Bytes>, Down> {
        let Some(folder) = &self.folder else {
            return self.memory.get(c, name);
        };
        match get(self.rt.alloc(), folder, c, name) {
            Ok(bytes) => Ok(bytes),
            Err(error) => Err(self.faults.cause(name.as_slice(), error)),
        }
    }

    fn remove(&mut self, c: ClientId, name: &Name) -> Result<(), Down> {
        let Some(folder) = &self.folder else {
            return self.memory.remove(c, name);
        };
        match remove(self.rt.alloc(), folder, c, name) {
            Ok(()) => Ok(()),
            // Out of memory for the file's path too, since this call is never out of memory.
            Err(error) => {
                self.faults.count(name.as_slice(), error);
                Err(Down::Failed)
            }
        }
    }

    fn list(&mut self, c: ClientId, after: Option<&Name>, n: u32) -> Result<NameList, Down> {
        let Some(folder) = &mut self.folder else {
            return self.memory.list(c, after, n);
        };
        match names(self.rt.alloc(), folder, c, after, n) {
            Ok(names) => Ok(names),
            Err(error) => Err(self.faults.cause(folder.root().as_bytes(), error)),
        }
    }
}

fn put(
    alloc: Global,
    folder: &mut Folder,
    c: ClientId,
    name: &Name,
    bytes: &[u8],
) -> io::Result<()> {
    let path = path_of(alloc, c, name)?;
    folder.put(path.as_slice(), bytes, None)
}

fn get(alloc: Global, folder: &Folder, c: ClientId, name: &Name) -> io::Result<Option<Bytes>> {
    let path = path_of(alloc, c, name)?;
    folder.read(path.as_slice())
}

fn remove(alloc: Global, folder: &Folder, c: ClientId, name: &Name) -> io::Result<()> {
    let path = path_of(alloc, c, name)?;
    folder.remove(path.as_slice())
}

fn names(
    alloc: Global,
    folder: &mut Folder,
    c: ClientId,
    after: Option<&Name>,
    n: u32,
) -> io::Result<NameList> {
    let found = folder.list(folder_of(c), after, n)?;
    let mut names = Sequence::new(alloc);
    for file in found.into_vec() {
        names.push(file.name)?;
    }
    Ok(names)
}

/// The folder of a client's blocks.
fn folder_of(c: ClientId) -> &'static str {
    match c.number() {
        0 => "A",
        1 => "B",
        2 => "C",
        3 => "D",
        4 => "E",
        5 => "F",
        6 => "G",
        _ => "H",
    }
}

/// The name of a client's block below the shelf's folder.
fn path_of(alloc: Global, c: ClientId, name: &Name) -> Result<Bytes, AllocError> {
    let mut path = folder_of(c).as_bytes().to_vec(alloc)?;
    path.push(b'/')?;
    path.extend_from_slice(name.as_slice())?;
    Ok(Sequence::from_vec(path))
}
