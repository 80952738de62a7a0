//! A depot over files.
ghost use Rattle.std.specs.Prelude.{◌≡◌, None, Some};
ghost use Rattle.jv_outside.specs.Objects.{object_map};
ghost use Rattle.jv_files.specs.Known.{known};

use crate::faults::Faults;
use crate::folder::{Folder, OTHER_OBJECT, open_in_a_folder, opened_folder};
use jv_model::{Bytes, Device, Down, Moment, Name, SeenList, Text, copied};
use jv_outside::{Depot, Load, NeverDepot, ObjectList, Parcel};
use std::io::{self, ErrorKind};

/// A depot that is in memory until it is opened at another place than `:memory:`. From then on an object is a file below
/// the folder at that place, and its moment is the time at which the file was written last. An object there is never
/// replaced by other bytes. The folder is made with its first object, if it isn't there. Names whose parts begin with a
/// dot, and names that aren't text, fail.
#[derive(Drop)]
pub struct FileDepot {
    rt: HostRuntime,
    memory: NeverDepot,
    // None until it is opened in a folder.
    folder: Option<Folder>,
    opened: Option<Text>,
    faults: Faults,
}

impl FileDepot {
    /// A depot of these objects, which isn't opened anywhere. Takes no memory. Of objects with one name the first stands.
    pub fn new(rt: HostRuntime, objects: ObjectList) -> FileDepot
        ensures { ⟦<FileDepot as Depot>⟧.seen result ≡ record {
          content = Some (object_map objects);
          opened = None;
          faults = 0;
        } }
    {
        FileDepot {
            rt,
            memory: NeverDepot::new(rt.alloc(), objects),
            folder: None,
            opened: None,
            faults: Faults::new(rt, Device::Depot),
        }
    }
}

impl Depot for FileDepot {
    ghost seen = { λ d. record {
      content = known d.folder d.memory.content;
      opened = d.opened;
      faults = d.faults.counted;
    } };

    fn attach(&mut self, place: &Text) -> Result<(), Down> {
        let opened = copied(self.rt.alloc(), place.as_slice())?;
        let folder = opened_folder(self.rt, &mut self.faults, place, OTHER_OBJECT)?;
        if folder.is_none() && self.folder.is_some() {
            self.faults.count(place.as_slice(), open_in_a_folder());
            return Err(Down::Failed);
        }
        self.folder = folder;
        self.opened = Some(opened);
        Ok(())
    }

    fn get(&mut self, name: &Name) -> Result<Option<Bytes>, Down> {
        let Some(folder) = &self.folder else {
            return self.memory.get(name);
        };
        match folder.read(name.as_slice()) {
            Ok(bytes) => Ok(bytes),
            Err(error) => Err(self.faults.cause(name.as_slice(), error)),
        }
    }

    fn publish(&mut self, parcel: Parcel) -> Result<(), (Parcel, Down)> {
        let Some(folder) = &mut self.folder else {
            if let Load::Placed(_) = &parcel.load {
                self.faults.count(parcel.name.as_slice(), not_in_memory());
                return Err((parcel, Down::Failed));
            }
            return self.memory.publish(parcel);
        };
        match put(folder, &parcel) {
            Ok(()) => Ok(()),
            Err(error) => {
                let down = self.faults.cause(parcel.name.as_slice(), error);
                Err((parcel, down))
            }
        }
    }

    fn remove(&mut self, name: &Name) -> Result<(), Down> {
        let Some(folder) = &self.folder else {
            return self.memory.remove(name);
        };
        match folder.remove(name.as_slice()) {
            Ok(()) => Ok(()),
            Err(error) => Err(self.faults.cause(name.as_slice(), error)),
        }
    }

    fn list(&mut self, after: Option<&Name>, n: u32, now: Moment) -> Result<SeenList, Down> {
        let Some(folder) = &mut self.folder else {
            return self.memory.list(after, n, now);
        };
        match folder.list("", after, n) {
            Ok(found) => Ok(found),
            Err(error) => Err(self.faults.cause(folder.root().as_bytes(), error)),
        }
    }
}

/// Why a depot in memory publishes no draft.
fn not_in_memory() -> io::Error {
    io::Error::new(
        ErrorKind::InvalidInput,
        "a draft in a folder isn't in memory",
    )
}

/// Puts a parcel's bytes at its name.
fn put(folder: &mut Folder, parcel: &Parcel) -> io::Result<()> {
    let name = parcel.name.as_slice();
    match &parcel.load {
        Load::Held(bytes) => folder.put(name, bytes.as_slice(), Some(parcel.at)),
        Load::Placed(draft) => folder.settle(draft, name),
    }
}
