//! A carrier over files.
ghost use Rattle.std.specs.Prelude.{◌≡◌, None};

use crate::faults::Faults;
use crate::folder::{Folder, OTHER_OBJECT, opened_folder};
use jv_model::{Device, Down, Moment, Name, Text, copied};
use jv_outside::{Carrier, Load, NeverCarrier, Parcel};

/// A carrier that is in memory while it isn't opened anywhere or at `:memory:`. At another place it writes an object's bytes
/// to a draft beside the object's place below that folder, waits until the disk has them, and returns a parcel that names
/// the draft. A send that failed leaves no draft.
#[derive(Drop)]
pub struct FileCarrier {
    rt: HostRuntime,
    memory: NeverCarrier,
    // None while it isn't opened in a folder.
    folder: Option<Folder>,
    opened: Option<Text>,
    faults: Faults,
}

impl FileCarrier {
    /// A carrier, which isn't opened anywhere. Takes no memory.
    pub fn new(rt: HostRuntime) -> FileCarrier
        ensures { ⟦<FileCarrier as Carrier>⟧.seen result ≡ record { opened = None; faults = 0 } }
    {
        FileCarrier {
            rt,
            memory: NeverCarrier::new(rt.alloc()),
            folder: None,
            opened: None,
            faults: Faults::new(rt, Device::Carrier),
        }
    }
}

impl Carrier for FileCarrier {
    ghost seen = { λ c. record { opened = c.opened; faults = c.faults.counted } };

    fn attach(&mut self, place: &Text) -> Result<(), Down> {
        let opened = copied(self.rt.alloc(), place.as_slice())?;
        self.folder = opened_folder(self.rt, &mut self.faults, place, OTHER_OBJECT)?;
        self.opened = Some(opened);
        Ok(())
    }

    fn send(&mut self, name: &Name, bytes: &[u8], now: Moment) -> Result<Parcel, Down> {
        let Some(folder) = &self.folder else {
            return self.memory.send(name, bytes, now);
        };
        // Before the draft is written, so that being out of memory leaves none.
        let named = copied(self.rt.alloc(), name.as_slice())?;
        match folder.write_draft(name.as_slice(), bytes, Some(now)) {
            Ok(draft) => Ok(Parcel {
                name: named,
                at: now,
                load: Load::Placed(draft),
            }),
            Err(error) => Err(self.faults.cause(name.as_slice(), error)),
        }
    }
}
