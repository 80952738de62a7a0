//! The failed calls of a device over files, and their causes on standard error.
ghost use Rattle.std.specs.Prelude.{◌≡◌};
ghost use Rattle.jv_outside.specs.promise.Causes.{IsCaused, Rose};

use jv_model::{Device, Down};
use std::io::{self, ErrorKind};

/// The failed calls of a device. The cause of each is printed on standard error where it differs from the last one's.
#[derive(Drop)]
pub(crate) struct Faults {
    rt: HostRuntime,
    device: Device,
    // Saturates at 2^64 - 1.
    counted: u64,
    // The text of the last cause.
    last: Option<String>,
}

impl Faults {
    /// No call failed yet.
    pub(crate) fn new(rt: HostRuntime, device: Device) -> Faults
        ensures { result.counted ≡ 0 }
    {
        Faults {
            rt,
            device,
            counted: 0,
            last: None,
        }
    }

    /// Why a call about a name or a place did nothing: it was out of memory, or the device failed, which is counted.
    pub(crate) fn cause(&mut self, subject: &[u8], error: io::Error) -> Down
        ensures { IsCaused self.old.counted self.new.counted result }
    {
        if error.kind() == ErrorKind::OutOfMemory {
            return Down::Memory;
        }
        self.count(subject, error);
        Down::Failed
    }

    /// Counts a fault of a call about a name or a place, and prints its cause.
    pub(crate) fn count(&mut self, subject: &[u8], error: io::Error)
        ensures { Rose self.old.counted self.new.counted }
    {
        self.print(subject, error);
        self.counted = self.counted.saturating_add(1);
    }

    /// Prints a cause, unless it is that of the last fault. The subject alone makes no other cause: a full disk is told once,
    /// and not for each block.
    fn print(&mut self, subject: &[u8], error: io::Error)
        ensures { self.new.counted ≡ self.old.counted }
    {
        let text = format!(in self.rt.alloc(); "{error}").ok();
        if text.is_some() && text == self.last {
            return;
        }
        let device = name_of(self.device);
        let subject = str::from_utf8(subject).unwrap_or("?");
        // There is nowhere left to say that standard error failed.
        let _ = eprintln!(self.rt; "juicevol: {device}: {subject}: {error}");
        self.last = text;
    }
}

/// A device's name, as users read it.
fn name_of(device: Device) -> &'static str {
    match device {
        Device::Keeper => "keeper",
        Device::Depot => "depot",
        Device::Shelf => "shelf",
        Device::Carrier => "carrier",
    }
}
