//! The devices of a world by their names.

/// A device of a world.
#[derive(Clone, Copy, PartialEq)]
pub enum WorldDevice {
    Source,
    Out,
    Err,
    Clock,
    Keeper,
    Depot,
    Carrier,
    Shelf,
}

/// All devices, in the order in which they are printed.
pub const DEVICES: [WorldDevice; 8] = [
    WorldDevice::Source,
    WorldDevice::Out,
    WorldDevice::Err,
    WorldDevice::Clock,
    WorldDevice::Keeper,
    WorldDevice::Depot,
    WorldDevice::Carrier,
    WorldDevice::Shelf,
];

impl WorldDevice {
    /// The name, as standard error has it after a fault.
    pub fn name(self) -> &'static str {
        match self {
            WorldDevice::Source => "source",
            WorldDevice::Out => "out",
            WorldDevice::Err => "err",
            WorldDevice::Clock => "clock",
            WorldDevice::Keeper => "keeper",
            WorldDevice::Depot => "depot",
            WorldDevice::Carrier => "carrier",
            WorldDevice::Shelf => "shelf",
        }
    }

    /// The device of a name, or `None` where no device has it.
    pub fn named(name: &str) -> Option<WorldDevice> {
        match name {
            "source" => Some(WorldDevice::Source),
            "out" => Some(WorldDevice::Out),
            "err" => Some(WorldDevice::Err),
            "clock" => Some(WorldDevice::Clock),
            "keeper" => Some(WorldDevice::Keeper),
            "depot" => Some(WorldDevice::Depot),
            "carrier" => Some(WorldDevice::Carrier),
            "shelf" => Some(WorldDevice::Shelf),
            _ => None,
        }
    }

    /// Its place in the order in which devices are printed.
    pub fn place(self) -> usize {
        match self {
            WorldDevice::Source => 0,
            WorldDevice::Out => 1,
            WorldDevice::Err => 2,
            WorldDevice::Clock => 3,
            WorldDevice::Keeper => 4,
            WorldDevice::Depot => 5,
            WorldDevice::Carrier => 6,
            WorldDevice::Shelf => 7,
        }
    }

    /// What a line says whose operation met this device when it failed, or `None` where no operation calls it.
    pub fn failure(self) -> Option<&'static str> {
        match self {
            WorldDevice::Keeper => Some("err EIO keeper"),
            WorldDevice::Depot => Some("err EIO depot"),
            WorldDevice::Carrier => Some("err EIO carrier"),
            WorldDevice::Shelf => Some("err EIO shelf"),
            WorldDevice::Source | WorldDevice::Out | WorldDevice::Err | WorldDevice::Clock => None,
        }
    }

    /// Whether it is one of the three for the blocks of files, of which a scene is printed only where it asks.
    pub fn is_for_blocks(self) -> bool {
        matches!(
            self,
            WorldDevice::Depot | WorldDevice::Carrier | WorldDevice::Shelf
        )
    }
}
