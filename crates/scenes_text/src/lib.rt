//! Scenes as values, and what text has them: what is run over devices in memory, and which of their calls fail.
#![tactic(auto)]

mod device;
mod reading;
mod scene;

pub use device::{DEVICES, WorldDevice};
pub use reading::{BadSceneLine, BadScenes, read_scenes};
pub use scene::{Altered, Fragment, Further, Repeat, Scene, SweepRun, Variant, Words, bytes_of};
