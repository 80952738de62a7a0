//! Devices over files: a depot, a carrier and a shelf below a folder of the local disk. Each of them works in memory until
//! it is opened at another place than `:memory:`.
#![tactic(auto)]

mod faults;
mod file_carrier;
mod file_depot;
mod file_shelf;
mod folder;
mod names;
mod syncing;
mod walk;

pub use file_carrier::FileCarrier;
pub use file_depot::FileDepot;
pub use file_shelf::FileShelf;
