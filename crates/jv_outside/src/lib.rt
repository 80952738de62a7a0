//! The devices that a run reads, writes and asks: their traits, forms in memory, and adapters over std.
#![tactic(auto)]

mod batch;
mod block_store;
mod calls;
mod carrier;
mod clock;
mod counts;
mod depot;
mod keeper;
mod law;
mod lazy_tree;
mod mem_carrier;
mod mem_clock;
mod mem_depot;
mod mem_keeper;
mod mem_shelf;
mod mem_sink;
mod mem_source;
mod object;
mod object_store;
mod parcel;
mod shelf;
mod sink;
mod source;
mod standard;
mod store;

pub use batch::{Batch, Change};
pub use calls::{Fails, NumberList};
pub use carrier::Carrier;
pub use clock::Clock;
pub use depot::Depot;
pub use keeper::Keeper;
pub use law::{still_count_is_no_failure, still_count_is_ok};
pub use mem_carrier::{MemCarrier, NeverCarrier};
pub use mem_clock::{MemClock, NeverClock};
pub use mem_depot::{MemDepot, NeverDepot};
pub use mem_keeper::{MemKeeper, NeverKeeper};
pub use mem_shelf::{MemShelf, NeverShelf};
pub use mem_sink::{MemSink, NeverSink};
pub use mem_source::{MemSource, NeverSource};
pub use object::{Object, ObjectList, Staged, StagedList};
pub use parcel::{Load, Parcel};
pub use shelf::Shelf;
pub use sink::{Sink, write_whole};
pub use source::Source;
pub use standard::{Reading, Ticking, Writing, words};
