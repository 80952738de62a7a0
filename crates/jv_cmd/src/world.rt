use jv_model::Journal;
use jv_outside::{Carrier, Clock, Depot, Keeper, Shelf, Sink, Source};

/// The devices of a command, and its journal.
#[derive(Drop)]
pub struct World<S, O, E, K, D, H, C> {
    /// Where the script comes from.
    pub source: S,
    /// Where answers are printed.
    pub out: O,
    /// Standard error.
    pub err: E,
    /// Where the rows of the volume's metadata are kept.
    pub keeper: K,
    /// The object store of the blocks of files.
    pub depot: D,
    /// The local disk of blocks that aren't in the object store yet.
    pub shelf: H,
    /// What answers the moments.
    pub clock: C,
    /// What sends blocks on their way to the depot.
    pub carrier: Box<dyn Carrier>,
    /// The entries of the run; emptied at its start.
    pub journal: Journal,
}

/// What comes back from a command.
#[derive(Drop)]
pub struct Finish<S, O, E, K, D, H, C> {
    /// The exit status.
    pub status: u8,
    /// What is left of the devices.
    pub world: World<S, O, E, K, D, H, C>,
}

/// What contracts see of a world.
pub trait Observed {
    ghost use Rattle.jv_cmd.specs.promise.Worlds.{WorldValue};

    ghost seen: { Self → WorldValue };
}

impl<S: Source, O: Sink, E: Sink, K: Keeper, D: Depot, H: Shelf, C: Clock> Observed
    for World<S, O, E, K, D, H, C> {
    ghost use Rattle.jv_cmd.specs.promise.Worlds.{block_devices, world_value};

    ghost seen = { λ w. world_value (S.seen w.source) (O.seen w.out) (E.seen w.err)
        (K.seen w.keeper) (block_devices (D.seen w.depot) (H.seen w.shelf)
        ((Carrier-box w.carrier).seen w.carrier.value))
        (C.seen w.clock) w.journal.acts };
}
