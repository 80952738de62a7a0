//! What the lines of a script use.
ghost use Rattle.std.specs.Prelude.{◌≡◌, IsSome};
ghost use Rattle.jv_cmd.specs.promise.Stages.{world_of};

use crate::world::{Observed, World};
use jv_model::{Journal, Limits};
use jv_outside::{Carrier, Clock, Depot, Keeper, Shelf, Sink, Source};
use jv_yard::{Alone, YardDoor};

/// The devices of a world but for standard error, with its depot and its shelf in a yard.
#[derive(Drop)]
pub(crate) struct RunStage<S, O, K, D, H, C> {
    pub(crate) limits: Limits,
    pub(crate) source: S,
    pub(crate) out: O,
    pub(crate) keeper: K,
    pub(crate) door: Alone<D, H>,
    pub(crate) clock: C,
    pub(crate) carrier: Box<dyn Carrier>,
    pub(crate) journal: Journal,
}

/// What contracts see of a stage.
pub trait ObservedStage {
    ghost use Rattle.jv_cmd.specs.promise.Stages.{StageValue};

    ghost seen: { Self → StageValue };
}

impl<S: Source, O: Sink, K: Keeper, D: Depot, H: Shelf, C: Clock> ObservedStage
    for RunStage<S, O, K, D, H, C> {
    ghost use Rattle.jv_client.specs.promise.Shared.{shared};
    ghost use Rattle.jv_cmd.specs.promise.Stages.{stage_value};
    ghost use Rattle.jv_cmd.specs.Stages.{yard_at};

    ghost seen = { λ w. stage_value w.limits (S.seen w.source) (O.seen w.out)
        (shared (K.seen w.keeper) (yard_at (⟦<Alone<D, H> as YardDoor<D, H>>⟧.given w.door))
        ((Carrier-box w.carrier).seen w.carrier.value)) (C.seen w.clock) w.journal.acts };
}

impl<S: Source, O: Sink, K: Keeper, D: Depot, H: Shelf, C: Clock> RunStage<S, O, K, D, H, C> {
    /// The world with this standard error, whose depot and shelf are out of the yard again.
    pub(crate) fn into_world<E: Sink>(self, err: E) -> World<S, O, E, K, D, H, C>
        requires { IsSome (⟦<Alone<D, H> as YardDoor<D, H>>⟧.given self.door) }
        ensures world { let stage = ⟦<RunStage<S, O, K, D, H, C> as ObservedStage>⟧.seen in
            let world = ⟦<World<S, O, E, K, D, H, C> as Observed>⟧.seen in
            world result ≡ world_of (E.seen err) (stage self) }
        ensures err { result.err ≡ err }
    {
        let (depot, shelf) = self.door.into_yard().into_parts();
        World {
            source: self.source,
            out: self.out,
            err,
            keeper: self.keeper,
            depot,
            shelf,
            clock: self.clock,
            carrier: self.carrier,
            journal: self.journal,
        }
    }
}
