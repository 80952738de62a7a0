ghost use Rattle.std.specs.Prelude.{◌≡◌, IfOk, IsTrue};
ghost use Rattle.jv_model.specs.promise.rows.RowGrammar.{is_setting};
ghost use Rattle.jv_outside.specs.promise.Causes.{RoseIf};
ghost use Rattle.jv_cmd.specs.promise.Faults.{CountsFaults, UsesKeeper, clock_failed, in_world};
ghost use Rattle.jv_cmd.specs.Faults.{ended_by};
ghost use Rattle.jv_cmd.specs.promise.Formatting.{formatted_text};
ghost use Rattle.jv_cmd.specs.Formatting.{FormatsAt, PutsVolume};

use crate::ended::Ended;
use crate::volume::stored_setting;
use crate::world::{Observed, World};
use jv_model::{Bytes, Down, Sequence, Setting, Text};
use jv_outside::{Clock, Depot, Keeper, Shelf, Sink, Source, write_whole};
use jv_rows::fresh_rows;
use std::alloc::{AllocError, Global};

/// What is printed of a volume that was formatted.
fn formatted_text(alloc: Global, setting: &Setting) -> Result<Bytes, AllocError>
    ensures { IfOk result (λ text. text ≡ formatted_text setting.now) }
{
    let mut text = b"formatted ".to_vec(alloc)?;
    text.extend_from_slice(setting.name.as_slice())?;
    text.push(b'\n')?;
    Ok(Sequence::from_vec(text))
}

/// Puts the rows of a fresh volume where there is none, in one commit.
fn put_volume<K: Keeper, C: Clock>(
    alloc: Global,
    place: &Text,
    setting: &Setting,
    keeper: &mut K,
    clock: &mut C,
) -> Result<(), Ended>
    requires { IsTrue (is_setting setting.now) }
    ensures puts { PutsVolume place.now setting.now (K.seen keeper.old) (K.seen keeper.new)
        (C.seen clock.old) (C.seen clock.new) result }
    ensures keeper { UsesKeeper (ended_by result) 0 place.now (K.seen keeper.old)
        (K.seen keeper.new) }
    ensures clock { RoseIf (clock_failed (ended_by result)) (C.seen clock.old).faults
        (C.seen clock.new).faults }
{
    if stored_setting(alloc, keeper, place)?.is_some() {
        return Err(Ended::VolumeExists);
    }
    let Ok(at) = clock.now() else {
        return Err(Ended::ClockFailed);
    };
    let Ok(batch) = fresh_rows(alloc, setting, at) else {
        return Err(Ended::OutOfMemory);
    };
    match keeper.commit(&batch) {
        Ok(()) => Ok(()),
        Err(Down::Failed) => Err(Ended::KeeperFailed),
        Err(Down::Memory) => Err(Ended::OutOfMemory),
    }
}

/// Formats a volume where there is none, and says so.
pub(crate) fn run_format<S: Source, O: Sink, E: Sink, K: Keeper, D: Depot, H: Shelf, C: Clock>(
    alloc: Global,
    place: &Text,
    setting: &Setting,
    world: &mut World<S, O, E, K, D, H, C>,
) -> Ended
    requires { IsTrue (is_setting setting.now) }
    ensures formats { let seen = ⟦<World<S, O, E, K, D, H, C> as Observed>⟧.seen in
        FormatsAt place.now setting.now (seen world.old) (seen world.new) result }
    ensures faults { let seen = ⟦<World<S, O, E, K, D, H, C> as Observed>⟧.seen in
        CountsFaults result (in_world (seen world.old)) (in_world (seen world.new)) }
    ensures keeper { UsesKeeper result 0 place.now (K.seen world.old.keeper)
        (K.seen world.new.keeper) }
    ensures err { world.new.err ≡ world.old.err }
{
    let Ok(text) = formatted_text(alloc, setting) else {
        return Ended::OutOfMemory;
    };
    if let Err(ended) = put_volume(alloc, place, setting, &mut world.keeper, &mut world.clock) {
        return ended;
    }
    match write_whole(&mut world.out, text.as_slice()) {
        Ok(()) => Ended::Succeeded,
        Err(_) => Ended::OutFailed,
    }
}
