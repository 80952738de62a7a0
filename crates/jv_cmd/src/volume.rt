ghost use Rattle.std.specs.Prelude.{IfErr};
ghost use Rattle.jv_outside.specs.promise.Holding.{IsAttached};
ghost use Rattle.jv_outside.specs.promise.Store.{held};
ghost use Rattle.jv_cmd.specs.promise.Faults.{UsesKeeper};
ghost use Rattle.jv_cmd.specs.Faults.{ended_by};
ghost use Rattle.jv_cmd.specs.promise.Opening.{CannotRead};
ghost use Rattle.jv_cmd.specs.Opening.{ReadsSetting, OpensVolume};

use crate::ended::Ended;
use jv_model::tables::ROWS_VERSION;
use jv_model::{Down, RowFault, Setting, Text};
use jv_outside::Keeper;
use jv_rows::read_setting;
use std::alloc::Global;

/// Opens the keeper at a place.
fn attach<K: Keeper>(keeper: &mut K, place: &Text) -> Result<(), Ended>
    ensures rows { IsAttached place.now (held (K.seen keeper.old)) (held (K.seen keeper.new)) }
    ensures keeper { UsesKeeper (ended_by result) 0 place.now (K.seen keeper.old)
        (K.seen keeper.new) }
    ensures refused { IfErr result (CannotRead (K.seen keeper.new).rows) }
{
    match keeper.attach(place) {
        Ok(()) => Ok(()),
        Err(Down::Failed) => Err(Ended::KeeperFailed),
        Err(Down::Memory) => Err(Ended::OutOfMemory),
    }
}

/// Opens the keeper at a place, and reads the setting of the volume there, of whatever version.
pub(crate) fn stored_setting<K: Keeper>(
    alloc: Global,
    keeper: &mut K,
    place: &Text,
) -> Result<Option<Setting>, Ended>
    ensures { ReadsSetting place.now (K.seen keeper.old) (K.seen keeper.new) result }
{
    attach(keeper, place)?;
    match read_setting(alloc, keeper) {
        Ok(found) => Ok(found),
        Err(RowFault::Bad(_, _)) => Err(Ended::MalformedSetting),
        Err(RowFault::Failed) => Err(Ended::KeeperFailed),
        Err(RowFault::Memory) => Err(Ended::OutOfMemory),
    }
}

/// Opens the keeper at a place, and reads the setting of the volume there.
pub(crate) fn open_volume<K: Keeper>(
    alloc: Global,
    keeper: &mut K,
    place: &Text,
) -> Result<Setting, Ended>
    ensures { OpensVolume place.now (K.seen keeper.old) (K.seen keeper.new) result }
{
    let Some(setting) = stored_setting(alloc, keeper, place)? else {
        return Err(Ended::NoVolume);
    };
    let version = setting.version;
    if version > ROWS_VERSION {
        return Err(Ended::NewerVersion(version));
    }
    Ok(setting)
}
