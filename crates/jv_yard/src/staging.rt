//! The blocks that a client has staged.
ghost use Rattle.std.specs.Prelude.{◌≡◌, OnOk, OnErr, is_some};
ghost use Rattle.jv_model.specs.promise.FiniteMap.{empty_map, get, insert, key_count};

use jv_model::{Moment, Name};
use std::alloc::{AllocError, Global};
use std::collections::BTreeMap;
use std::marker::Model;

/// The moments at which a client staged its blocks, by the blocks' names.
#[derive(Debug, Drop)]
pub(crate) struct ClientBlocks {
    moments: BTreeMap<Name, Moment>,
}

impl Model for ClientBlocks {
    ghost use Rattle.jv_model.specs.promise.FiniteMap.{map_of};
    ghost use Rattle.jv_yard.specs.promise.Staging.{ClientStaging};
    ghost use Rattle.jv_yard.specs.Staging.{client_staging_code};

    ghost Value = { ClientStaging };

    ghost coded = { client_staging_code };

    ghost view = { λ b. map_of b.moments.entries };
}

impl ClientBlocks {
    /// No blocks. Takes no memory.
    pub(crate) fn new(alloc: Global) -> ClientBlocks
        ensures { result ≡ empty_map }
    {
        ClientBlocks {
            moments: BTreeMap::new(alloc),
        }
    }

    /// Whether the block of a name is staged.
    pub(crate) fn has(&self, name: &Name) -> bool
        ensures { result ≡ is_some (get self.now name.now) }
    {
        self.moments.contains_key(name)
    }

    /// The number of blocks.
    pub(crate) fn len(&self) -> usize
        ensures { result ≡ key_count self.now }
    {
        self.moments.len()
    }

    /// Notes that the block of a name is staged since a moment. On error nothing has changed.
    pub(crate) fn add(&mut self, name: Name, since: Moment) -> Result<(), AllocError>
        ensures ok { OnOk result (self.new ≡ insert self.old name since) }
        ensures err { OnErr result (self.new ≡ self.old) }
    {
        self.moments.insert(name, since)?;
        Ok(())
    }
}
