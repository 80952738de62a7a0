//! Carriers in memory. Their parcels hold a copy of the bytes.
ghost use Rattle.std.specs.Prelude.{◌≡◌, ◌↔◌, IsTrue, IfOk, IfErr, None};
ghost use Rattle.jv_model.specs.declared.fault.Down.TheVariants.{Failed, Memory};
ghost use Rattle.jv_outside.specs.declared.parcel.Load.TheVariants.{Held};
ghost use Rattle.jv_outside.specs.Calls.{fails_next, after_call};
ghost use Rattle.jv_outside.specs.promise.Carriage.{Moves};
ghost use Rattle.jv_outside.specs.Carriage.{Sends};
ghost use Rattle.jv_outside.specs.InMemory.{carriage_of, never_failing_carriage};

use crate::calls::{Calls, Fails};
use crate::carrier::Carrier;
use crate::parcel::{Load, Parcel};
use jv_model::{Down, Moment, Name, Text, copied};
use std::alloc::{AllocError, Global};
use std::marker::Model;

/// A carrier some of whose calls fail. Each of its two kinds of calls counts as one.
#[derive(Debug, Drop)]
pub struct MemCarrier {
    pub(crate) opened: Option<Text>,
    pub(crate) calls: Calls,
    alloc: Global,
}

impl Model for MemCarrier {
    ghost use Rattle.jv_outside.specs.InMemory.{CarrierValue, carrier_code};

    ghost Value = { CarrierValue };

    ghost coded = { carrier_code };

    ghost view = { λ c. record { opened = c.opened; calls = c.calls } };
}

impl MemCarrier {
    /// A carrier, which isn't opened anywhere. Takes no memory.
    pub fn new(alloc: Global, fails: Fails) -> MemCarrier
        ensures opened { result.opened ≡ None }
        ensures calls { result.calls ≡ record { made = 0; fails = fails; faults = 0 } }
    {
        MemCarrier {
            opened: None,
            calls: Calls::new(fails),
            alloc,
        }
    }
}

impl Carrier for MemCarrier {
    ghost seen = { λ c. carriage_of c };

    fn attach(&mut self, place: &Text) -> Result<(), Down>
        ensures moves { Moves (carriage_of self.old) (carriage_of self.new) result place.now }
        ensures fails { (result ≡ Err Failed) ↔ IsTrue (fails_next self.old.calls) }
        ensures calls { self.new.calls ≡ after_call (fails_next self.old.calls) self.old.calls }
    {
        self.calls.begin()?;
        self.opened = Some(copied(self.alloc, place.as_slice())?);
        Ok(())
    }

    fn send(&mut self, name: &Name, bytes: &[u8], now: Moment) -> Result<Parcel, Down>
        ensures sends { Sends (carriage_of self.old) (carriage_of self.new) result name.now
            bytes.now now }
        ensures held { IfOk result (λ parcel. parcel.load ≡ Held bytes.now) }
        ensures fails { (result ≡ Err Failed) ↔ IsTrue (fails_next self.old.calls) }
        ensures calls { self.new.calls ≡ after_call (fails_next self.old.calls) self.old.calls }
    {
        self.calls.begin()?;
        Ok(parcel(self.alloc, name, bytes, now)?)
    }
}

/// A carrier which never fails.
#[derive(Debug, Drop)]
pub struct NeverCarrier {
    opened: Option<Text>,
    alloc: Global,
}

impl Model for NeverCarrier {
    ghost use Rattle.std.specs.Prelude.{ℕ, List, Option};

    ghost Value = { Option (List ℕ) };

    ghost view = { λ c. c.opened };
}

impl NeverCarrier {
    /// A carrier, which isn't opened anywhere. Takes no memory.
    pub fn new(alloc: Global) -> NeverCarrier
        ensures { result ≡ None }
    {
        NeverCarrier {
            opened: None,
            alloc,
        }
    }
}

impl Carrier for NeverCarrier {
    ghost seen = { λ c. never_failing_carriage c };

    fn attach(&mut self, place: &Text) -> Result<(), Down>
        ensures moves { Moves (never_failing_carriage self.old) (never_failing_carriage self.new)
            result place.now }
        ensures memory { IfErr result (λ e. e ≡ Memory) }
    {
        self.opened = Some(copied(self.alloc, place.as_slice())?);
        Ok(())
    }

    fn send(&mut self, name: &Name, bytes: &[u8], now: Moment) -> Result<Parcel, Down>
        ensures sends { Sends (never_failing_carriage self.old) (never_failing_carriage self.new)
            result name.now bytes.now now }
        ensures held { IfOk result (λ parcel. parcel.load ≡ Held bytes.now) }
        ensures memory { IfErr result (λ e. e ≡ Memory) }
    {
        Ok(parcel(self.alloc, name, bytes, now)?)
    }
}

/// The parcel that holds a copy of the bytes.
fn parcel(alloc: Global, name: &Name, bytes: &[u8], at: Moment) -> Result<Parcel, AllocError>
    ensures { IfOk result (λ parcel. parcel ≡ record {
      name = name.now;
      at = at;
      load = Held bytes.now;
    }) }
{
    Ok(Parcel {
        name: copied(alloc, name.as_slice())?,
        at,
        load: Load::Held(copied(alloc, bytes)?),
    })
}
