ghost use Rattle.std.specs.Prelude.{◌≡◌, ◌-◌, is_err, IfErr};
ghost use Rattle.jv_model.specs.promise.Counts.{counted};
ghost use Rattle.jv_model.specs.declared.fault.Down.TheVariants.{Failed};
ghost use Rattle.jv_outside.specs.Causes.{HasFailed};

use jv_model::{Down, Sequence};
use std::marker::Model;

/// Numbers in a row.
pub type NumberList = Sequence<u64>;

/// Which calls of a device in memory fail, by their numbers from 1.
#[derive(Debug, Drop)]
pub enum Fails {
    /// The calls of these numbers.
    At(NumberList),
}

impl Fails {
    ghost use Rattle.jv_outside.specs.Calls.{is_to_fail};

    /// Whether the call of that number is to fail.
    fn includes(&self, number: u64) -> bool
        ensures { result ≡ is_to_fail self.now number }
    {
        match self {
            Fails::At(numbers) => numbers.as_slice().contains(&number),
        }
    }
}

/// The calls of a device in memory. Both counts saturate at 2^64 - 1.
#[derive(Debug, Drop)]
pub(crate) struct Calls {
    made: u64,
    fails: Fails,
    faults: u64,
}

impl Model for Calls {
    ghost use Rattle.jv_outside.specs.Calls.{CallsValue};

    ghost Value = { CallsValue };

    ghost view = { λ c. record { made = c.made; fails = c.fails; faults = c.faults } };
}

impl Calls {
    ghost use Rattle.jv_outside.specs.Calls.{fails_next, after_call, after_fault};

    /// No calls yet.
    pub(crate) fn new(fails: Fails) -> Calls
        ensures { result ≡ record { made = 0; fails = fails; faults = 0 } }
    {
        Calls {
            made: 0,
            fails,
            faults: 0,
        }
    }

    /// The number of calls so far.
    pub(crate) fn made(&self) -> u64
        ensures { result ≡ self.now.made }
    {
        self.made
    }

    /// The number of calls that failed.
    pub(crate) fn faults(&self) -> u64
        ensures { result ≡ self.now.faults }
    {
        self.faults
    }

    /// Counts a call, and fails where that call is to fail.
    pub(crate) fn begin(&mut self) -> Result<(), Down>
        ensures counted { self.new ≡ after_call (is_err result) self.old }
        ensures fails { is_err result ≡ fails_next self.old }
        ensures cause { IfErr result (HasFailed self.old.faults self.new.faults) }
    {
        self.made = self.made.saturating_add(1);
        if self.fails.includes(self.made) {
            return self.fault();
        }
        Ok(())
    }

    /// Counts a fault of a call that was begun.
    pub(crate) fn fault<T>(&mut self) -> Result<T, Down>
        ensures counted { self.new ≡ after_fault self.old }
        ensures failed { result ≡ Err Failed }
        ensures cause { IfErr result (HasFailed self.old.faults self.new.faults) }
    {
        fault(&mut self.faults)
    }
}

/// Counts a fault, and returns its error.
pub(crate) fn fault<T>(faults: &mut u64) -> Result<T, Down>
    ensures counted { faults.new ≡ counted faults.old }
    ensures failed { result ≡ Err Failed }
    ensures cause { IfErr result (HasFailed faults.old faults.new) }
{
    *faults = faults.saturating_add(1);
    Err(Down::Failed)
}
