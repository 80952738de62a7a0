ghost use Rattle.std.specs.Prelude.{◌≡◌, Ok, is_err};
ghost use Rattle.jv_outside.specs.Calls.{fails_next, after_call};
ghost use Rattle.jv_outside.specs.InMemory.{ticks_at};
ghost use Rattle.jv_outside.specs.Ticks.{ClockAnswers};

use crate::calls::{Calls, Fails};
use crate::clock::Clock;
use jv_model::{Down, Moment};
use std::marker::Model;

/// A clock that stands at a moment, and some of whose calls fail.
#[derive(Debug, Drop)]
pub struct MemClock {
    at: Moment,
    pub(crate) calls: Calls,
}

impl Model for MemClock {
    ghost use Rattle.jv_outside.specs.InMemory.{ClockValue};

    ghost Value = { ClockValue };

    ghost view = { λ c. record { at = c.at; calls = c.calls } };
}

impl MemClock {
    /// A clock that answers that moment at each call.
    pub fn new(at: Moment, fails: Fails) -> MemClock
        ensures at { result.at ≡ at }
        ensures calls { result.calls ≡ record { made = 0; fails = fails; faults = 0 } }
    {
        MemClock {
            at,
            calls: Calls::new(fails),
        }
    }
}

impl Clock for MemClock {
    ghost seen = { λ c. ticks_at c.at c.calls.faults };

    fn now(&mut self) -> Result<Moment, Down>
        ensures answers { ClockAnswers (ticks_at self.old.at self.old.calls.faults)
            (ticks_at self.new.at self.new.calls.faults) result }
        ensures fails { is_err result ≡ fails_next self.old.calls }
        ensures calls { self.new.calls ≡ after_call (is_err result) self.old.calls }
        ensures same { self.new.at ≡ self.old.at }
    {
        self.calls.begin()?;
        Ok(self.at)
    }
}

/// A clock that stands at a moment, and never fails.
#[derive(Debug, Drop)]
pub struct NeverClock {
    at: Moment,
}

impl Model for NeverClock {
    ghost use Rattle.std.specs.Prelude.{ℕ};

    ghost Value = { ℕ };

    ghost view = { λ c. c.at };
}

impl NeverClock {
    /// A clock that answers that moment at each call.
    pub fn new(at: Moment) -> NeverClock
        ensures { result ≡ at }
    {
        NeverClock { at }
    }
}

impl Clock for NeverClock {
    ghost seen = { λ at. ticks_at at 0 };

    fn now(&mut self) -> Result<Moment, Down>
        ensures answers { ClockAnswers (ticks_at self.old 0) (ticks_at self.new 0) result }
        ensures same { self.new ≡ self.old }
        ensures moment { result ≡ Ok self.old }
    {
        Ok(self.at)
    }
}
