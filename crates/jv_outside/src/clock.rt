ghost use Rattle.jv_outside.specs.promise.Ticks.{Ticks};
ghost use Rattle.jv_outside.specs.Ticks.{ClockAnswers};

use jv_model::{Down, Moment};

/// A clock of whole seconds since 1970, up to [`jv_model::LAST_MOMENT`] (POSIX.1-2017, 4.16 "Seconds Since the Epoch").
pub trait Clock {
    // The answers to come, where they are known, and how many calls failed: a count of 64 bits at least, which
    // saturates.
    ghost seen: { Self → Ticks };

    /// The moment now. Returns [`Down::Failed`] if the clock failed, and then the answers to come are the same. It is
    /// never out of memory.
    fn now(&mut self) -> Result<Moment, Down>
        ensures { ClockAnswers (seen self.old) (seen self.new) result };
}
