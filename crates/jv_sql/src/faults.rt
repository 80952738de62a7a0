//! The faults of a keeper, and what it says of them.
ghost use Rattle.std.specs.Prelude.{◌≡◌, IfErr, IfOk};
ghost use Rattle.jv_model.specs.declared.fault.Down.TheVariants.{Failed, Memory};
ghost use Rattle.jv_outside.specs.promise.Causes.{IsCaused};
ghost use Rattle.jv_sql.specs.Answered.{IsAnswered};

use crate::cause::{Cause, Refusal};
use jv_model::Down;

/// How many calls failed, a count that saturates at 2^64 - 1, and the cause that was printed last.
#[derive(Drop)]
pub(crate) struct Faults {
    rt: HostRuntime,
    pub(crate) count: u64,
    said: Option<Cause>,
}

impl Faults {
    /// None yet.
    pub(crate) fn new(rt: HostRuntime) -> Faults
        ensures { result.count ≡ 0 }
    {
        Faults {
            rt,
            count: 0,
            said: None,
        }
    }

    /// What a call of the database returned, as the keeper answers it.
    pub(crate) fn answer<T>(&mut self, outcome: Result<T, Refusal>) -> Result<T, Down>
        ensures { IsAnswered self.old.count self.new.count outcome result }
    {
        match outcome {
            Ok(value) => Ok(value),
            Err(Refusal::Memory) => Err(Down::Memory),
            Err(Refusal::Failed(cause)) => self.fail(cause),
        }
    }

    /// Counts a fault, says its cause unless that was the last one too, and returns its error.
    pub(crate) fn fail<T>(&mut self, cause: Cause) -> Result<T, Down>
        ensures failed { result ≡ Err Failed }
        ensures counted { IsCaused self.old.count self.new.count Failed }
    {
        self.count = self.count.saturating_add(1);
        if self.said != Some(cause) {
            // There is nowhere to say that standard error takes nothing.
            let _ = eprintln!(self.rt; "juicevol: keeper: {cause}");
            self.said = Some(cause);
        }
        Err(Down::Failed)
    }

    /// Says that the database wasn't closed, and returns the error.
    pub(crate) fn not_closed(&self, refusal: Refusal) -> Down {
        let _ = eprintln!(self.rt;
            "juicevol: keeper: not closed: {refusal}: the -wal beside it belongs to the database"
        );
        match refusal {
            Refusal::Memory => Down::Memory,
            Refusal::Failed(_) => Down::Failed,
        }
    }
}
