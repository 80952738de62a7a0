ghost use Rattle.std.specs.Prelude.{◌≡◌, ◌<◌, IsOk, IfErr};
ghost use Rattle.jv_model.specs.declared.fault.Down.TheVariants.{Memory};
ghost use Rattle.jv_outside.specs.Causes.{HasFailed};
ghost use Rattle.jv_outside.specs.promise.Causes.{IsCaused};

use jv_model::Down;

/// States that a call of a device didn't fail if the count of faults stayed the same, below [`u64::MAX`]. So a device whose
/// count is always 0 never fails. It does nothing.
pub fn still_count_is_ok<T>(before: u64, now: u64, answer: &Result<T, Down>)
    requires cause { IfErr answer.now (HasFailed before now) }
    requires still { now ≡ before }
    requires below { before < u64.MAX }
    ensures { IsOk answer.now }
{}

/// States that a call of a keeper didn't return [`Down::Failed`] if the count of faults stayed the same, below [`u64::MAX`].
/// So a keeper whose count is always 0 is only ever out of memory. It does nothing.
pub fn still_count_is_no_failure<T>(before: u64, now: u64, answer: &Result<T, Down>)
    requires cause { IfErr answer.now (IsCaused before now) }
    requires still { now ≡ before }
    requires below { before < u64.MAX }
    ensures { IfErr answer.now (λ e. e ≡ Memory) }
{}
