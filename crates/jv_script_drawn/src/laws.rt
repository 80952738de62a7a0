//! What holds of scripts and of totals. Each law is a function that does nothing.
ghost use Rattle.jv_script_drawn.specs.Laws.{ScriptsHaveLines, AccessesFit, TotalsAreSums};

/// Each script has [`crate::LINES`] lines.
#[tactic(auto, using(crate::proofs::ScriptLaws::script_length))]
pub fn scripts_have_lines()
    ensures { ScriptsHaveLines }
{}

/// Each access reads or writes 1 to [`crate::MAX_LENGTH`] bytes of one of the files, from a position below [`crate::POSITIONS`] on.
#[tactic(auto, using(crate::proofs::ScriptLaws::accesses_fit))]
pub fn accesses_fit()
    ensures { AccessesFit }
{}

/// The totals of answers are their number, how many of them are refusals and how many not, the bytes that they have, and the
/// sum of the values of these; each saturates at 2^64 - 1.
#[tactic(auto, using(crate::proofs::SummaryLaws::totals_are_sums))]
pub fn totals_are_sums()
    ensures { TotalsAreSums }
{}
