//! What a reader of a range may rely on. Each law is a function that does nothing.
ghost use Rattle.jv_client_reads.specs.Laws.{FetchesGoOn, FetchesShow};

/// A reading begins well, and stays so where blocks come and where another window is seen.
pub fn fetches_go_on()
    ensures { FetchesGoOn }
{}

/// What a reading needs is what its views don't have, and at its end it has read what they show.
pub fn fetches_show()
    ensures { FetchesShow }
{}
