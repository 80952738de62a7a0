//! How the call for one line ended.
ghost use Rattle.std.specs.Prelude.{◌≡◌};
ghost use Rattle.jv_session.specs.InLine.{end_of};

use jv_model::{Bytes, RowKey};

/// The outcome of a line of a script.
#[derive(Debug, Drop, PartialEq, Eq)]
pub enum LineEnd {
    /// The line was run; this is what it prints, with its line feed.
    Said(Bytes),
    /// The line does nothing and prints nothing.
    Quiet,
    /// The clock failed before a step of the line. The steps before it are made, and the session stands where they
    /// lead.
    ClockFailed,
    /// The row at this key, which has these bytes, is malformed, or names one that isn't there, or is absent where each
    /// volume has one, and then without bytes. A step of the line stopped there; nothing has changed but that a read may
    /// have begun and looked into the cache. The steps before it are made.
    Broken(RowKey, Bytes),
    /// There was no memory for a step's entries or for the line's text. The session stands where the steps so far lead.
    Memory,
}

/// Why a call for a line stopped before a step.
#[derive(Clone, Copy, Debug, PartialEq, Eq)]
pub(crate) enum Stopped {
    /// The clock failed.
    Clock,
    /// There was no room for the step's entries.
    Memory,
}

impl Stopped {
    /// How the line ended.
    pub(crate) fn into_end(self) -> LineEnd
        ensures { result ≡ end_of self }
    {
        match self {
            Stopped::Clock => LineEnd::ClockFailed,
            Stopped::Memory => LineEnd::Memory,
        }
    }
}
