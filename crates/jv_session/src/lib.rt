//! A session: lines of a script in, printed answers out.
#![tactic(auto)]

mod built;
mod line_end;
mod lines;
mod schedule;
mod texts;

pub use line_end::LineEnd;
pub use schedule::Schedule;
