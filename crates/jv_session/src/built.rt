//! Which lines a session runs today.
ghost use Rattle.std.specs.Prelude.{◌≡◌};
ghost use Rattle.jv_client.specs.promise.Built.{is_built_line, is_built_op};

use crate::schedule::Schedule;
use jv_model::{Limits, Line, MAX_DATA, Op};

impl Schedule {
    /// Whether the line is one that a session runs today.
    pub fn is_built(&self, line: &Line) -> bool
        ensures { result ≡ is_built_line self.now.limits line.now }
    {
        match line {
            Line::Empty | Line::Step(_) | Line::Run(_) | Line::Crash(_) | Line::Tick(_) => true,
            Line::Do(_, op) => is_built_op(&self.limits, op),
            Line::Begin(_, op) => is_built_op(&self.limits, op),
            Line::Drain(_) => false,
        }
    }
}

/// Whether an operation is built.
fn is_built_op(limits: &Limits, op: &Op) -> bool
    ensures { result ≡ is_built_op limits.now op.now }
{
    match op {
        Op::Mount { writeback } => !(*writeback || limits.writeback),
        Op::Compact { .. } | Op::Clean | Op::Gc { .. } | Op::Upload => false,
        Op::Read { len, .. } => u64::from(*len) <= MAX_DATA,
        Op::Write { bytes, .. } => bytes.len() as u64 <= MAX_DATA,
        _ => op.is_spelled(),
    }
}
