//! What a line of a script spells of an operation.
ghost use Rattle.std.specs.Prelude.{◌≡◌};
ghost use Rattle.jv_model.specs.promise.script.Spelled.{is_spelled};

use crate::limits::MAX_MODE;
use crate::op::Op;
use crate::texts::has_no_zero;

impl Op {
    /// Whether what the operation writes is spelled as a line can spell it: paths and targets without the byte 0,
    /// permission bits of four octal digits, and targets of at least one byte.
    pub fn is_spelled(&self) -> bool
        ensures { result ≡ is_spelled self.now }
    {
        match self {
            Op::Mkdir { path, mode } | Op::Create { path, mode } => {
                has_no_zero(path.as_slice()) && *mode <= MAX_MODE
            }
            Op::Chmod { mode, .. } => *mode <= MAX_MODE,
            Op::Symlink { target, path } => {
                has_no_zero(target.as_slice()) && !target.is_empty() && has_no_zero(path.as_slice())
            }
            Op::Link { to, .. } | Op::Rename { to, .. } => has_no_zero(to.as_slice()),
            _ => true,
        }
    }
}
