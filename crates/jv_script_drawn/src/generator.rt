//! A script that is drawn line by line.
ghost use Rattle.std.specs.Prelude.{◌≡◌, ◌+◌, ◌≤◌, None, slice_get, ◌↔◌, if◌then◌else◌, IfOk, OnErr};
ghost use Rattle.std.specs.Option.{is_some};
ghost use Rattle.jv_script_drawn.specs.promise.Script.{script};

use crate::accesses::{LINES, operation_at, state_at};
use jv_model::{ClientId, Line};
use std::alloc::{AllocError, Global};
use std::marker::Model;

/// The script of a seed, of which some lines were returned already. It holds one state and no line.
#[derive(Debug, Drop)]
pub struct Generator {
    seed: u64,
    given: u32,
    /// The state for the line that was returned last.
    current: u64,
}

impl Model for Generator {
    ghost use Rattle.std.specs.Prelude.{◌≡◌, ◌-◌, ◌≤◌};
    ghost use Rattle.jv_script_drawn.specs.Script.{Drawn};
    ghost use Rattle.jv_script_drawn.specs.promise.Script.{state};
    ghost use Rattle.jv_script_drawn.specs.declared.accesses.TheConstants.{FILES, LINES};

    ghost Value = { Drawn };

    ghost view = { λ g. record { seed = g.seed; given = g.given } };

    ghost invariant = { λ g. (g.given ≤ LINES) × (g.current ≡ state g.seed (g.given - FILES - 1)) };
}

impl Generator {
    /// The script of a seed, from its first line on. Takes no memory.
    #[tactic(auto, unfolding(crate::specs::promise::Script::state))]
    pub fn new(seed: u64) -> Generator
        ensures { result ≡ record { seed = seed; given = 0 } }
    {
        Generator {
            seed,
            given: 0,
            current: seed,
        }
    }

    /// Returns the next of the script's [`LINES`] lines, and None at the end. Takes the memory of that line only.
    /// The only error is out of memory; nothing has changed then, and the next call returns that line.
    #[tactic(auto, using(crate::proofs::ScriptLaws::no_line))]
    pub fn next(&mut self, alloc: Global) -> Result<Option<Line>, AllocError>
        ensures line { IfOk result (λ line. line
            ≡ slice_get (script self.old.seed) self.old.given) }
        ensures end { IfOk result (λ line. (line ≡ None) ↔ (self.old.given ≡ LINES)) }
        ensures given { IfOk result (λ line. self.new ≡ record self.old {
          given = self.old.given + (if is_some line then 1 else 0);
        }) }
        ensures within { self.new.given ≤ LINES }
        ensures err { OnErr result (self.new ≡ self.old) }
    {
        if self.given == LINES {
            return Ok(None);
        }
        let state = state_at(self.given, self.current);
        let op = operation_at(alloc, self.given, state)?;
        self.given += 1;
        self.current = state;
        Ok(Some(Line::Do(ClientId(0), op)))
    }
}
