//! The journal: what each step of a run did, in order.
ghost use Rattle.std.specs.Prelude.{◌≡◌, ◌+◌, ◌<◌, ◌≤◌, ◌^◌, [], ◌∷◌, ◌++◌, length, slice_get, OnOk, OnErr, IsTrue, ◌↔◌};
ghost use Rattle.std.specs.Option.{option_copied};

use crate::act::Act;
use crate::sequence::push_in_room;
use std::alloc::{AllocError, Global};
use std::marker::Model;

/// The entries of a run, from the first on, and how many more there is room for.
#[derive(Debug, Drop)]
pub struct Journal {
    acts: Vec<Act>,
}

impl Model for Journal {
    ghost use Rattle.std.specs.Prelude.{◌-◌, vec_len, vec_capacity};
    ghost use Rattle.jv_model.specs.promise.journal.JournalValue.{JournalValue};

    ghost Value = { JournalValue };

    ghost view = { λ j. record {
      acts = j.acts.items;
      spare = vec_capacity j.acts - vec_len j.acts;
    } };
}

impl Journal {
    /// An empty journal. Takes no memory.
    pub fn new(alloc: Global) -> Journal
        ensures { result.acts ≡ [] }
    {
        Journal {
            acts: Vec::new(alloc),
        }
    }

    /// Makes room for `n` more entries. On error nothing has changed.
    pub fn reserve(&mut self, n: usize) -> Result<(), AllocError>
        ensures same { self.new.acts ≡ self.old.acts }
        ensures room { OnOk result (n ≤ self.new.spare) }
        ensures kept { self.old.spare ≤ self.new.spare }
        ensures err { OnErr result (self.new ≡ self.old) }
    {
        self.acts.reserve(n)?;
        Ok(())
    }

    /// Adds an entry, for which there must be room. It always succeeds.
    pub fn push_reserved(&mut self, act: Act)
        requires { 1 ≤ self.old.spare }
        ensures added { self.new.acts ≡ self.old.acts ++ act ∷ [] }
        ensures room { self.old.spare ≤ self.new.spare + 1 }
    {
        // Made anew: a moved `Act` is not covered by the borrow checker's proofs today.
        let Act {
            line,
            at,
            client,
            kind,
        } = act;
        push_in_room(
            &mut self.acts,
            Act {
                line,
                at,
                client,
                kind,
            },
        );
    }

    /// The number of entries.
    pub fn len(&self) -> usize
        ensures length { result ≡ length self.now.acts }
        ensures small { result < 2 ^ 63 }
    {
        self.acts.len()
    }

    /// Whether there is no entry.
    pub fn is_empty(&self) -> bool
        ensures { IsTrue result ↔ (self.now.acts ≡ []) }
    {
        self.acts.is_empty()
    }

    /// The entry at index `i`, from 0, or `None` where there is none.
    pub fn get(&self, i: usize) -> Option<&Act>
        ensures { option_copied result ≡ slice_get self.now.acts i }
    {
        self.acts.get(i)
    }

    /// Takes every entry out, and keeps the room.
    pub fn clear(&mut self)
        ensures { self.new.acts ≡ [] }
    {
        self.acts.clear();
    }
}
