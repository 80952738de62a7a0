ghost use Rattle.std.specs.Prelude.{◌≡◌, ◌<◌, min, length, Some, Ok, IfOk, IsErr, is_err, IsTrue};
ghost use Rattle.std.specs.Option.{option_copied};
ghost use Rattle.jv_outside.specs.Calls.{fails_next, after_call};
ghost use Rattle.jv_outside.specs.promise.InMemory.{never_failing};
ghost use Rattle.jv_outside.specs.InMemory.{stream_of};
ghost use Rattle.jv_outside.specs.Stream.{Writes};

use crate::calls::{Calls, Fails};
use crate::sink::Sink;
use jv_model::{Bytes, Down};
use std::marker::Model;

/// A sink that keeps the bytes that it takes, and some of whose calls fail. A call that is out of memory fails.
#[derive(Debug, Drop)]
pub struct MemSink {
    taken: Vec<u8>,
    most: usize,
    pub(crate) calls: Calls,
}

impl Model for MemSink {
    ghost use Rattle.jv_outside.specs.InMemory.{SinkValue};

    ghost Value = { SinkValue };

    ghost use Rattle.std.specs.Prelude.{◌<◌};

    ghost view = { λ s. record { taken = s.taken.items; most = s.most; calls = s.calls } };

    ghost invariant = { λ s. 0 < s.most };
}

impl MemSink {
    /// A sink that has taken these bytes. A call takes the whole piece.
    pub fn new(taken: Bytes, fails: Fails) -> MemSink
        ensures taken { result.taken ≡ taken }
        ensures most { result.most ≡ usize.MAX }
        ensures calls { result.calls ≡ record { made = 0; fails = fails; faults = 0 } }
    {
        MemSink {
            taken: taken.into_vec(),
            most: usize::MAX,
            calls: Calls::new(fails),
        }
    }

    /// The same sink, whose calls take at most `most` bytes each.
    pub fn in_pieces_of(self, most: usize) -> MemSink
        requires { 0 < most }
        ensures { result ≡ record self { most = most } }
    {
        let MemSink { taken, calls, .. } = self;
        MemSink { taken, most, calls }
    }

    /// The bytes taken.
    pub fn taken(&self) -> &[u8]
        ensures { result.now ≡ self.now.taken }
    {
        self.taken.as_slice()
    }
}

impl Sink for MemSink {
    ghost seen = { λ s. stream_of s.taken s.calls };

    fn write(&mut self, piece: &[u8]) -> Result<usize, Down>
        ensures writes { Writes (stream_of self.old.taken self.old.calls)
            (stream_of self.new.taken self.new.calls) result piece.now }
        ensures count { IfOk result (λ n. n ≡ min (length piece.now) self.old.most) }
        ensures fails { IsTrue (fails_next self.old.calls) → IsErr result }
        ensures calls { self.new.calls ≡ after_call (is_err result) self.old.calls }
        ensures most { self.new.most ≡ self.old.most }
    {
        self.calls.begin()?;
        let count = piece.len().min(self.most);
        match self.taken.extend_from_slice(&piece[..count]) {
            Ok(()) => Ok(count),
            Err(_) => self.calls.fault(),
        }
    }
}

/// A sink that never fails. It keeps the bytes that it takes until it is out of memory, and from then on none.
#[derive(Debug, Drop)]
pub struct NeverSink {
    taken: Option<Vec<u8>>,
}

impl Model for NeverSink {
    ghost use Rattle.std.specs.Prelude.{ℕ, List, Option};
    ghost use Rattle.std.specs.Option.{option_map};

    ghost Value = { Option (List ℕ) };

    ghost view = { λ s. option_map (λ v. v.items) s.taken };
}

impl NeverSink {
    /// A sink that has taken these bytes.
    pub fn new(taken: Bytes) -> NeverSink
        ensures { result ≡ Some taken }
    {
        NeverSink {
            taken: Some(taken.into_vec()),
        }
    }

    /// The bytes taken, where it kept them all.
    pub fn taken(&self) -> Option<&[u8]>
        ensures { option_copied result ≡ self.now }
    {
        match &self.taken {
            Some(bytes) => Some(bytes.as_slice()),
            None => None,
        }
    }
}

impl Sink for NeverSink {
    ghost seen = { λ s. never_failing s };

    fn write(&mut self, piece: &[u8]) -> Result<usize, Down>
        ensures writes { Writes (never_failing self.old) (never_failing self.new) result piece.now }
        ensures whole { result ≡ Ok (length piece.now) }
    {
        if let Some(bytes) = &mut self.taken {
            if bytes.extend_from_slice(piece).is_err() {
                self.taken = None;
            }
        }
        Ok(piece.len())
    }
}
