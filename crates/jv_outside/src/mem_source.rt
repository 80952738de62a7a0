ghost use Rattle.std.specs.Prelude.{◌≡◌, ◌<◌, min, length, take, drop, Some, Ok, IfOk, is_err};
ghost use Rattle.jv_outside.specs.Calls.{fails_next, after_call};
ghost use Rattle.jv_outside.specs.promise.InMemory.{never_failing};
ghost use Rattle.jv_outside.specs.InMemory.{stream_of};
ghost use Rattle.jv_outside.specs.Stream.{Reads};

use crate::calls::{Calls, Fails};
use crate::source::Source;
use jv_model::{Bytes, Down};
use std::marker::Model;

/// Bytes, and how far they are read.
#[derive(Debug, Drop)]
struct Input {
    bytes: Bytes,
    at: usize,
}

impl Model for Input {
    ghost use Rattle.std.specs.Prelude.{ℕ, ◌≤◌, List, length, drop};

    ghost Value = { List ℕ };

    ghost view = { λ i. drop i.at i.bytes };

    ghost invariant = { λ i. i.at ≤ length i.bytes };
}

impl Input {
    fn new(bytes: Bytes) -> Input
        ensures { result ≡ bytes }
    {
        Input { bytes, at: 0 }
    }

    /// Moves bytes from the front into the front of `into`, as many as there are and it has room for, but
    /// at most `most`.
    fn read(&mut self, into: &mut [u8], most: usize) -> usize
        ensures count { result ≡ min (min (length into.new) (length self.old)) most }
        ensures bytes { take result into.new ≡ take result self.old }
        ensures left { self.new ≡ drop result self.old }
    {
        let count = copy_front(&self.bytes.as_slice()[self.at..], into, most);
        self.at += count;
        count
    }
}

/// Copies the front of `from` into the front of `into`, as many bytes as both have, but at most `most`.
fn copy_front(from: &[u8], into: &mut [u8], most: usize) -> usize
    ensures count { result ≡ min (min (length into.new) (length from.now)) most }
    ensures bytes { take result into.new ≡ take result from.now }
{
    let count = into.len().min(from.len()).min(most);
    into[..count].copy_from_slice(&from[..count]);
    count
}

/// A source of the bytes that it is given, some of whose calls fail.
#[derive(Debug, Drop)]
pub struct MemSource {
    input: Input,
    most: usize,
    pub(crate) calls: Calls,
}

impl Model for MemSource {
    ghost use Rattle.jv_outside.specs.InMemory.{SourceValue};

    ghost Value = { SourceValue };

    ghost use Rattle.std.specs.Prelude.{◌<◌};

    ghost view = { λ s. record { left = s.input; most = s.most; calls = s.calls } };

    ghost invariant = { λ s. 0 < s.most };
}

impl MemSource {
    /// A source of these bytes. A call reads as many as fit.
    pub fn new(left: Bytes, fails: Fails) -> MemSource
        ensures left { result.left ≡ left }
        ensures most { result.most ≡ usize.MAX }
        ensures calls { result.calls ≡ record { made = 0; fails = fails; faults = 0 } }
    {
        MemSource {
            input: Input::new(left),
            most: usize::MAX,
            calls: Calls::new(fails),
        }
    }

    /// The same source, whose calls read at most `most` bytes each.
    pub fn in_pieces_of(self, most: usize) -> MemSource
        requires { 0 < most }
        ensures { result ≡ record self { most = most } }
    {
        let MemSource { input, calls, .. } = self;
        MemSource { input, most, calls }
    }
}

impl Source for MemSource {
    ghost seen = { λ s. stream_of s.left s.calls };

    fn read(&mut self, into: &mut [u8]) -> Result<usize, Down>
        ensures reads { Reads (stream_of self.old.left self.old.calls)
            (stream_of self.new.left self.new.calls) result into.new }
        ensures count { IfOk result (λ n.
            n ≡ min (min (length into.new) (length self.old.left)) self.old.most) }
        ensures fails { is_err result ≡ fails_next self.old.calls }
        ensures calls { self.new.calls ≡ after_call (is_err result) self.old.calls }
        ensures most { self.new.most ≡ self.old.most }
    {
        self.calls.begin()?;
        Ok(self.input.read(into, self.most))
    }
}

/// A source of the bytes that it is given, which never fails.
#[derive(Debug, Drop)]
pub struct NeverSource {
    input: Input,
}

impl Model for NeverSource {
    ghost use Rattle.std.specs.Prelude.{ℕ, List};

    ghost Value = { List ℕ };

    ghost view = { λ s. s.input };
}

impl NeverSource {
    /// A source of these bytes.
    pub fn new(left: Bytes) -> NeverSource
        ensures { result ≡ left }
    {
        NeverSource {
            input: Input::new(left),
        }
    }
}

impl Source for NeverSource {
    ghost seen = { λ s. never_failing (Some s) };

    fn read(&mut self, into: &mut [u8]) -> Result<usize, Down>
        ensures reads { Reads (never_failing (Some self.old)) (never_failing (Some self.new))
            result into.new }
        ensures whole { result ≡ Ok (min (length into.new) (length self.old)) }
    {
        Ok(self.input.read(into, usize::MAX))
    }
}
