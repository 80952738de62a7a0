//! The bytes of a run, which grows at both of its ends.
ghost use Rattle.std.specs.Prelude.{◌≡◌, ℕ, ◌+◌, ◌<◌, ◌≤◌, ◌^◌, [], ◌++◌, length, take, drop, max, vec_len, vec_capacity, OnOk, OnErr, IfOk};
ghost use Rattle.jv_pending.specs.Runs.{joined_behind};

use jv_model::Bytes;
use std::alloc::{AllocError, Global};
use std::marker::Model;

/// Bytes in a row. What is added at either end takes a time that is constant for each byte, amortized.
#[derive(Debug, Drop)]
pub(crate) struct RunBytes {
    /// Room for bytes before the first one, then the bytes.
    all: Vec<u8>,
    /// The index of the first byte.
    first: usize,
}

impl Model for RunBytes {
    ghost use Rattle.std.specs.Prelude.{ℕ, List, drop, ◌≤◌, vec_len};

    ghost Value = { List ℕ };

    ghost view = { λ r. drop r.first r.all.items };

    ghost invariant = { λ r. r.first ≤ vec_len r.all };
}

impl RunBytes {
    /// No bytes. Takes no memory.
    pub(crate) fn new(alloc: Global) -> RunBytes
        ensures { result ≡ [] }
    {
        RunBytes {
            all: Vec::new(alloc),
            first: 0,
        }
    }

    pub(crate) fn as_slice(&self) -> &[u8]
        ensures { result.now ≡ self.now }
    {
        &self.all[self.first..]
    }

    pub(crate) fn len(&self) -> usize
        ensures length { result ≡ length self.now }
        ensures small { result < 2 ^ 63 }
    {
        self.all.len() - self.first
    }

    /// The bytes without the room before them. Takes no memory.
    pub(crate) fn into_bytes(self) -> Bytes
        ensures { result ≡ self }
    {
        let len = self.len();
        let mut all = self.all;
        all.rotate_left(self.first);
        all.truncate(len);
        Bytes::from_vec(all)
    }

    /// Sets the bytes from an index on, and adds `more` behind all. On error nothing has changed.
    pub(crate) fn write(&mut self, at: usize, bytes: &[u8], more: &[u8]) -> Result<(), AllocError>
        requires { at ≤ length self.old }
        ensures ok { OnOk result (self.new ≡ joined_behind at self.old bytes.now more.now) }
        ensures err { OnErr result (self.new ≡ self.old) }
    {
        extend(&mut self.all, self.first + at, bytes, more)
    }

    /// Sets the bytes from an index on, and returns how many bytes there are more. On error nothing has changed.
    pub(crate) fn grow(&mut self, at: usize, bytes: &[u8]) -> Result<usize, AllocError>
        requires { at ≤ length self.old }
        ensures ok { OnOk result (self.new ≡ joined_behind at self.old bytes.now []) }
        ensures more { IfOk result (λ more. length self.old + more ≡ length self.new) }
        ensures err { OnErr result (self.new ≡ self.old) }
    {
        let count = self.len();
        self.write(at, bytes, &[])?;
        Ok(self.len() - count)
    }

    /// Puts `head` and `bytes` in the place of the first `cut` bytes. On error nothing has changed.
    pub(crate) fn write_before(
        &mut self,
        alloc: Global,
        cut: usize,
        head: &[u8],
        bytes: &[u8],
    ) -> Result<(), AllocError>
        requires within { cut ≤ length self.old }
        requires small { length head.now + length bytes.now < 2 ^ 63 }
        ensures ok { OnOk result (self.new ≡ head.now ++ (bytes.now ++ drop cut self.old)) }
        ensures err { OnErr result (self.new ≡ self.old) }
    {
        let room = head.len() + bytes.len();
        let end = self.first + cut;
        if room <= end {
            self.first = put_before(&mut self.all, end, head, bytes);
            return Ok(());
        }
        // The room doubles, so that it is seldom made.
        let kept = &self.all[end..];
        let end = room + kept.len();
        let mut all = with_room(alloc, end, kept)?;
        self.first = put_before(&mut all, end, head, bytes);
        self.all = all;
        Ok(())
    }

    /// Adds zeros until there are `len` bytes. On error nothing has changed.
    pub(crate) fn lengthen(&mut self, len: usize) -> Result<(), AllocError>
        requires { len < 2 ^ 63 }
        ensures same { OnOk result (take (length self.old) self.new ≡ self.old) }
        ensures length { OnOk result (length self.new ≡ max len (length self.old)) }
        ensures err { OnErr result (self.new ≡ self.old) }
    {
        let end = self.first + len;
        if end <= self.all.len() {
            return Ok(());
        }
        self.all.resize(end, 0)
    }

    /// Sets the bytes from an index on.
    pub(crate) fn put(&mut self, at: usize, bytes: &[u8])
        requires { at + length bytes.now ≤ length self.old }
        ensures { self.new ≡ take at self.old
            ++ (bytes.now ++ drop (at + length bytes.now) self.old) }
    {
        put(&mut self.all, self.first + at, bytes);
    }

    /// Leaves the first `len` bytes.
    pub(crate) fn truncate(&mut self, len: usize)
        requires { len < 2 ^ 63 }
        ensures { self.new ≡ take len self.old }
    {
        self.all.truncate(self.first + len);
    }
}

/// Sets the bytes from an index on.
fn put(all: &mut Vec<u8>, at: usize, bytes: &[u8])
    requires { at + length bytes.now ≤ vec_len all.old }
    ensures items { all.new.items
        ≡ take at all.old.items ++ (bytes.now ++ drop (at + length bytes.now) all.old.items) }
    ensures len { vec_len all.new ≡ vec_len all.old }
{
    let end = at + bytes.len();
    all[at..end].copy_from_slice(bytes);
}

/// Sets the bytes from an index on, also behind the last one, in the room that is there.
fn put_in_room(all: &mut Vec<u8>, at: usize, bytes: &[u8])
    requires within { at ≤ vec_len all.old }
    requires room { at + length bytes.now ≤ vec_capacity all.old }
    ensures items { all.new.items
        ≡ take at all.old.items ++ (bytes.now ++ drop (at + length bytes.now) all.old.items) }
    ensures capacity { vec_capacity all.old ≤ vec_capacity all.new }
{
    let end = at + bytes.len();
    if end <= all.len() {
        all[at..end].copy_from_slice(bytes);
    } else {
        all.truncate(at);
        all.extend_from_slice(bytes).unwrap();
    }
}

/// Sets the bytes from an index on, and adds `more` behind all. On error nothing has changed.
fn extend(all: &mut Vec<u8>, at: usize, bytes: &[u8], more: &[u8]) -> Result<(), AllocError>
    requires { at ≤ vec_len all.old }
    ensures ok { OnOk result (all.new.items ≡ joined_behind at all.old.items bytes.now more.now) }
    ensures err { OnErr result (all.new.items ≡ all.old.items) }
{
    let count = all.len();
    let end = count.max(at + bytes.len());
    all.reserve(end - count + more.len())?;
    put_in_room(all, at, bytes);
    all.extend_from_slice(more).unwrap();
    Ok(())
}

/// Puts `head` and `bytes` before the index `end`. Returns where they begin.
fn put_before(all: &mut Vec<u8>, end: usize, head: &[u8], bytes: &[u8]) -> usize
    requires room { length head.now + length bytes.now ≤ end }
    requires within { end ≤ vec_len all.old }
    ensures first { result ≤ vec_len all.new }
    ensures items { drop result all.new.items ≡ head.now ++ (bytes.now ++ drop end all.old.items) }
{
    let middle = end - bytes.len();
    let first = middle - head.len();
    put(all, middle, bytes);
    put(all, first, head);
    first
}

/// A copy of bytes behind as many others as `room`.
fn with_room(alloc: Global, room: usize, bytes: &[u8]) -> Result<Vec<u8>, AllocError>
    ensures items { IfOk result (λ all. drop room all.items ≡ bytes.now) }
    ensures len { IfOk result (λ all. vec_len all ≡ room + length bytes.now) }
{
    let mut all = Vec::with_capacity(alloc, room.saturating_add(bytes.len()))?;
    all.resize(room, 0)?;
    all.extend_from_slice(bytes)?;
    Ok(all)
}
