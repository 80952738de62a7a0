ghost use Rattle.std.specs.Prelude.{◌≡◌, ℕ, ◌+◌, ◌-◌, ◌<◌, ◌≤◌, ◌==◌, nat_le, if◌then◌else◌, [], length, take, drop, slice_range, vec_capacity, vec_len, false, IfOk, OnOk};
ghost use Rattle.std.specs.List.{position};
ghost use Rattle.std.specs.Io.KnownBytes.{prepend_known};
ghost use Rattle.jv_outside.specs.Stream.{Reads};
ghost use Rattle.jv_cmd.specs.declared.reader.Next.TheVariants.{Text, TooLong, End};
ghost use Rattle.jv_cmd.specs.promise.Texts.{is_feed};
ghost use Rattle.jv_cmd.specs.Texts.{has_feed};

use jv_model::{Down, MAX_LINE};
use jv_outside::Source;
use memchr::memchr;
use std::alloc::{AllocError, Global};
use std::marker::Model;

/// The bytes that are held at first, enough for the lines of most scripts.
const FIRST_ROOM: usize = 65_536;

/// The bytes that are held at most: the longest line, and 64 KiB after it.
const ROOM: usize = MAX_LINE + FIRST_ROOM;

/// What comes next in a source.
#[derive(Clone, Copy, Debug, PartialEq, Eq)]
pub(crate) enum Next {
    /// A line of this number of bytes, which are held.
    Text(usize),
    /// A line that is longer than a line may be.
    TooLong,
    /// No line.
    End,
}

/// Bytes of a source that no line has taken yet. It has room for the longest line from the start, so that no line runs
/// out of memory, and touches that room only where a line needs it.
#[derive(Drop)]
pub(crate) struct LineReader {
    buffer: Vec<u8>,
    start: usize,
    end: usize,
}

impl Model for LineReader {
    ghost use Rattle.std.specs.Prelude.{ℕ, ◌-◌, ◌≤◌, List, take, drop, vec_len, vec_capacity};
    ghost use Rattle.jv_cmd.specs.declared.reader.TheConstants.{ROOM};

    ghost Value = { List ℕ };

    ghost view = { λ r. take (r.end - r.start) (drop r.start r.buffer.items) };

    ghost invariant = { λ r. (r.start ≤ r.end) × (r.end ≤ vec_len r.buffer)
        × (vec_len r.buffer ≤ ROOM)
        × (ROOM ≤ vec_capacity r.buffer) };
}

/// The place of the first line feed.
pub(crate) fn feed_in(bytes: &[u8]) -> Option<usize>
    ensures { result ≡ position is_feed bytes.now }
{
    memchr(b'\n', bytes)
}

impl LineReader {
    ghost use Rattle.jv_cmd.specs.Cutting.{Finds, Fills, CountsRead};

    /// A reader that holds nothing.
    pub(crate) fn new(alloc: Global) -> Result<LineReader, AllocError>
        ensures { IfOk result (λ reader. reader ≡ []) }
    {
        let mut buffer = Vec::with_capacity(alloc, ROOM)?;
        buffer.resize(FIRST_ROOM, 0)?;
        Ok(LineReader {
            buffer,
            start: 0,
            end: 0,
        })
    }

    /// The number of bytes that are held.
    fn len(&self) -> usize
        ensures length { result ≡ length self.now }
        ensures small { result ≤ ROOM }
    {
        self.end - self.start
    }

    /// The first bytes that are held.
    pub(crate) fn front(&self, count: usize) -> &[u8]
        requires { count ≤ length self.now }
        ensures { result.now ≡ take count self.now }
    {
        &self.buffer.as_slice()[self.start..self.start + count]
    }

    fn rest(&self, from: usize) -> &[u8]
        requires { from ≤ length self.now }
        ensures rest { result.now ≡ drop from self.now }
        ensures small { length self.now ≤ ROOM }
    {
        &self.buffer.as_slice()[self.start + from..self.end]
    }

    /// Lets go of a line of `count` bytes and of the line feed after it.
    pub(crate) fn pass(&mut self, count: usize)
        requires { count ≤ length self.old }
        ensures { self.new ≡ drop (count + 1) self.old }
    {
        self.start = self.end.min(self.start + count + 1);
    }

    /// Takes more bytes from the source, behind those that are held, and returns their number, which is 0 only at the
    /// end of the source.
    fn fill<S: Source>(&mut self, source: &mut S) -> Result<usize, Down>
        requires { length self.old ≤ MAX_LINE }
        ensures filled { IfOk result (Fills (S.seen source.old).content (S.seen source.new).content
            self.old self.new) }
        ensures small { OnOk result (length self.new ≤ ROOM) }
        ensures counts { CountsRead (S.seen source.old).faults (S.seen source.new).faults result }
    {
        let (start, end) = make_room(&mut self.buffer, self.start, self.end);
        self.start = start;
        self.end = end;
        let count = read_behind(source, &mut self.buffer, end)?;
        self.end += count;
        Ok(count)
    }

    /// The place of the first line feed among the bytes that are held, whose first `seen` have none.
    fn feed_after(&self, seen: usize) -> Option<usize>
        requires within { seen ≤ length self.now }
        requires none_seen { has_feed (take seen self.now) ≡ false }
        ensures { result ≡ position is_feed self.now }
    {
        Some(seen + feed_in(self.rest(seen))?)
    }

    /// Looks for the next line, and reads from the source as far as it has to.
    pub(crate) fn next<S: Source>(&mut self, source: &mut S) -> Result<Next, Down>
        ensures finds { Finds (prepend_known self.old (S.seen source.old).content)
            (S.seen source.new).content
            self.new result }
        ensures counts { CountsRead (S.seen source.old).faults (S.seen source.new).faults result }
    {
        let mut seen = 0;
        'pieces: loop {
            if let Some(count) = self.feed_after(seen) {
                return Ok(by_length(count));
            }
            seen = self.len();
            if seen > MAX_LINE {
                return Ok(Next::TooLong);
            }
            if self.fill(source)? == 0 {
                return Ok(last_line(seen));
            }
        }
    }
}

/// Makes room behind the bytes between two places if there is none, and returns their places: they are moved to the
/// front, or where they stand there already, the buffer takes all of its room.
fn make_room(buffer: &mut Vec<u8>, start: usize, end: usize) -> (usize, usize)
    requires order { start ≤ end }
    requires within { end ≤ vec_len buffer.old }
    requires size { vec_len buffer.old ≤ ROOM }
    requires capacity { ROOM ≤ vec_capacity buffer.old }
    ensures same { slice_range buffer.new.items result.0 result.1 ≡ slice_range buffer.old.items
        start end }
    ensures order { result.0 ≤ result.1 }
    ensures within { result.1 ≤ vec_len buffer.new }
    ensures room { end - start ≤ MAX_LINE → result.1 < vec_len buffer.new }
    ensures size { vec_len buffer.new ≤ ROOM }
    ensures capacity { ROOM ≤ vec_capacity buffer.new }
{
    if end < buffer.len() {
        return (start, end);
    }
    if start == 0 {
        buffer.resize(ROOM, 0).unwrap();
        return (0, end);
    }
    buffer.copy_within(start..end, 0);
    (0, end - start)
}

/// Reads bytes into a buffer from a place on.
fn read_behind<S: Source>(source: &mut S, buffer: &mut Vec<u8>, end: usize) -> Result<usize, Down>
    requires room { end < vec_len buffer.old }
    ensures size { vec_len buffer.new ≡ vec_len buffer.old }
    ensures capacity { vec_capacity buffer.new ≡ vec_capacity buffer.old }
    ensures front { take end buffer.new.items ≡ take end buffer.old.items }
    ensures reads { Reads (S.seen source.old) (S.seen source.new) result
        (drop end buffer.new.items) }
{
    source.read(&mut buffer.as_mut_slice()[end..])
}

/// A line that a line feed ends.
fn by_length(count: usize) -> Next
    ensures { result ≡ (if nat_le count MAX_LINE then Text count else TooLong) }
{
    if count <= MAX_LINE {
        Next::Text(count)
    } else {
        Next::TooLong
    }
}

/// What the last bytes of a source are.
fn last_line(count: usize) -> Next
    ensures { result ≡ (if count == 0 then End else Text count) }
{
    if count == 0 {
        Next::End
    } else {
        Next::Text(count)
    }
}
