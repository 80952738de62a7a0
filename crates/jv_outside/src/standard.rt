//! Std's readers, writers and clocks as devices. Each error of std is a fault, an interrupted call too, but for that of a
//! time before 1970; a writer that takes nothing of a piece is one, too. Faults are counted in 64 bits, which saturate.
//! And std's words of a program.
ghost use Rattle.std.specs.Prelude.{◌≡◌, ◌/◌, min, None};
ghost use Rattle.std.specs.Io.{WritesAtMost};
ghost use Rattle.std.specs.Duration.{as_nanos};

use crate::calls::fault;
use crate::clock::Clock;
use crate::sink::Sink;
use crate::source::Source;
use jv_model::{Down, LAST_MOMENT, Moment};
use std::env;
use std::io::{self, ErrorKind, Read, Write};
use std::rt::{self, Env};
use std::time::Duration;

/// A reader as a source. Its bytes left are known if the reader's are.
#[derive(Drop)]
pub struct Reading<R> {
    inner: R,
    faults: u64,
}

impl<R: Read> Reading<R> {
    /// A source over that reader, without faults.
    pub fn new(inner: R) -> Self
        ensures { ⟦<Reading<R> as Source>⟧.seen result
            ≡ record { content = R.remaining inner; faults = 0 } }
    {
        Reading { inner, faults: 0 }
    }
}

impl<R: Read> Source for Reading<R> {
    ghost seen = { λ s. record { content = R.remaining s.inner; faults = s.faults } };

    fn read(&mut self, into: &mut [u8]) -> Result<usize, Down> {
        match self.inner.read(into) {
            Ok(count) => Ok(count),
            Err(_) => fault(&mut self.faults),
        }
    }
}

/// A writer as a sink, which is flushed by each call. Its bytes are never known, since those of a writer of std may
/// become known in mid-stream. After an error the writer may have taken bytes.
#[derive(Drop)]
pub struct Writing<W> {
    inner: W,
    faults: u64,
}

impl<W: Write> Writing<W> {
    /// A sink over that writer, without faults.
    pub fn new(inner: W) -> Self
        ensures { ⟦<Writing<W> as Sink>⟧.seen result ≡ record { content = None; faults = 0 } }
    {
        Writing { inner, faults: 0 }
    }
}

/// Writes to the writer and flushes it.
fn written_through<W: Write>(writer: &mut W, piece: &[u8]) -> io::Result<usize>
    ensures { WritesAtMost result piece.now }
{
    let count = writer.write(piece)?;
    writer.flush()?;
    Ok(count)
}

impl<W: Write> Sink for Writing<W> {
    ghost seen = { λ s. record { content = None; faults = s.faults } };

    fn write(&mut self, piece: &[u8]) -> Result<usize, Down> {
        match written_through(&mut self.inner, piece) {
            Ok(count) if 0 < count || piece.is_empty() => Ok(count),
            _ => fault(&mut self.faults),
        }
    }
}

/// A clock of std as a clock. It answers 0 before 1970 and [`LAST_MOMENT`] after that one. Its answers are never known.
#[derive(Drop)]
pub struct Ticking<R> {
    clock: R,
    faults: u64,
}

impl<R: rt::Clock> Ticking<R> {
    /// A clock over that one, without faults.
    pub fn new(clock: R) -> Self
        ensures { ⟦<Ticking<R> as Clock>⟧.seen result ≡ record { answers = None; faults = 0 } }
    {
        Ticking { clock, faults: 0 }
    }
}

impl<R: rt::Clock> Clock for Ticking<R> {
    ghost seen = { λ s. record { answers = None; faults = s.faults } };

    fn now(&mut self) -> Result<Moment, Down> {
        match self.clock.since_1970() {
            Ok(time) => Ok(moment_at(time)),
            // Std's word for a time before 1970.
            Err(error) if error.kind() == ErrorKind::InvalidData => Ok(Moment(0)),
            Err(_) => fault(&mut self.faults),
        }
    }
}

/// The moment at that time since 1970.
fn moment_at(since_1970: Duration) -> Moment
    ensures { result ≡ min (as_nanos since_1970 / 1_000_000_000) LAST_MOMENT }
{
    Moment(since_1970.as_secs().min(LAST_MOMENT))
}

/// The words that the program was called with, after its name. Fails if one of them isn't text, or out of memory.
pub fn words(rt: &(impl Env + AllocGlobal)) -> io::Result<Vec<String>> {
    let mut all = env::args(rt)?;
    let _program = all.next();
    Ok(all.collect(rt.alloc())?)
}
