//! Readers, writers and clocks of std that fail, count and differ.
use jv_model::{Down, LAST_MOMENT, Moment};
use jv_outside::{Clock, Reading, Sink, Source, Ticking, Writing};
use std::cell::Cell;
use std::io::{self, ErrorKind, Read, Write};
use std::rt;
use std::time::Duration;

/// A reader and writer that fails, is interrupted, takes nothing, and works, one after the other.
#[derive(Drop)]
struct Moody {
    calls: u32,
}

impl Moody {
    fn next(&mut self) -> io::Result<usize> {
        self.calls = self.calls.saturating_add(1);
        match self.calls % 4 {
            1 => Err(io::Error::from(ErrorKind::Other)),
            2 => Err(io::Error::from(ErrorKind::Interrupted)),
            3 => Ok(0),
            _ => Ok(1),
        }
    }
}

impl Write for Moody {
    fn write(&mut self, buf: &[u8]) -> io::Result<usize> {
        Ok(self.next()?.min(buf.len()))
    }

    fn flush(&mut self) -> io::Result<()> {
        Ok(())
    }
}

impl Read for Moody {
    fn read(&mut self, buf: &mut [u8]) -> io::Result<usize> {
        Ok(self.next()?.min(buf.len()))
    }
}

#[test]
fn a_failing_call_is_a_fault_and_is_not_tried_again(rt: HostRuntime) {
    let mut source = Reading::new(Moody { calls: 0 });
    let mut sink = Writing::new(Moody { calls: 0 });
    for (name, read, written) in [
        ("fails", Err(Down::Failed), Err(Down::Failed)),
        ("is interrupted", Err(Down::Failed), Err(Down::Failed)),
        ("takes nothing", Ok(0), Err(Down::Failed)),
        ("works", Ok(1), Ok(1)),
    ] {
        assert_eq!(rt; source.read(&mut [0u8; 2]), read, "{name}");
        assert_eq!(rt; sink.write(b"ok"), written, "{name}");
    }
}

/// A writer that takes everything, and counts its flushes, of which the first alone fails, or none.
#[derive(Drop)]
struct Flushing {
    flushes: u32,
    fails: Option<ErrorKind>,
}

impl Write for Flushing {
    fn write(&mut self, buf: &[u8]) -> io::Result<usize> {
        Ok(buf.len())
    }

    fn flush(&mut self) -> io::Result<()> {
        self.flushes = self.flushes.saturating_add(1);
        match self.fails.take() {
            Some(kind) => Err(io::Error::from(kind)),
            None => Ok(()),
        }
    }
}

#[test]
fn each_write_is_flushed(rt: HostRuntime) {
    let mut writer = Flushing {
        flushes: 0,
        fails: None,
    };
    let mut sink = Writing::new(&mut writer);
    assert_eq!(rt; sink.write(b"ok 1"), Ok(4));
    assert_eq!(rt; sink.write(b"ok 2"), Ok(4));
    assert_eq!(rt; writer.flushes, 2);
}

#[test]
fn a_flush_that_fails_is_a_fault_and_is_not_tried_again(rt: HostRuntime) {
    for (name, kind) in [
        ("fails", ErrorKind::Other),
        ("is interrupted", ErrorKind::Interrupted),
    ] {
        let mut sink = Writing::new(Flushing {
            flushes: 0,
            fails: Some(kind),
        });
        assert_eq!(rt; sink.write(b"ok 1"), Err(Down::Failed), "{name}");
    }
}

/// A clock that stands at a second since 1970, seven seconds after the machine started, or fails at its first call alone.
#[derive(Drop)]
struct Standing {
    second: Cell<Result<u64, ErrorKind>>,
}

impl rt::Clock for Standing {
    fn monotonic(&self) -> io::Result<Duration> {
        Ok(Duration::from_secs(7))
    }

    fn since_1970(&self) -> io::Result<Duration> {
        match self.second.replace(Ok(0)) {
            Ok(second) => Ok(Duration::from_secs(second)),
            Err(kind) => Err(io::Error::from(kind)),
        }
    }
}

#[test]
fn a_moment_is_counted_since_1970_within_its_range(rt: HostRuntime) {
    for (name, second, moment) in [
        ("the first second", Ok(0), Ok(Moment(0))),
        ("a later second", Ok(1000), Ok(Moment(1000))),
        (
            "after the last moment",
            Ok(LAST_MOMENT + 1),
            Ok(Moment(LAST_MOMENT)),
        ),
        ("before 1970", Err(ErrorKind::InvalidData), Ok(Moment(0))),
        (
            "a failure, not tried again",
            Err(ErrorKind::Other),
            Err(Down::Failed),
        ),
        (
            "an interrupted call, not tried again",
            Err(ErrorKind::Interrupted),
            Err(Down::Failed),
        ),
    ] {
        let second = Cell::new(second);
        assert_eq!(rt; Ticking::new(Standing { second }).now(), moment, "{name}");
    }
}
