//! The parts of a range, by windows.
ghost use Rattle.std.specs.Prelude.{◌≡◌, ◌<◌, ◌≤◌, length};
ghost use Rattle.std.specs.List.{AllByRecursion};
ghost use Rattle.jv_model.specs.declared.limits.TheConstants.{WINDOW, FILE_END};
ghost use Rattle.jv_model.specs.promise.journal.Reading.{asked_parts};
ghost use Rattle.jv_client_reads.specs.Inside.{IsWithin, parts_of};

use jv_model::{FILE_END, WINDOW};

/// Positions in a row, at least one, that lie in one window.
#[derive(Clone, Copy, Debug, PartialEq, Eq)]
pub(crate) struct Span {
    pub(crate) window: u32,
    pub(crate) from: u64,
    pub(crate) to: u64,
}

/// Spans that follow each other.
#[derive(Clone, Copy, Debug, PartialEq, Eq)]
pub(crate) enum Spans {
    Over,
    Last(Span),
    Two(Span, Span),
}

/// The parts of a range of at most a window's length, as far as positions go.
pub(crate) fn spans_of(offset: u64, len: u32) -> Spans
    requires low { offset < FILE_END }
    requires len { (0 < len) × (len ≤ WINDOW) }
    ensures parts { parts_of result ≡ asked_parts offset len }
    ensures within { AllByRecursion IsWithin (parts_of result) }
    ensures few { length (parts_of result) ≤ 2 }
{
    let stop = (offset + u64::from(len)).min(FILE_END);
    let window = offset / WINDOW;
    let border = (window + 1) * WINDOW;
    let first = window as u32;
    if stop <= border {
        return Spans::Last(Span {
            window: first,
            from: offset,
            to: stop,
        });
    }
    Spans::Two(
        Span {
            window: first,
            from: offset,
            to: border,
        },
        Span {
            window: first + 1,
            from: border,
            to: stop,
        },
    )
}
