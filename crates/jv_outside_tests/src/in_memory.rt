//! Each device in memory: its short reads and writes, and its failing calls. Out of memory a check is false, too.
ghost use Rattle.std.specs.Prelude.{◌<◌};

use jv_model::row_bytes::RowBytes;
use jv_model::{Down, Moment, RowKey, Rows, Sequence, copied};
use jv_outside::{
    Batch, Clock, Keeper, MemClock, MemKeeper, MemSink, MemSource, NeverClock, NeverKeeper,
    NeverSink, NeverSource, Sink, Source, write_whole,
};
use std::alloc::{AllocError, Global};
use test_values::failing_at;

/// Reads eight times, and returns the bytes and the number of errors.
fn drained<S: Source>(alloc: Global, source: &mut S) -> Result<(Vec<u8>, u32), AllocError> {
    let mut bytes = Vec::new(alloc);
    let mut errors = 0u32;
    for _ in 0..8 {
        let mut space = [0u8; 4];
        match source.read(&mut space) {
            Ok(count) => bytes.extend_from_slice(&space[..count])?,
            Err(_) => errors = errors.saturating_add(1),
        }
    }
    Ok((bytes, errors))
}

/// Whether eight reads take the whole script, and `errors` of them fail.
fn reads<S: Source>(alloc: Global, source: &mut S, errors: u32) -> bool {
    match drained(alloc, source) {
        Ok((bytes, failed)) => failed == errors && bytes.as_slice() == b"script".as_slice(),
        Err(_) => false,
    }
}

fn mem_source(alloc: Global, most: usize, failing: u64) -> Result<MemSource, AllocError>
    requires { 0 < most }
{
    let fails = failing_at(alloc, failing)?;
    let source = MemSource::new(copied(alloc, b"script")?, fails);
    Ok(source.in_pieces_of(most))
}

fn mem_reads(alloc: Global, most: usize, failing: u64, errors: u32) -> bool
    requires { 0 < most }
{
    match mem_source(alloc, most, failing) {
        Ok(mut source) => reads(alloc, &mut source, errors),
        Err(_) => false,
    }
}

fn never_reads(alloc: Global) -> bool {
    match copied(alloc, b"script") {
        Ok(script) => reads(alloc, &mut NeverSource::new(script), 0),
        Err(_) => false,
    }
}

#[test]
fn a_source_reads_all_its_bytes(rt: HostRuntime) {
    for (name, most, failing, errors) in [
        ("byte by byte", 1, 0, 0),
        ("its second call fails", 3, 2, 1),
        ("a call after the end fails", 9, 8, 1),
    ] {
        assert!(rt; mem_reads(rt.alloc(), most, failing, errors), "{name}");
    }
    assert!(rt; never_reads(rt.alloc()));
}

fn mem_sink(alloc: Global, most: usize, failing: u64) -> Result<MemSink, AllocError>
    requires { 0 < most }
{
    let fails = failing_at(alloc, failing)?;
    let sink = MemSink::new(copied(alloc, b"> ")?, fails);
    Ok(sink.in_pieces_of(most))
}

/// Whether a write of `ok 1` succeeds if and only if the sink is to take the whole.
fn takes<K: Sink>(sink: &mut K, whole: bool) -> bool {
    write_whole(sink, b"ok 1").is_ok() == whole
}

/// Whether a sink that had `> ` has `taken` after a write of `ok 1`, which succeeds if and only if that is all.
fn mem_takes(alloc: Global, most: usize, failing: u64, taken: &[u8]) -> bool
    requires { 0 < most }
{
    match mem_sink(alloc, most, failing) {
        Ok(mut sink) => takes(&mut sink, taken.len() == 6) && sink.taken() == taken,
        Err(_) => false,
    }
}

fn never_takes(alloc: Global) -> bool {
    let Ok(taken) = copied(alloc, b"> ") else {
        return false;
    };
    let mut sink = NeverSink::new(taken);
    takes(&mut sink, true) && sink.taken() == Some(b"> ok 1".as_slice())
}

#[test]
fn a_sink_takes_bytes_up_to_its_failing_call(rt: HostRuntime) {
    for (name, most, failing, taken) in [
        ("byte by byte", 1, 0, b"> ok 1".as_slice()),
        ("its second call fails", 3, 2, b"> ok ".as_slice()),
        ("its first call fails", 9, 1, b"> ".as_slice()),
    ] {
        assert!(rt; mem_takes(rt.alloc(), most, failing, taken), "{name}");
    }
    assert!(rt; never_takes(rt.alloc()));
}

#[test]
fn a_clock_answers_its_moment(rt: HostRuntime) -> Result<(), AllocError> {
    let mut clock = MemClock::new(Moment(1000), failing_at(rt.alloc(), 2)?);
    assert_eq!(rt; clock.now(), Ok(Moment(1000)));
    assert_eq!(rt; clock.now(), Err(Down::Failed));
    assert_eq!(rt; clock.now(), Ok(Moment(1000)));
    assert_eq!(rt; NeverClock::new(Moment(7)).now(), Ok(Moment(7)));
    Ok(())
}

fn key(alloc: Global, tab: u8, a: u64, b: &[u8]) -> Result<RowKey, AllocError> {
    let b = copied(alloc, b)?;
    Ok(RowKey { tab, a, b })
}

/// A row's table, the number and the bytes of its key, and its own bytes.
type Row = (u8, u64, &'static [u8], &'static [u8]);

fn row(alloc: Global, shown: Row) -> Result<(RowKey, RowBytes), AllocError> {
    let (tab, a, b, bytes) = shown;
    let key = key(alloc, tab, a, b)?;
    Ok((key, RowBytes::from_bytes(copied(alloc, bytes)?)?))
}

fn rows(alloc: Global, all: &[Row]) -> Result<Rows, AllocError> {
    let mut rows = Sequence::new(alloc);
    for shown in all {
        rows.push(row(alloc, *shown)?)?;
    }
    Ok(rows)
}

/// Three rows, two of them in table 3, in no order.
fn three(alloc: Global) -> Result<Rows, AllocError> {
    rows(
        alloc,
        &[
            (3, 2, b"", b"two"),
            (4, 0, b"", b"other"),
            (3, 1, b"a", b"one"),
        ],
    )
}

fn mem_keeper(alloc: Global) -> Result<MemKeeper, AllocError> {
    let fails = failing_at(alloc, 0)?;
    Ok(MemKeeper::new(alloc, three(alloc)?, fails))
}

fn never_keeper(alloc: Global) -> Result<NeverKeeper, AllocError> {
    Ok(NeverKeeper::new(alloc, three(alloc)?))
}

fn opens<K: Keeper>(alloc: Global, keeper: &mut K) -> bool {
    let Ok(place) = copied(alloc, b"a place") else {
        return false;
    };
    keeper.attach(&place).is_ok()
}

/// Whether the bytes of a row are these.
fn has_bytes(alloc: Global, row: &RowBytes, bytes: &[u8]) -> bool {
    match row.joined(alloc) {
        Ok(found) => found.as_slice() == bytes,
        Err(_) => false,
    }
}

fn is_row(alloc: Global, found: &(RowKey, RowBytes), shown: &Row) -> bool {
    let (tab, a, b, bytes) = *shown;
    let key = &found.0;
    key.tab == tab && key.a == a && key.b.as_slice() == b && has_bytes(alloc, &found.1, bytes)
}

/// Whether a keeper finds the row 1 of table 3.
fn finds<K: Keeper>(alloc: Global, keeper: &mut K) -> bool {
    let Ok(key) = key(alloc, 3, 1, b"a") else {
        return false;
    };
    match keeper.get(&key) {
        Ok(Some(found)) => has_bytes(alloc, &found, b"one"),
        _ => false,
    }
}

/// Whether a keeper scans these rows of table 3, the first `n` after a key.
fn scans<K: Keeper>(
    alloc: Global,
    keeper: &mut K,
    after: Option<&RowKey>,
    n: u32,
    all: &[Row],
) -> bool {
    let Ok(rows) = keeper.scan(3, after, n) else {
        return false;
    };
    let mut pairs = rows.as_slice().iter().zip(all.iter());
    rows.len() == all.len() && pairs.all(|pair| is_row(alloc, pair.0, pair.1))
}

fn scans_all<K: Keeper>(alloc: Global, keeper: &mut K) -> bool {
    let all = [
        (3, 1, b"a".as_slice(), b"one".as_slice()),
        (3, 2, b"", b"two"),
    ];
    scans(alloc, keeper, None, 9, &all)
}

fn scans_after_a_key<K: Keeper>(alloc: Global, keeper: &mut K) -> bool {
    let Ok(key) = key(alloc, 3, 1, b"") else {
        return false;
    };
    scans(alloc, keeper, Some(&key), 1, &[(3, 1, b"a", b"one")])
}

/// A batch that takes the row 2 and puts a row 4.
fn changes(alloc: Global) -> Result<Batch, AllocError> {
    let mut batch = Batch::new(alloc);
    batch.del(key(alloc, 3, 2, b"")?)?;
    let (key, bytes) = row(alloc, (3, 4, b"", b"new"))?;
    batch.put(key, bytes)?;
    Ok(batch)
}

fn commits<K: Keeper>(alloc: Global, keeper: &mut K) -> bool {
    let Ok(batch) = changes(alloc) else {
        return false;
    };
    keeper.commit(&batch).is_ok()
}

/// Whether a keeper scans what the changes left.
fn scans_the_rest<K: Keeper>(alloc: Global, keeper: &mut K) -> bool {
    let left = [
        (3, 1, b"a".as_slice(), b"one".as_slice()),
        (3, 4, b"", b"new"),
    ];
    scans(alloc, keeper, None, 9, &left)
}

/// Whether a keeper of three rows opens, finds and scans them.
fn reads_rows<K: Keeper>(alloc: Global, keeper: &mut K) -> bool {
    opens(alloc, keeper)
        && finds(alloc, keeper)
        && scans_all(alloc, keeper)
        && scans_after_a_key(alloc, keeper)
}

/// Whether a keeper takes a batch, and has what that left.
fn changes_rows<K: Keeper>(alloc: Global, keeper: &mut K) -> bool {
    commits(alloc, keeper) && scans_the_rest(alloc, keeper)
}

#[test]
fn a_keeper_keeps_its_rows(rt: HostRuntime) -> Result<(), AllocError> {
    let mut keeper = mem_keeper(rt.alloc())?;
    assert!(rt; reads_rows(rt.alloc(), &mut keeper));
    assert!(rt; changes_rows(rt.alloc(), &mut keeper));
    Ok(())
}

#[test]
fn a_keeper_that_never_fails_keeps_its_rows(rt: HostRuntime) -> Result<(), AllocError> {
    let mut keeper = never_keeper(rt.alloc())?;
    assert!(rt; reads_rows(rt.alloc(), &mut keeper));
    assert!(rt; changes_rows(rt.alloc(), &mut keeper));
    Ok(())
}
