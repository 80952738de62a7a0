//! Copies between files, and inside of one.
ghost use Rattle.std.specs.Prelude.{◌≡◌, ℕ, ◌+◌, ◌≤◌, ◌<◌, ◌++◌, ◌&&◌, ◌==◌, nat_le, IfOk, IfSome, OnOk};
ghost use Rattle.jv_volume_bytes.specs.Fills.{record_at_spot, records_of_plan};
ghost use Rattle.jv_data.specs.Changing.{Changes, AnyBytes, IsCrowded, KeepsRest, count_in};
ghost use Rattle.jv_data.specs.Copying.{pieces_len, part_len, AddsPieces, ShowsRange, CopiesPart, CopiesLists};
ghost use Rattle.jv_data.specs.Records.{HasRecords};
ghost use Rattle.jv_data.specs.Truncating.{HaveSlices};
ghost use Rattle.jv_model.specs.declared.limits.TheConstants.{FILE_END, WINDOW};
ghost use Rattle.jv_model.specs.declared.op.Reply.TheVariants.{Count};
ghost use Rattle.jv_model.specs.declared.setting.Setting.{Setting};
ghost use Rattle.jv_model.specs.promise.tree.Caller.{Caller};
ghost use Rattle.jv_model.specs.promise.tree.FileBytes as model;
ghost use Rattle.jv_rows.specs.Transactions.{IsFor};
ghost use Rattle.jv_volume.specs.promise.TypedRows.{typed};

use crate::looking::{file, records};
use crate::resizing::resize;
use crate::truncating::check_slices;
use jv_model::{FILE_END, Fault, List, Piece, Rec, RowFault, Spot, TxFault, WINDOW, Who};
use jv_outside::Keeper;
use jv_rows::{Draft, adjust, read_list};
use jv_slices::plan;
use std::alloc::{AllocError, Global};

/// What is copied: `len` bytes of a file from a position on, to a position of a file.
#[derive(Clone, Copy)]
struct CopyCourse {
    source: u64,
    from: u64,
    target: u64,
    to: u64,
    len: u64,
}

/// Copies at most `len` bytes of the file `src` from the position `from` on, as far as it goes, to the position `to` of
/// the file `dst`, which may be the same, and returns how many. Each list of the target gets, behind what it had, a
/// record for every piece that [`jv_slices::plan`] finds in what is copied into its window; a hole is a piece, too, and
/// each window of the source has a plan of its own. So there is at most one for each byte copied. No block is read or
/// written. The target reaches at least to the last byte copied, and its times are set. No slice dies. A copy of 0
/// bytes changes nothing. Linux, copy_file_range.
///
/// # Errors
///
/// Stale where the session is gone, or `src` isn't a file's inode, then where `dst` isn't one; then Invalid where both
/// are one file and the ranges have a position in common; then FileTooLarge where the target's range would end past
/// [`jv_model::FILE_END`]; then NoSpace where the volume has no room, or where the records of all lists and FILE_END more
/// are over [`jv_model::FULL_COUNT`], above which a slice could be named too often. Bad for a malformed row, for a list of
/// the source that names a slice without a row, or without bytes where setting or counters are needed and absent. Failed
/// if the keeper failed. Memory. On error no row has changed.
pub fn copy_range<K: Keeper>(
    alloc: Global,
    k: &mut K,
    who: &Who,
    src: u64,
    from: u64,
    dst: u64,
    to: u64,
    len: u64,
) -> Result<u64, TxFault>
    ensures changes { (caller : Caller) (due : Setting → ℕ) → IsFor who.entry.now caller
        → caller.inode ≡ src → caller.other ≡ dst
        → Changes (record { own = 0; size = 0; more = count_in result; due = due }) AnyBytes
        (IsCrowded FILE_END) (K.seen k.old) (K.seen k.new)
        result (λ n. Count n) (λ t. model.copy t caller from to len) }
    ensures rest { KeepsRest dst (K.seen k.old) (K.seen k.new) result }
    ensures pieces { AddsPieces src from dst to (K.seen k.old) (K.seen k.new) result }
{
    let source = file(alloc, k, who.sid, src)?;
    let target = file(alloc, k, who.sid, dst)?;
    // A hostile row may have a length past FILE_END, and so windows whose numbers don't fit.
    let len = len.min(source.length.min(FILE_END).saturating_sub(from));
    let course = CopyCourse {
        source: src,
        from,
        target: dst,
        to,
        len,
    };
    if overlaps(course) {
        return Err(TxFault::Refused(Fault::Invalid));
    }
    if !ends_in_file(course) {
        return Err(TxFault::Refused(Fault::FileTooLarge));
    }
    if len == 0 {
        return Ok(0);
    }
    let length = target.length.max(to + len);
    let mut draft = Draft::new(alloc);
    resize(alloc, k, &mut draft, dst, target, length, who.now.seconds())?;
    let added = copy_lists(alloc, k, &mut draft, course)?;
    let none = List::new(alloc);
    adjust(alloc, k, &mut draft, none.as_slice(), added.as_slice(), 0)?;
    match draft.commit(k) {
        Ok(()) => Ok(len),
        Err(down) => Err(TxFault::Rows(RowFault::from(down))),
    }
}

/// Whether a file is copied to itself, to a range that has a position in common with the one that is copied.
fn overlaps(course: CopyCourse) -> bool
    ensures { result
        ≡ ((course.source == course.target) && model.overlap course.from course.to course.len) }
{
    let (from, to, len) = (
        u128::from(course.from),
        u128::from(course.to),
        u128::from(course.len),
    );
    course.source == course.target && from < to + len && to < from + len
}

/// Whether the target's range ends where a file may end.
fn ends_in_file(course: CopyCourse) -> bool
    ensures { result ≡ nat_le (course.to + course.len) FILE_END }
{
    course.to <= FILE_END && course.len <= FILE_END - course.to
}

/// Adds to the lists of the target the records that show the range of the source, as it is stored, and returns these
/// records.
fn copy_lists<K: Keeper>(
    alloc: Global,
    k: &mut K,
    draft: &mut Draft,
    course: CopyCourse,
) -> Result<List, TxFault>
    requires source { course.from + course.len ≤ FILE_END }
    requires target { course.to + course.len ≤ FILE_END }
    ensures { CopiesLists course (K.seen k.old) (K.seen k.new) draft.old draft.new result }
{
    let mut added = Vec::new(alloc);
    let mut done = 0;
    while done < course.len {
        let new = copy_part(alloc, k, draft, course, done)?;
        added.extend_from_slice(new.as_slice())?;
        done += u64::from(part_len(course, done));
    }
    Ok(List::from_vec(added))
}

/// How many bytes the part of a copy has that begins when `done` are done: as far as the target's window goes.
fn part_len(course: CopyCourse, done: u64) -> u32
    requires more { done < course.len }
    requires target { course.to + course.len ≤ FILE_END }
    ensures { result ≡ part_len course done }
{
    let left = WINDOW - (course.to + done) % WINDOW;
    (course.len - done).min(left) as u32
}

/// Adds to the list of a window of the target the records that show there the part of the source that begins when `done`
/// bytes are done, and returns these records.
fn copy_part<K: Keeper>(
    alloc: Global,
    k: &mut K,
    draft: &mut Draft,
    course: CopyCourse,
    done: u64,
) -> Result<List, TxFault>
    requires more { done < course.len }
    requires source { course.from + course.len ≤ FILE_END }
    requires target { course.to + course.len ≤ FILE_END }
    ensures { CopiesPart course done (K.seen k.old) (K.seen k.new) draft.old draft.new result }
{
    let at = course.to + done;
    let (window, pos) = ((at / WINDOW) as u32, (at % WINDOW) as u32);
    let len = part_len(course, done);
    let new = shown(alloc, k, course.source, course.from + done, pos, len)?;
    let mut list = records(alloc, k, course.target, window)?.into_vec();
    list.extend_from_slice(new.as_slice())?;
    draft.put_list(course.target, window, &List::from_vec(list))?;
    Ok(new)
}

/// The records that show, from a position of a window on, a range of a file: as many as a reader sees pieces there.
fn shown<K: Keeper>(
    alloc: Global,
    k: &mut K,
    inode: u64,
    from: u64,
    pos: u32,
    len: u32,
) -> Result<List, TxFault>
    requires source { from + len ≤ FILE_END }
    requires target { pos + len ≤ WINDOW }
    ensures { ShowsRange inode from pos len (K.seen k.old) (K.seen k.new) result }
{
    let mut shown = List::new(alloc);
    let mut done = 0;
    while done < len {
        let at = from + u64::from(done);
        let (window, begin) = ((at / WINDOW) as u32, (at % WINDOW) as u32);
        let part = (len - done).min(WINDOW as u32 - begin);
        let list = named_records(alloc, k, inode, window)?;
        let pieces = plan(alloc, &list, begin, begin + part)?;
        push_pieces(&mut shown, pos + done, pieces.as_slice())?;
        done += part;
    }
    Ok(shown)
}

/// The records of a window of a file, each slice of which has a row. None where there is no list.
fn named_records<K: Keeper>(
    alloc: Global,
    k: &mut K,
    inode: u64,
    window: u32,
) -> Result<List, TxFault>
    ensures read { HasRecords inode window (K.seen k.old) (K.seen k.new) result }
    ensures named { IfOk result (λ list. IfSome (K.seen k.old).rows
        (λ known. HaveSlices (typed known) list)) }
{
    match read_list(alloc, k, inode, window)? {
        Some(list) => {
            check_slices(alloc, k, inode, window, &list)?;
            Ok(list)
        }
        None => Ok(List::new(alloc)),
    }
}

/// Adds the records, from a position on, that show what pieces show. They end in the window.
fn push_pieces(shown: &mut List, pos: u32, pieces: &[Piece]) -> Result<(), AllocError>
    requires { pos + pieces_len pieces.now ≤ WINDOW }
    ensures { OnOk result (shown.new ≡ shown.old ++ records_of_plan pos pieces.now) }
{
    let mut at = pos;
    for piece in pieces {
        shown.push(record_at(at, *piece))?;
        at += piece.len;
    }
    Ok(())
}

/// The record at a position that shows what a piece shows.
fn record_at(pos: u32, piece: Piece) -> Rec
    ensures { result ≡ record_at_spot pos piece.len piece.spot }
{
    let (id, size, off) = match piece.spot {
        Spot::Zero => (0, 0, 0),
        Spot::Slice { id, size, at } => (id, size, at),
    };
    Rec {
        pos,
        id,
        size,
        off,
        len: piece.len,
    }
}
