//! A commit appends a slice's record to the list of its window, and makes the file as long as that.
ghost use Rattle.std.specs.Prelude.{◌≡◌, ◌≤◌, ◌+◌, ◌*◌, ◌<◌, [], nat_lt};
ghost use Rattle.jv_data.specs.Changing.{KeepsRest};
ghost use Rattle.jv_data.specs.Committing.{BeginsCommit};
ghost use Rattle.jv_data.specs.Records.{AppendsRecord, CommitsRecord};
ghost use Rattle.jv_model.specs.promise.blocks.Slices.{IsRecord};
ghost use Rattle.jv_model.specs.declared.limits.TheConstants.{FILE_END, WINDOW};

use crate::looking::file;
use crate::resizing::resize;
use jv_model::lifetimes::UPLOAD_LIFE;
use jv_model::{Fault, Moment, Rec, RowFault, SliceRow, TxFault, WINDOW, Who};
use jv_outside::Keeper;
use jv_rows::Draft;
use std::alloc::Global;

/// Whether a block that was begun at a moment is still young enough to be committed.
fn is_in_time(started: u64, now: u64) -> bool
    ensures { result ≡ nat_lt now (started + UPLOAD_LIFE) }
{
    now.saturating_sub(started) < UPLOAD_LIFE
}

/// Adds to a new draft that a file reaches at least to a position, with both times at the moment, as a commit of bytes that
/// end there has it. Their first block was begun at the moment `started`. After an error the draft is of no use.
///
/// # Errors
///
/// As those of [`commit`].
fn begin_commit<K: Keeper>(
    alloc: Global,
    k: &mut K,
    draft: &mut Draft,
    sid: u64,
    now: Moment,
    inode: u64,
    end: u64,
    started: Moment,
) -> Result<(), TxFault>
    requires new { draft.old ≡ [] }
    requires small { end ≤ FILE_END }
    ensures { BeginsCommit sid now inode end started (K.seen k.old) (K.seen k.new)
        draft.new result }
{
    let was = file(alloc, k, sid, inode)?;
    let (now, started) = (now.seconds(), started.seconds());
    if !is_in_time(started, now) {
        return Err(TxFault::Refused(Fault::TimedOut { started, now }));
    }
    let length = was.length.max(end);
    resize(alloc, k, draft, inode, was, length, now)
}

/// Commits a new slice to a window of a file: appends the record that shows it, makes the slice's row with one record,
/// makes the file reach at least to the record's end, and sets its times. The slice's first block was begun at the
/// moment `started`. Moments are in seconds. JuiceFS, Internals: chunks, slices and blocks.
///
/// # Errors
///
/// Stale where the session is gone, or the inode isn't a file's; then TimedOut where the block is [`jv_model::lifetimes::UPLOAD_LIFE`] seconds old or
/// older; then NoSpace where the volume has no room. Bad for a malformed row, or without bytes where setting or
/// counters are needed and absent. Failed if the keeper failed. Memory. On error no row has changed.
pub fn commit<K: Keeper>(
    alloc: Global,
    k: &mut K,
    who: &Who,
    inode: u64,
    window: u32,
    rec: Rec,
    started: Moment,
) -> Result<(), TxFault>
    requires part { IsRecord rec }
    requires named { 0 < rec.id }
    requires size { rec.size ≤ WINDOW }
    requires within { window * WINDOW + rec.pos + rec.len ≤ FILE_END }
    ensures commits { CommitsRecord who.entry.now.sid who.entry.now.now inode window rec started
        (K.seen k.old) (K.seen k.new) result }
    ensures lists { AppendsRecord inode window rec (K.seen k.old) (K.seen k.new) result }
    ensures rest { KeepsRest inode (K.seen k.old) (K.seen k.new) result }
{
    let end = u64::from(window) * WINDOW + u64::from(rec.pos) + u64::from(rec.len);
    let mut draft = Draft::new(alloc);
    begin_commit(alloc, k, &mut draft, who.sid, who.now, inode, end, started)?;
    draft.append_record(k, inode, window, &rec)?;
    let slice = SliceRow {
        size: rec.size,
        count: 1,
    };
    draft.put_slice(rec.id, &slice)?;
    match draft.commit(k) {
        Ok(()) => Ok(()),
        Err(down) => Err(TxFault::Rows(RowFault::from(down))),
    }
}
