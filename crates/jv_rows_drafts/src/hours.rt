//! The trash's hours: their names, the names of what they hold, and their directories (JuiceFS, "Trash").
ghost use Rattle.std.specs.Prelude.{◌≡◌, ◌≤◌, ◌/◌, ◌%◌, pos, ◌*ℤ◌, Ok, IfOk};
ghost use Rattle.jv_rows_drafts.specs.Drafting.{Drafting};
ghost use Rattle.jv_rows_drafts.specs.CivilDates.{IsDateOf};
ghost use Rattle.jv_rows_drafts.specs.Ready.{MayHaveHour};
ghost use Rattle.jv_model.specs.declared.limits.TheConstants.{LAST_MOMENT};
ghost use Rattle.jv_model.specs.promise.tree.HourNames.{hour_at, hour_name, day_hours, two_digits};
ghost use Rattle.jv_model.specs.promise.tree.Trash as model;

use crate::entries::put_entry;
use itoa::Buffer;
use jiff::Timestamp;
use jiff::civil::DateTime;
use jiff::tz::Offset;
use jv_model::lifetimes::{FIRST_HOUR, HOUR};
use jv_model::{MAX_NAME, Moment, Name, READ_ONLY_MODE, TRASH_ROOT, TxFault, copied};
use jv_outside::Keeper;
use jv_rows::{Draft, needed_node, new_directory};
use std::alloc::{AllocError, Global};
use std::marker::Model;

/// The name in the trash of an inode that loses its last entry: `PARENT-INODE-NAME`, cut to [`jv_model::MAX_NAME`] bytes.
/// The only error is out of memory. JuiceFS, Trash.
pub fn trash_name(alloc: Global, dir: u64, name: &Name, inode: u64) -> Result<Name, AllocError>
    ensures { IfOk result (λ text. text ≡ model.trash_name
        (record { dir = dir; name = name.now }) inode) }
{
    let mut text = Vec::new(alloc);
    text.extend_from_slice(Buffer::new().format(dir).as_bytes())?;
    text.push(b'-')?;
    text.extend_from_slice(Buffer::new().format(inode).as_bytes())?;
    text.push(b'-')?;
    text.extend_from_slice(name.as_slice())?;
    text.truncate(MAX_NAME);
    Ok(Name::from_vec(text))
}

/// The name of an hour, `YYYY-MM-DD-HH`. Contracts see it as its bytes.
#[derive(Debug, Drop)]
pub struct HourName([u8; 13]);

impl Model for HourName {
    ghost use Rattle.std.specs.Prelude.{ℕ, List};

    ghost Value = { List ℕ };

    ghost view = { λ name. name.0 };
}

impl HourName {
    /// The bytes of the name.
    pub fn as_slice(&self) -> &[u8]
        ensures { result.now ≡ self.now }
    {
        &self.0
    }
}

/// The name of a moment's hour in UTC. Takes no memory.
pub fn hour_name(at: Moment) -> HourName
    ensures { result ≡ hour_name (hour_at at) }
{
    let clock = clock_at(at);
    let year = clock.year() as u16;
    let [thousands, hundreds] = two_digits(year / 100);
    let [tens, ones] = two_digits(year);
    let month = two_digits(clock.month() as u16);
    let day = two_digits(clock.day() as u16);
    let hour = two_digits(clock.hour() as u16);
    HourName([
        thousands, hundreds, tens, ones, b'-', month[0], month[1], b'-', day[0], day[1], b'-',
        hour[0], hour[1],
    ])
}

// What a clock in UTC shows at a moment.
fn clock_at(at: Moment) -> DateTime
    ensures date { IsDateOf result.date (hour_at at / day_hours) }
    ensures hour { result.time.hour ≡ hour_at at % day_hours }
{
    Offset::UTC.to_datetime(timestamp(at.seconds()))
}

// The last two decimal digits of a number.
fn two_digits(number: u16) -> [u8; 2]
    ensures { result ≡ two_digits number }
{
    [b'0' + (number / 10 % 10) as u8, b'0' + (number % 10) as u8]
}

// The instant that many seconds after the start of 1970.
fn timestamp(seconds: u64) -> Timestamp
    requires { seconds ≤ LAST_MOMENT }
    ensures { result.nanosecond ≡ pos seconds *ℤ pos 1_000_000_000 }
{
    Timestamp::from_second(seconds as i64).unwrap()
}

/// Adds the directory of a moment's hour to the trash, if it isn't there, and returns its inode.
///
/// # Errors
///
/// NoSpace where the trash's link count is at its greatest number, as no whole volume's is. Bad for a malformed row of the
/// hour or the trash, and without bytes where the trash itself is absent. Failed if the keeper failed, Memory.
pub fn enter_hour<K: Keeper>(
    alloc: Global,
    draft: &mut Draft,
    k: &mut K,
    now: Moment,
) -> Result<u64, TxFault>
    ensures step { Drafting (λ t. MayHaveHour t (hour_at now)) draft.old draft.new
        (K.seen k.old) (K.seen k.new) result (λ t. Ok (model.with_hour t now (hour_at now))) }
    ensures inode { IfOk result (λ inode. inode ≡ model.hour_inode (hour_at now)) }
{
    let inode = hour_inode(now.seconds() / HOUR);
    if draft.node(k, inode)?.is_some() {
        return Ok(inode);
    }
    needed_node(alloc, k, draft, TRASH_ROOT)?;
    let name = copied(alloc, hour_name(now).as_slice())?;
    let hour = new_directory(alloc, TRASH_ROOT, READ_ONLY_MODE, now);
    draft.put_node(inode, &hour)?;
    put_entry(draft, k, now, TRASH_ROOT, &name, inode)?;
    Ok(inode)
}

// The inode of an hour's directory.
fn hour_inode(hour: u64) -> u64
    requires { hour ≤ hour_at LAST_MOMENT }
    ensures { result ≡ model.hour_inode hour }
{
    match hour {
        0 => FIRST_HOUR,
        _ => TRASH_ROOT + hour,
    }
}
