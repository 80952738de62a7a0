ghost use Rattle.std.specs.Prelude.{◌≡◌, ◌++◌, codes, decimal};
ghost use Rattle.std.specs.List.{flat_map};
ghost use Rattle.jv_model.specs.promise.script.Printed.{hex_pair};
ghost use Rattle.jv_cmd.specs.promise.Ends.{status_of, message_of, key_text, digits_or_dash};
ghost use Rattle.jv_cmd.specs.promise.Saying.{Says};
ghost use Rattle.jv_cmd.specs.declared.ended.Ended.TheVariants.{OutOfMemory};
ghost use Rattle.jv_outside.specs.Stream.{WritesAll};

use itoa::Buffer;
use jv_model::{Bytes, Down, RowKey};
use jv_outside::{Sink, write_whole};
use jv_script::hex_pair;

/// The exit status if the process is out of memory.
pub const OUT_OF_MEMORY: u8 = 6;

/// How a command ended.
#[derive(Debug, Drop, PartialEq, Eq)]
pub(crate) enum Ended {
    /// The command did its work; a session ran all lines of the source.
    Succeeded,
    /// The line of this number, from 1, isn't run.
    LineNotRun(u32),
    /// The keeper has no row of a setting.
    NoVolume,
    /// The keeper has a volume where one was to be formatted.
    VolumeExists,
    /// The rows are of this version, which is a later one.
    NewerVersion(u32),
    /// The row of the setting is malformed.
    MalformedSetting,
    /// The row at this key, which has these bytes, is malformed, or names one that isn't there, or is absent where each
    /// volume has one, and then without bytes.
    BadRow(RowKey, Bytes),
    SourceFailed,
    OutFailed,
    ClockFailed,
    KeeperFailed,
    DepotFailed,
    CarrierFailed,
    ShelfFailed,
    /// Out of memory.
    OutOfMemory,
}

impl Ended {
    /// The exit status.
    pub(crate) fn status(&self) -> u8
        ensures { result ≡ status_of self.now }
    {
        match self {
            Ended::Succeeded => 0,
            Ended::LineNotRun(_) => 3,
            Ended::NoVolume
            | Ended::VolumeExists
            | Ended::NewerVersion(_)
            | Ended::MalformedSetting => 4,
            Ended::BadRow(..) => 4,
            Ended::SourceFailed | Ended::OutFailed | Ended::ClockFailed | Ended::KeeperFailed => 5,
            Ended::DepotFailed | Ended::CarrierFailed | Ended::ShelfFailed => 5,
            Ended::OutOfMemory => OUT_OF_MEMORY,
        }
    }
}

/// Says on standard error how the command ended. Takes no memory. A fault there is passed over.
pub(crate) fn report<E: Sink>(ended: &Ended, err: &mut E)
    ensures { Says (E.seen err.old) (E.seen err.new) (message_of ended.now) }
{
    match ended {
        Ended::Succeeded => {}
        Ended::LineNotRun(number) => say_number(
            b"juicevol: line ",
            *number,
            b": not a script line\n",
            err,
        ),
        Ended::NoVolume => say(b"juicevol: no volume\n", err),
        Ended::VolumeExists => say(b"juicevol: volume exists\n", err),
        Ended::NewerVersion(version) => say_number(b"juicevol: version ", *version, b"\n", err),
        Ended::MalformedSetting => say(b"juicevol: row 0 0 -: not a row\n", err),
        Ended::BadRow(key, _) => say_key(key, err),
        Ended::SourceFailed => say(b"juicevol: source failed\n", err),
        Ended::OutFailed => say(b"juicevol: out failed\n", err),
        Ended::ClockFailed => say(b"juicevol: clock failed\n", err),
        Ended::KeeperFailed => say(b"juicevol: keeper failed\n", err),
        Ended::DepotFailed => say(b"juicevol: depot failed\n", err),
        Ended::CarrierFailed => say(b"juicevol: carrier failed\n", err),
        Ended::ShelfFailed => say(b"juicevol: shelf failed\n", err),
        Ended::OutOfMemory => say(b"juicevol: out of memory\n", err),
    }
}

/// Says on standard error that the process is out of memory, and returns the exit status. Takes no memory. A fault there
/// is passed over.
pub fn give_up<E: Sink>(err: &mut E) -> u8
    ensures says { Says (E.seen err.old) (E.seen err.new) (message_of OutOfMemory) }
    ensures status { result ≡ status_of OutOfMemory }
{
    report(&Ended::OutOfMemory, err);
    Ended::OutOfMemory.status()
}

/// Writes a text to standard error. A fault there is passed over.
pub(crate) fn say<E: Sink>(text: &[u8], err: &mut E)
    ensures { Says (E.seen err.old) (E.seen err.new) text.now }
{
    let _ = write_whole(err, text);
}

/// Writes a text with a number in it to standard error. A fault there is passed over.
fn say_number<E: Sink>(before: &[u8], number: u32, after: &[u8], err: &mut E)
    ensures { Says (E.seen err.old) (E.seen err.new) (before.now ++ decimal number ++ after.now) }
{
    let _ = write_number(before, number, after, err);
}

fn write_number<E: Sink>(before: &[u8], number: u32, after: &[u8], err: &mut E) -> Result<(), Down>
    ensures { WritesAll (E.seen err.old) (E.seen err.new) result (before.now ++ decimal number
        ++ after.now) }
{
    write_whole(err, before)?;
    write_whole(err, Buffer::new().format(number).as_bytes())?;
    write_whole(err, after)
}

/// Says on standard error that a row is none. A fault there is passed over.
fn say_key<E: Sink>(key: &RowKey, err: &mut E)
    ensures { Says (E.seen err.old) (E.seen err.new)
        (codes "juicevol: row " ++ key_text key.now ++ codes ": not a row\n") }
{
    let _ = write_key(key, err);
}

fn write_key<E: Sink>(key: &RowKey, err: &mut E) -> Result<(), Down>
    ensures { WritesAll (E.seen err.old) (E.seen err.new) result
        (codes "juicevol: row " ++ key_text key.now ++ codes ": not a row\n") }
{
    write_number(b"juicevol: row ", u32::from(key.tab), b" ", err)?;
    write_whole(err, Buffer::new().format(key.a).as_bytes())?;
    write_whole(err, b" ")?;
    write_digits(key.b.as_slice(), err)?;
    write_whole(err, b": not a row\n")
}

/// Writes bytes as pairs of hexadecimal digits, or a dash where there are none.
fn write_digits<E: Sink>(bytes: &[u8], err: &mut E) -> Result<(), Down>
    ensures { WritesAll (E.seen err.old) (E.seen err.new) result (digits_or_dash bytes.now) }
{
    if bytes.is_empty() {
        write_whole(err, b"-")
    } else {
        write_pairs(bytes, err)
    }
}

/// Writes bytes as pairs of hexadecimal digits.
fn write_pairs<E: Sink>(bytes: &[u8], err: &mut E) -> Result<(), Down>
    ensures { WritesAll (E.seen err.old) (E.seen err.new) result (flat_map hex_pair bytes.now) }
{
    for byte in bytes {
        write_whole(err, &hex_pair(*byte))?;
    }
    Ok(())
}
