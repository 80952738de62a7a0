//! What the answers of a script's lines add up to.
ghost use Rattle.std.specs.Prelude.{◌≡◌, ◌++◌, sum, OnOk, IfOk};
ghost use Rattle.jv_model.specs.promise.script.Printed.{number_word};
ghost use Rattle.jv_script_drawn.specs.promise.Summary.{no_totals, with_reply, read_bytes, added, summary_line};

use itoa::Buffer;
use jv_model::{Bytes, Reply};
use std::alloc::{AllocError, Global};
use std::marker::Model;

/// Totals of answers, each of which saturates at 2^64 - 1.
#[derive(Debug, Drop)]
pub struct Totals {
    lines: u64,
    ok: u64,
    err: u64,
    bytes: u64,
    values: u64,
}

impl Model for Totals {
    ghost use Rattle.jv_script_drawn.specs.promise.Summary.{TotalsValue};

    ghost Value = { TotalsValue };

    ghost view = { λ t. record {
      lines = t.lines;
      ok = t.ok;
      err = t.err;
      bytes = t.bytes;
      values = t.values;
    } };
}

impl Totals {
    /// The totals of no answers. Takes no memory.
    pub fn new() -> Totals
        ensures { result ≡ no_totals }
    {
        Totals {
            lines: 0,
            ok: 0,
            err: 0,
            bytes: 0,
            values: 0,
        }
    }

    /// Counts an answer: a line, which was refused or not, and the bytes that a read returned with their values.
    pub fn count(&mut self, reply: &Reply)
        ensures { self.new ≡ with_reply self.old reply.now }
    {
        let bytes = read_bytes(reply);
        self.lines = self.lines.saturating_add(1);
        if matches!(reply, Reply::Refused(_)) {
            self.err = self.err.saturating_add(1);
        } else {
            self.ok = self.ok.saturating_add(1);
        }
        self.bytes = self.bytes.saturating_add(bytes.len() as u64);
        self.values = add_values(self.values, bytes);
    }

    /// The summary `lines L ok K err R bytes T sum S`, ended by a line feed. The only error is out of memory.
    pub fn line(&self, alloc: Global) -> Result<Bytes, AllocError>
        ensures { IfOk result (λ line. line ≡ summary_line self.now) }
    {
        let mut text = Vec::new(alloc);
        push_total(&mut text, b"lines", self.lines)?;
        push_total(&mut text, b" ok", self.ok)?;
        push_total(&mut text, b" err", self.err)?;
        push_total(&mut text, b" bytes", self.bytes)?;
        push_total(&mut text, b" sum", self.values)?;
        text.push(b'\n')?;
        Ok(Bytes::from_vec(text))
    }
}

/// The bytes that a read returned: none for any other answer.
fn read_bytes(reply: &Reply) -> &[u8]
    ensures { result.now ≡ read_bytes reply.now }
{
    match reply {
        Reply::Data(bytes) => bytes.as_slice(),
        _ => &[],
    }
}

/// A sum with the values of bytes added.
fn add_values(before: u64, bytes: &[u8]) -> u64
    ensures { result ≡ added before (sum bytes.now) }
{
    let mut total = before;
    for byte in bytes {
        total = total.saturating_add(u64::from(*byte));
    }
    total
}

/// Adds a name, a space and a number to a text.
fn push_total(text: &mut Vec<u8>, name: &[u8], number: u64) -> Result<(), AllocError>
    ensures { OnOk result (text.new.items ≡ text.old.items ++ name.now ++ number_word number) }
{
    text.extend_from_slice(name)?;
    text.push(b' ')?;
    let mut buffer = Buffer::new();
    text.extend_from_slice(buffer.format(number).as_bytes())
}
