//! Numbers in decimal and bytes in hexadecimal digits, as names and answers have them.
ghost use Rattle.std.specs.Prelude.{◌≡◌, ◌<◌, ◌++◌, decimal, OnOk};
ghost use Rattle.jv_model.specs.promise.blocks.BlockNames.{upper_digit, upper_pair};

use itoa::Buffer;
use std::alloc::AllocError;

/// Adds the decimal digits of a number, without leading zeros. The only error is out of memory, after which the text is
/// of no use.
#[tactic(auto, using(std::proofs::lemmas::Fmt::decimal_digit))]
pub fn push_decimal(text: &mut Vec<u8>, number: u64) -> Result<(), AllocError>
    ensures { OnOk result (text.new.items ≡ text.old.items ++ decimal number) }
{
    if number < 10 {
        text.push(b'0' + number as u8)?;
        return Ok(());
    }
    let mut buffer = Buffer::new();
    text.extend_from_slice(buffer.format(number).as_bytes())
}

/// The two upper-case hexadecimal digits of a byte, the high one first.
pub fn upper_pair(byte: u8) -> [u8; 2]
    ensures { result ≡ upper_pair byte }
{
    [upper_digit(byte / 16), upper_digit(byte % 16)]
}

fn upper_digit(value: u8) -> u8
    requires { value < 16 }
    ensures { result ≡ upper_digit value }
{
    b"0123456789ABCDEF"[value as usize]
}
