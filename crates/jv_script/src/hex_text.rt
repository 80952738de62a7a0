//! Bytes as pairs of hexadecimal digits, printed.
ghost use Rattle.std.specs.Prelude.{◌≡◌, ◌*◌, ◌<◌, ◌++◌, OnOk, length};
ghost use Rattle.std.specs.List.{flat_map};
ghost use Rattle.jv_model.specs.promise.script.Printed.{hex_digit, hex_pair};

use std::alloc::AllocError;

/// Prints bytes, many digits at a time.
pub(crate) fn push_digits(text: &mut Vec<u8>, bytes: &[u8]) -> Result<(), AllocError>
    ensures { OnOk result (text.new.items ≡ text.old.items ++ flat_map hex_pair bytes.now) }
{
    let start = text.len();
    let digits = bytes.len().checked_mul(2).ok_or(AllocError)?;
    let end = start.checked_add(digits).ok_or(AllocError)?;
    text.resize(end, 0)?;
    encode_into(bytes, &mut text[start..]);
    Ok(())
}

// `hex::encode_to_slice` looks up each digit, which takes more than twice the instructions of computing many at a time.
/// Writes bytes as pairs of digits.
fn encode_into(bytes: &[u8], digits: &mut [u8])
    requires { length digits.old ≡ 2 * length bytes.now }
    ensures { digits.new ≡ flat_map hex_pair bytes.now }
{
    for i in 0..bytes.len() {
        digits[2 * i] = computed_digit(bytes[i] / 16);
        digits[2 * i + 1] = computed_digit(bytes[i] % 16);
    }
}

/// The two digits of a byte, each looked up: for few bytes that is the fastest.
pub fn hex_pair(byte: u8) -> [u8; 2]
    ensures { result ≡ hex_pair byte }
{
    [hex_digit(byte / 16), hex_digit(byte % 16)]
}

fn hex_digit(value: u8) -> u8
    requires { value < 16 }
    ensures { result ≡ hex_digit value }
{
    b"0123456789abcdef"[usize::from(value)]
}

// A digit that isn't looked up, so that the compiler computes many at a time.
fn computed_digit(value: u8) -> u8
    requires { value < 16 }
    ensures { result ≡ hex_digit value }
{
    if value < 10 {
        b'0' + value
    } else {
        b'a' - 10 + value
    }
}
