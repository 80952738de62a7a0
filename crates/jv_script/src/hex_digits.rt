//! Pairs of hexadecimal digits, read.
ghost use Rattle.std.specs.Prelude.{◌≡◌, ◌&&◌, ◌*◌, ◌<◌, true, length};
ghost use Rattle.std.specs.List.{list_all};
ghost use Rattle.jv_model.specs.promise.script.Spelling.{is_hex_digit, hex_value, bytes_of_digits, byte_of};
ghost use Rattle.jv_model.specs.promise.script.Grammar.{is_pairs};
ghost use Rattle.jv_model.specs.promise.Optional.{provided};

/// Whether a text is one byte or more as pairs of digits.
pub(crate) fn is_pairs(text: &[u8]) -> bool
    ensures { result ≡ is_pairs text.now }
{
    text.len() > 0 && text.len() % 2 == 0 && all_hex_digits(text)
}

// Looks at every digit, with no way out of the loop: the compiler then tests many at a time.
fn all_hex_digits(digits: &[u8]) -> bool
    ensures { result ≡ list_all is_hex_digit digits.now }
{
    let mut all = true;
    for digit in digits {
        all &= is_hex_digit(*digit);
    }
    all
}

// Tests all three ranges by `&`, so that the loop above has no branch.
pub(crate) fn is_hex_digit(c: u8) -> bool
    ensures { result ≡ is_hex_digit c }
{
    let decimal = (b'0' <= c) & (c <= b'9');
    let upper = (b'A' <= c) & (c <= b'F');
    let lower = (b'a' <= c) & (c <= b'f');
    decimal | upper | lower
}

// `hex::decode` branches at each digit, which takes five times as long on random bytes.
/// Writes the bytes of pairs of digits.
pub(crate) fn decode_into(digits: &[u8], bytes: &mut [u8])
    requires length { length digits.now ≡ 2 * length bytes.old }
    requires digits { list_all is_hex_digit digits.now ≡ true }
    ensures { bytes.new ≡ bytes_of_digits digits.now }
{
    for i in 0..bytes.len() {
        bytes[i] = hex_value(digits[2 * i]) * 16 + hex_value(digits[2 * i + 1]);
    }
}

// The value of each byte as a digit, or 255.
const VALUES: [u8; 256] = [
    255, 255, 255, 255, 255, 255, 255, 255, 255, 255, 255, 255, 255, 255, 255, 255, 255, 255, 255,
    255, 255, 255, 255, 255, 255, 255, 255, 255, 255, 255, 255, 255, 255, 255, 255, 255, 255, 255,
    255, 255, 255, 255, 255, 255, 255, 255, 255, 255, 0, 1, 2, 3, 4, 5, 6, 7, 8, 9, 255, 255, 255,
    255, 255, 255, 255, 10, 11, 12, 13, 14, 15, 255, 255, 255, 255, 255, 255, 255, 255, 255, 255,
    255, 255, 255, 255, 255, 255, 255, 255, 255, 255, 255, 255, 255, 255, 255, 255, 10, 11, 12, 13,
    14, 15, 255, 255, 255, 255, 255, 255, 255, 255, 255, 255, 255, 255, 255, 255, 255, 255, 255,
    255, 255, 255, 255, 255, 255, 255, 255, 255, 255, 255, 255, 255, 255, 255, 255, 255, 255, 255,
    255, 255, 255, 255, 255, 255, 255, 255, 255, 255, 255, 255, 255, 255, 255, 255, 255, 255, 255,
    255, 255, 255, 255, 255, 255, 255, 255, 255, 255, 255, 255, 255, 255, 255, 255, 255, 255, 255,
    255, 255, 255, 255, 255, 255, 255, 255, 255, 255, 255, 255, 255, 255, 255, 255, 255, 255, 255,
    255, 255, 255, 255, 255, 255, 255, 255, 255, 255, 255, 255, 255, 255, 255, 255, 255, 255, 255,
    255, 255, 255, 255, 255, 255, 255, 255, 255, 255, 255, 255, 255, 255, 255, 255, 255, 255, 255,
    255, 255, 255, 255, 255, 255, 255, 255, 255, 255, 255, 255, 255, 255, 255, 255, 255, 255, 255,
    255, 255, 255,
];

/// The byte of two digits. None where one of them is no digit. The table takes half the time of tests for pairs that
/// are read one by one.
pub(crate) fn byte_of_pair(high: u8, low: u8) -> Option<u8>
    ensures { result ≡ provided (is_hex_digit high && is_hex_digit low) (byte_of high low) }
{
    let high = VALUES[high as usize];
    let low = VALUES[low as usize];
    if (high < 16) & (low < 16) {
        Some(high * 16 + low)
    } else {
        None
    }
}

/// The byte of two digits.
pub(crate) fn byte_of(high: u8, low: u8) -> u8
    ensures { is_hex_digit high ≡ true → is_hex_digit low ≡ true → result ≡ byte_of high low }
{
    hex_value(high) * 16 + hex_value(low)
}

// The value of a digit. The code of `0` ends in four zero bits, that of `A` and `a` in a one.
fn hex_value(c: u8) -> u8
    ensures value { is_hex_digit c ≡ true → result ≡ hex_value c }
    ensures small { result < 16 }
{
    (c % 16 + c / 64 * 9) % 16
}
