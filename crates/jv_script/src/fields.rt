//! Clients, numbers and modes, read.
ghost use Rattle.std.specs.Prelude.{◌≡◌, ◌-◌, ◌<◌, ◌≤◌, if◌then◌else◌, Some, None, IfSome};
ghost use Rattle.std.specs.List.{list_all};
ghost use Rattle.jv_model.specs.promise.script.Spelling.{client_of, mode_of, number_of, length_of, is_numeral, is_decimal_digit, is_octal_digit};
ghost use Rattle.jv_model.specs.promise.script.Grammar.{number_up_to, seconds_of};

use jv_model::options::MAX_SHORT_NUMBER;
use jv_model::{ClientId, LAST_CLIENT, MAX_DATA, MAX_TICK};

/// The client of a letter, A to H.
#[tactic(auto, unfolding(jv_model::specs::promise::script::Spelling::client_of))]
pub(crate) fn client(letter: &[u8]) -> Option<ClientId>
    ensures { result ≡ client_of letter.now }
{
    let [letter] = letter else {
        return None;
    };
    if *letter < b'A' || *letter > b'A' + LAST_CLIENT {
        return None;
    }
    Some(ClientId(*letter - b'A'))
}

/// The mode of four octal digits.
#[tactic(auto, unfolding(jv_model::specs::promise::script::Spelling::mode_of))]
pub(crate) fn mode(digits: &[u8]) -> Option<u16>
    ensures { result ≡ mode_of digits.now }
{
    let [a, b, c, d] = digits else {
        return None;
    };
    let high = octal_value(*a)? * 8 + octal_value(*b)?;
    let low = octal_value(*c)? * 8 + octal_value(*d)?;
    Some(high * 64 + low)
}

fn octal_value(digit: u8) -> Option<u16>
    ensures value { result ≡ (if is_octal_digit digit then Some (digit - 48) else None) }
    ensures small { IfSome result (λ value. value < 8) }
{
    if digit < b'0' || digit > b'7' {
        return None;
    }
    Some(u16::from(digit - b'0'))
}

/// A decimal number without leading zeros, of 64 bits at most.
#[tactic(auto, unfolding(jv_model::specs::promise::script::Spelling::number_of))]
pub(crate) fn number(digits: &[u8]) -> Option<u64>
    ensures { result ≡ number_of digits.now }
{
    if !is_numeral(digits) {
        return None;
    }
    let mut number: u64 = 0;
    for digit in digits {
        number = number
            .checked_mul(10)?
            .checked_add(u64::from(*digit - b'0'))?;
    }
    Some(number)
}

/// Whether these are decimal digits, at least one, without a leading zero: `0` itself is a numeral, `01` isn't.
pub fn is_numeral(digits: &[u8]) -> bool
    ensures { result ≡ is_numeral digits.now }
{
    let Some((first, rest)) = digits.split_first() else {
        return false;
    };
    (*first != b'0' || rest.is_empty()) && all_decimal_digits(digits)
}

fn all_decimal_digits(digits: &[u8]) -> bool
    ensures { result ≡ list_all is_decimal_digit digits.now }
{
    digits.iter().all(|c| c.is_ascii_digit())
}

/// The length of a read in bytes.
#[tactic(auto, unfolding(jv_model::specs::promise::script::Spelling::length_of))]
pub(crate) fn read_length(digits: &[u8]) -> Option<u32>
    ensures { result ≡ length_of digits.now }
{
    let length = number(digits)?;
    if length > MAX_DATA {
        return None;
    }
    Some(length as u32)
}

/// A number of at most `limit`.
#[tactic(auto, unfolding(jv_model::specs::promise::script::Grammar::number_up_to))]
pub(crate) fn number_up_to(limit: u64, digits: &[u8]) -> Option<u64>
    ensures value { result ≡ number_up_to limit digits.now }
    ensures small { IfSome result (λ number. number ≤ limit) }
{
    let number = number(digits)?;
    if number > limit {
        return None;
    }
    Some(number)
}

/// A number of 32 bits at most.
pub(crate) fn short_number(digits: &[u8]) -> Option<u32>
    ensures { result ≡ number_up_to MAX_SHORT_NUMBER digits.now }
{
    let number = number_up_to(u64::from(MAX_SHORT_NUMBER), digits)?;
    Some(number as u32)
}

/// The seconds of a tick.
#[tactic(auto, unfolding(jv_model::specs::promise::script::Grammar::seconds_of))]
pub(crate) fn tick_seconds(digits: &[u8]) -> Option<u64>
    ensures { result ≡ seconds_of digits.now }
{
    let seconds = number_up_to(MAX_TICK, digits)?;
    if seconds == 0 {
        return None;
    }
    Some(seconds)
}
