ghost use Rattle.std.specs.Prelude.{◌≤◌, IfSome, ◌≡◌, ◌||◌, ◌-◌, length, option_map};
ghost use Rattle.jv_model.specs.promise.script.Spelling.{is_numeral};
ghost use Rattle.jv_model.specs.promise.rows.RowGrammar.{is_block_length};
ghost use Rattle.jv_cmd.specs.promise.Values.{number_of_digits, number_within, digits_of, unit_of, block_size_of, place_of};

use jv_model::options::MAX_DIGITS;
use jv_model::{KIB, MAX_BLOCK, MIB};
use jv_rows::allows_block;
use jv_script::is_numeral;

/// What comes before the path in the URL of a volume.
const SCHEME: &[u8] = b"sqlite3://";

/// The number of a text of at most [`MAX_DIGITS`] decimal digits without a leading zero.
#[tactic(auto, unfolding(crate::specs::promise::Values::number_of_digits))]
pub(crate) fn number(text: &[u8]) -> Option<u64>
    ensures { result ≡ number_of_digits text.now }
{
    if !is_numeral(text) || text.len() > MAX_DIGITS {
        return None;
    }
    let mut number: u64 = 0;
    for digit in text {
        number = number * 10 + u64::from(*digit - b'0');
    }
    Some(number)
}

/// A number from `least` to `most`.
#[tactic(auto, unfolding(crate::specs::promise::Values::number_within))]
pub(crate) fn number_within(least: u64, most: u64, text: &[u8]) -> Option<u64>
    ensures value { result ≡ number_within least most text.now }
    ensures range { IfSome result (λ n. n ≤ most) }
{
    let number = number(text)?;
    if number < least || number > most {
        return None;
    }
    Some(number)
}

/// The length of a block in bytes, whose text counts KiB, or with a suffix K or M.
#[tactic(auto, unfolding(crate::specs::promise::Values::block_size_of))]
pub(crate) fn block_size(text: &[u8]) -> Option<u32>
    ensures { result ≡ block_size_of text.now }
{
    let bytes = number(digits(text))?.checked_mul(unit(text))?;
    if !is_block_size(bytes) {
        return None;
    }
    Some(bytes as u32)
}

#[tactic(auto, unfolding(crate::specs::promise::Values::digits_of))]
fn digits(text: &[u8]) -> &[u8]
    ensures { result.now ≡ digits_of text.now }
{
    match text.last() {
        Some(b'K' | b'M') => &text[..text.len() - 1],
        _ => text,
    }
}

#[tactic(auto, unfolding(crate::specs::promise::Values::unit_of))]
fn unit(text: &[u8]) -> u64
    ensures { result ≡ unit_of text.now }
{
    match text.last() {
        Some(b'M') => MIB,
        _ => KIB,
    }
}

#[tactic(auto, using(crate::proofs::asked::ValuesLaws::large_is_no_block))]
fn is_block_size(bytes: u64) -> bool
    ensures { result ≡ is_block_length bytes }
{
    bytes <= u64::from(MAX_BLOCK) && allows_block(bytes as u32)
}

/// The place of a volume's rows, from its URL.
#[tactic(auto, unfolding(crate::specs::promise::Values::place_of))]
pub(crate) fn place(url: &[u8]) -> Option<&[u8]>
    ensures { option_map (λ place. place.now) result ≡ place_of url.now }
{
    if url.len() <= 10 || &url[..10] != SCHEME {
        return None;
    }
    Some(&url[10..])
}
