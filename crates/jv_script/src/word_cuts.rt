//! Parts of a text between the places of one byte.
ghost use Rattle.std.specs.Prelude.{◌≡◌, [], ◌∷◌, MatchOption};
ghost use Rattle.std.specs.Option.{option_copied};
ghost use Rattle.memchr.specs.Find.{is_byte, IsFirstByte};
ghost use Rattle.jv_model.specs.promise.Lists.{parted};
ghost use Rattle.jv_script.specs.Reading.{parts_after, words_left};

use memchr::memchr;

/// The places that are looked at one by one before `memchr` is called.
const NEAR: usize = 16;

/// The part before the first separator, and the text after that separator where there is one.
pub(crate) fn cut(text: &[u8], separator: u8) -> (&[u8], Option<&[u8]>)
    ensures { parted separator text.now
        ≡ result.0.now ∷ parts_after separator (option_copied result.1) }
{
    match place_of(separator, text) {
        Some(end) => (&text[..end], Some(&text[end + 1..])),
        None => (text, None),
    }
}

// The first place of a byte. Most are near, and are found sooner one by one than `memchr` begins.
fn place_of(byte: u8, text: &[u8]) -> Option<usize>
    ensures { IsFirstByte (is_byte byte) text.now result }
{
    let near = text.len().min(NEAR);
    for i in 0..near {
        if text[i] == byte {
            return Some(i);
        }
    }
    let far = memchr(byte, &text[near..])?;
    Some(near + far)
}

/// The next word and the words after it, if a word is left.
pub(crate) fn next_word(rest: Option<&[u8]>) -> Option<(&[u8], Option<&[u8]>)>
    ensures { MatchOption result (words_left rest.entry ≡ [])
        (λ r. words_left rest.entry ≡ r.0.now ∷ words_left r.1) }
{
    match rest {
        None => None,
        Some(text) => Some(cut(text, b' ')),
    }
}
