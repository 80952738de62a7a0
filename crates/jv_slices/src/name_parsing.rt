ghost use Rattle.std.specs.Prelude.{◌≡◌, ◌↔◌, ℕ, ◌<◌, ◌≤◌, ◌-◌, ◌^◌, ◌++◌, [], ◌∷◌, true, false, List, length, slice_index, IfSome, IsSomeAnd, IsTrue, Some, codes, decimal};
ghost use Rattle.jv_model.specs.declared.slice.BlockId.{BlockId as BlockSeen};
ghost use Rattle.jv_model.specs.promise.blocks.BlockNames.{IsBlock, IsBlockName, slice_folder, hashed_folder, plain_folder};
ghost use Rattle.jv_model.specs.promise.script.Spelling.{is_decimal_digit};
ghost use Rattle.jv_slices.specs.NameParts.{Strips, numbers_of};

use crate::digits::upper_pair;
use itoa::Buffer;
use jv_model::{BlockId, MAX_BLOCKS, Setting};

/// The block of a volume that a text names, or `None` where it is no name of a block of that volume. Takes no memory.
#[tactic(auto, unfolding(jv_model::specs::promise::blocks::BlockNames::block_name_of))]
pub fn parse_block_name(setting: &Setting, text: &[u8]) -> Option<BlockId>
    ensures { (block : BlockSeen) → (result ≡ Some block) ↔ IsBlockName setting.now block text.now }
{
    let block_size = setting.block;
    let (front, block) = read_numbers(text)?;
    let folder = strip_end(front, b"/")?;
    let volume = strip_folder(folder, setting.hash, block.id)?;
    let name = strip_end(volume, b"/chunks/")?;
    if is_same(name, setting.name.as_slice()) && is_block(block_size, block) {
        Some(block)
    } else {
        None
    }
}

fn is_same(text: &[u8], other: &[u8]) -> bool
    ensures { IsTrue result ↔ (text.now ≡ other.now) }
{
    text == other
}

fn is_block(block_size: u32, block: BlockId) -> bool
    ensures { IsTrue result ↔ IsBlock block_size block }
{
    block.id >= 1 && block.index < MAX_BLOCKS && block.size >= 1 && block.size <= block_size
}

/// The text without an end that it has.
fn strip_end<'a>(text: &'a [u8], end: &[u8]) -> Option<&'a [u8]>
    ensures { Strips text.now end.now result }
{
    text.strip_suffix(end)
}

/// The text without the decimal digits of a number, where it ends in them.
fn strip_decimal(text: &[u8], number: u64) -> Option<&[u8]>
    ensures { Strips text.now (decimal number) result }
{
    let mut buffer = Buffer::new();
    strip_end(text, buffer.format(number).as_bytes())
}

/// The text without the folder of a slice, where it ends in it.
fn strip_folder(text: &[u8], hash: u8, id: u64) -> Option<&[u8]>
    ensures { Strips text.now (slice_folder hash id) result }
{
    if hash == 1 {
        strip_hashed(text, id)
    } else {
        strip_plain(text, id)
    }
}

fn strip_hashed(text: &[u8], id: u64) -> Option<&[u8]>
    ensures { Strips text.now (hashed_folder id) result }
{
    let slash = strip_decimal(text, id / 1000 / 1000)?;
    let pair = strip_end(slash, b"/")?;
    strip_end(pair, &upper_pair((id % 256) as u8))
}

fn strip_plain(text: &[u8], id: u64) -> Option<&[u8]>
    ensures { Strips text.now (plain_folder id) result }
{
    let slash = strip_decimal(text, id / 1000)?;
    let millions = strip_end(slash, b"/")?;
    strip_decimal(millions, id / 1000 / 1000)
}

/// The numbers that a name ends in, and the text before them.
fn read_numbers(text: &[u8]) -> Option<(&[u8], BlockId)>
    ensures found { IfSome result (λ r. text.now ≡ r.0.now ++ numbers_of r.1) }
    ensures each { (front : List ℕ) (mark : ℕ) (block : BlockSeen) → is_decimal_digit mark ≡ false →
        block.id < 2 ^ 64 → block.index < 2 ^ 32 → block.size < 2 ^ 32 →
        text.now ≡ front ++ mark ∷ [] ++ numbers_of block →
        IsSomeAnd result (λ r. (r.0.now ≡ front ++ mark ∷ []) × (r.1 ≡ block)) }
{
    let (indexed, size) = read_marked(text)?;
    let (sliced, index) = read_marked(indexed)?;
    let (front, id) = read_number(sliced)?;
    Some((front, BlockId { id, index, size }))
}

/// The number that a text ends in behind `_`, and the text before that.
fn read_marked(text: &[u8]) -> Option<(&[u8], u32)>
    ensures found { IfSome result (λ r. text.now ≡ r.0.now ++ codes "_" ++ decimal r.1) }
    ensures each { (front : List ℕ) (n : ℕ) → n < 2 ^ 32 →
        text.now ≡ front ++ codes "_" ++ decimal n →
        IsSomeAnd result (λ r. (r.0.now ≡ front) × (r.1 ≡ n)) }
{
    let (marked, number) = read_number(text)?;
    let front = strip_end(marked, b"_")?;
    let small = u32::try_from(number).ok()?;
    Some((front, small))
}

/// The number that a text ends in, in its one spelling, and the text before its digits.
fn read_number(text: &[u8]) -> Option<(&[u8], u64)>
    ensures found { IfSome result (λ r. text.now ≡ r.0.now ++ decimal r.1) }
    ensures each { (front : List ℕ) (mark n : ℕ) → is_decimal_digit mark ≡ false → n < 2 ^ 64 →
        text.now ≡ front ++ mark ∷ [] ++ decimal n →
        IsSomeAnd result (λ r. (r.0.now ≡ front ++ mark ∷ []) × (r.1 ≡ n)) }
{
    let (front, digits) = text.split_at(digits_start(text));
    let number = parse_number(digits)?;
    Some((front, number))
}

/// Where the digits begin that a text ends in.
fn digits_start(text: &[u8]) -> usize
    ensures within { result ≤ length text.now }
    ensures digits { (k : ℕ) → result ≤ k → k < length text.now →
        is_decimal_digit (slice_index text.now k) ≡ true }
    ensures first { 0 < result → is_decimal_digit (slice_index text.now (result - 1)) ≡ false }
{
    let mut start = text.len();
    while start > 0 && is_digit(text[start - 1]) {
        start -= 1;
    }
    start
}

fn is_digit(byte: u8) -> bool
    ensures { result ≡ is_decimal_digit byte }
{
    byte >= b'0' && byte <= b'9'
}

/// The number whose one spelling the digits are.
fn parse_number(digits: &[u8]) -> Option<u64>
    ensures spelled { IfSome result (λ n. digits.now ≡ decimal n) }
    ensures each { (n : ℕ) → n < 2 ^ 64 → digits.now ≡ decimal n → result ≡ Some n }
{
    let text = str::from_utf8(digits).ok()?;
    let number = text.parse::<u64>().ok()?;
    let mut buffer = Buffer::new();
    if buffer.format(number).as_bytes() == digits {
        Some(number)
    } else {
        None
    }
}
