//! Repeats, which are equal bytes in a row. A long one has four bytes or more, and is printed as a part of its own.
ghost use Rattle.std.specs.Prelude.{◌≡◌, ◌<◌, ◌≤◌, ◌-◌, false, true, length};
ghost use Rattle.jv_script.specs.declared.repeats.TheConstants.{BLOCK, BEYOND};
ghost use Rattle.jv_script.specs.Printing.{begins_long, HasNoLongBefore, IsFirstRepeat, IsFrontCount, IsPlainFront};

/// The bytes that are tested together for a long repeat.
const BLOCK: usize = 64;

/// The bytes of the shortest long repeat.
const LONG: usize = 4;

/// With this many bytes beyond those a count has two digits.
const FEW_MORE: usize = 6;

/// The bytes after its first that make a repeat a long one.
const BEYOND: usize = 3;

/// Whether a long repeat begins at the first byte. Counts the equal neighbours: `&&` would become a branch each, and the
/// processor can't guess where short repeats end.
pub(crate) fn begins_long_repeat(bytes: &[u8]) -> bool
    ensures { result ≡ begins_long bytes.now }
{
    match bytes {
        [a, b, c, d, ..] => (*a == *b) as u8 + (*b == *c) as u8 + (*c == *d) as u8 == 3,
        _ => false,
    }
}

/// The bytes of the long repeat that begins at the first byte.
pub(crate) fn long_repeat_length(bytes: &[u8]) -> usize
    requires { begins_long bytes.now ≡ true }
    ensures { IsFirstRepeat bytes.now result }
{
    let (_, next) = bytes.split_at(LONG);
    if next.len() >= FEW_MORE {
        let more = front_count(bytes[0], next.split_at(FEW_MORE).0);
        if more < FEW_MORE {
            return LONG + more;
        }
    }
    repeat_length(bytes)
}

// How many bytes at the front are this one. Looks at every byte, since leaving the loop would be a branch that the
// processor can't guess.
fn front_count(byte: u8, bytes: &[u8]) -> usize
    ensures { IsFrontCount byte bytes.now result }
{
    let mut same = true;
    let mut count = 0;
    for next in bytes {
        same &= *next == byte;
        count += same as usize;
    }
    count
}

// The bytes of the repeat that begins at the first byte.
fn repeat_length(bytes: &[u8]) -> usize
    requires { 0 < length bytes.now }
    ensures { IsFirstRepeat bytes.now result }
{
    let first = bytes[0];
    for (i, byte) in bytes.iter().enumerate() {
        if *byte != first {
            return i;
        }
    }
    bytes.len()
}

/// The bytes before the first long repeat, or all where there is none.
pub(crate) fn plain_length(bytes: &[u8]) -> usize
    requires some { 0 < length bytes.now }
    requires plain { begins_long bytes.now ≡ false }
    ensures { IsPlainFront bytes.now result }
{
    let mut end = 1;
    while end < bytes.len() {
        let rest = bytes.split_at(end).1;
        if begins_long_repeat(rest) {
            return end;
        }
        end += plain_step(end, rest);
    }
    bytes.len()
}

// How many of the bytes from a place on are known to be plain by one test: a block at each 64th place, or one byte.
fn plain_step(place: usize, bytes: &[u8]) -> usize
    requires some { 0 < length bytes.now }
    requires plain { begins_long bytes.now ≡ false }
    ensures some { 0 < result }
    ensures within { result ≤ length bytes.now }
    ensures plain { HasNoLongBefore result bytes.now }
{
    if place % BLOCK == BLOCK - 1 && is_plain_block(bytes) {
        BLOCK
    } else {
        1
    }
}

// Whether no long repeat begins in the block at the front, and there are bytes after it.
fn is_plain_block(bytes: &[u8]) -> bool
    ensures more { result ≡ true → BLOCK < length bytes.now }
    ensures plain { result ≡ true → HasNoLongBefore BLOCK bytes.now }
{
    if bytes.len() <= BLOCK + BEYOND {
        return false;
    }
    let (seen, _) = bytes.split_at(BLOCK + BEYOND);
    !may_have_long_repeat(seen)
}

// False only where no four bytes side by side are equal. Tests each four: the compiler then takes many at a time.
fn may_have_long_repeat(bytes: &[u8]) -> bool
    ensures { result ≡ false → HasNoLongBefore (length bytes.now - BEYOND) bytes.now }
{
    let mut found = false;
    for i in BEYOND..bytes.len() {
        found |= (bytes[i - 3] == bytes[i - 2])
            & (bytes[i - 2] == bytes[i - 1])
            & (bytes[i - 1] == bytes[i]);
    }
    found
}
