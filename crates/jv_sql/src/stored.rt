//! The first part of a key as a signed number of the database, in the same order.
ghost use Rattle.std.specs.Prelude.{◌≡◌, ◌^◌, pos, ◌+ℤ◌};

/// Half of the numbers of 64 bits.
const HALF: u64 = 1 << 63;

/// The number that a row has in place of the first part of its key: 2^63 less, so that signed numbers go as the parts do.
pub(crate) fn stored(a: u64) -> i64
    ensures { result +ℤ pos (2 ^ 63) ≡ pos a }
{
    if a >= HALF {
        (a - HALF) as i64
    } else {
        -((HALF - 1 - a) as i64) - 1
    }
}

/// The first part of the key of a row that has this number.
pub(crate) fn read(stored: i64) -> u64
    ensures { pos result ≡ stored +ℤ pos (2 ^ 63) }
{
    if stored >= 0 {
        stored as u64 + HALF
    } else {
        HALF - 1 - (-(stored + 1)) as u64
    }
}
