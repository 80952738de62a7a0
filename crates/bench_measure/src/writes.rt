//! Bytes that a client writes, one write after another.
ghost use Rattle.std.specs.Prelude.{◌≡◌, ◌<◌, ◌^◌, length};

use jv_model::{Bytes, Down, MAX_DATA, WINDOW, copied};
use jv_pending::{Pending, PendingFault};
use std::alloc::Global;

/// The file that is written.
const INODE: u64 = 2;

/// The bytes of each write.
const BYTES: [u8; 16] = *b"sixteen bytes ..";

/// How far scattered writes lie apart, and how many places there are for them.
const APART: u64 = 4096;

const PLACES: u32 = 1 << 20;

/// An odd number, so that its multiples go over all places, and jump about.
const STRIDE: u32 = 0x9E37_79B1;

/// Where the first of the backward writes ends.
const TOP: u64 = 1 << 38;

/// Where the writes lie.
#[derive(Clone, Copy)]
pub enum Order {
    /// Each after the last.
    Sequential,
    /// Each far from the last.
    Scattered,
    /// Each before the last.
    Backward,
    /// All across one border of windows, with `MAX_DATA` bytes on each side.
    Border,
}

impl Order {
    /// Where the write of a number begins.
    fn place(self, number: u32) -> u64
        ensures { result < 2 ^ 39 }
    {
        match self {
            Order::Sequential => u64::from(number) * 16,
            Order::Scattered => u64::from(number.wrapping_mul(STRIDE) % PLACES) * APART,
            Order::Backward => TOP - (u64::from(number) + 1) * 16,
            Order::Border => WINDOW - 8,
        }
    }
}

/// Writes `MAX_DATA` bytes on each side of the first border of windows.
fn fill_sides(alloc: Global, pending: &mut Pending) -> Result<(), PendingFault> {
    let Ok(side) = vec![in alloc; 0; MAX_DATA as usize] else {
        return Err(PendingFault::Memory);
    };
    let side = Bytes::from_vec(side);
    pending.write(INODE, WINDOW - MAX_DATA, &side)?;
    pending.write(INODE, WINDOW, &side)
}

fn written(alloc: Global, bytes: &Bytes, order: Order, count: u32) -> Result<Pending, PendingFault>
    requires { length bytes.now ≡ 16 }
{
    let mut pending = Pending::new(alloc, u64::MAX);
    if let Order::Border = order {
        fill_sides(alloc, &mut pending)?;
    }
    for number in 0..count {
        pending.write(INODE, order.place(number), bytes)?;
    }
    Ok(pending)
}

/// Writes 16 bytes `count` times. Returns the number of bytes that are pending.
pub fn pending(alloc: Global, order: Order, count: u32) -> Result<u64, Down> {
    let bytes = copied(alloc, &BYTES)?;
    match written(alloc, &bytes, order, count) {
        Ok(pending) => Ok(pending.bytes()),
        Err(_) => Err(Down::Memory),
    }
}
