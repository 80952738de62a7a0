//! Blocks whose bytes follow from their slice and place.
ghost use Rattle.std.specs.Prelude.{◌≡◌, ◌<◌, ◌^◌, length, IfOk};

use jv_model::{BlockId, MIN_BLOCK};
use std::alloc::{AllocError, Global};

/// The length of blocks.
pub const BLOCK: u32 = MIN_BLOCK;

/// The byte at a place of a slice.
pub fn byte(id: u64, place: u64) -> u8 {
    ((40 * (id % 4) + place % 91) % 251 + 1) as u8
}

/// The bytes of a block, each by its place in the slice.
pub fn block_bytes(alloc: Global, block: BlockId) -> Result<Vec<u8>, AllocError>
    ensures { IfOk result (λ bytes. length bytes.items ≡ block.size) }
{
    let mut bytes = vec![in alloc; 0; block.size as usize]?;
    put_bytes(
        &mut bytes,
        block.id,
        u64::from(block.index) * u64::from(BLOCK),
    );
    Ok(bytes)
}

fn put_bytes(bytes: &mut [u8], id: u64, first: u64)
    requires { first < 2 ^ 60 }
{
    for at in 0..bytes.len() {
        bytes[at] = byte(id, first + at as u64);
    }
}
