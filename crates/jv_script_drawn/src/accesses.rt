//! The operations of a drawn script: what each of its lines does.
ghost use Rattle.std.specs.Prelude.{◌≡◌, ℕ, ◌-◌, ◌<◌, Some, slice_get, IfOk};
ghost use Rattle.jv_script_drawn.specs.promise.Script.{next_state, state, create_line, access, script, on_client};

use itoa::Buffer;
use jv_model::{Bytes, Op, Path};
use std::alloc::{AllocError, Global};

/// The lines of a script: a mount, then a `create` for each file, the accesses, and a `flush` for each file.
pub const LINES: u32 = 4_033;

/// The files. Their handles go from 1 to this number.
pub const FILES: u32 = 16;

/// The reads and writes.
pub const ACCESSES: u32 = 4_000;

/// Every access whose number, from 1 on, is a multiple of this one is a read.
pub const READ_EVERY: u32 = 4;

/// The most bytes of an access.
pub const MAX_LENGTH: u64 = 4_096;

/// An access begins at a position below this one: 128 MiB, the end of the second window.
pub const POSITIONS: u64 = 134_217_728;

/// The permission bits of the files: 0644.
pub const MODE: u16 = 420;

/// A state is multiplied by this number, and [`INCREMENT`] is added to it, both modulo 2^64 (Knuth, MMIX).
pub const MULTIPLIER: u64 = 6_364_136_223_846_793_005;

/// See [`MULTIPLIER`].
pub const INCREMENT: u64 = 1_442_695_040_888_963_407;

/// The state for the line at an index, given the one for the line before it. The seed is the state until the first access.
pub(crate) fn state_at(index: u32, before: u64) -> u64
    ensures { (seed : ℕ) → before ≡ state seed (index - FILES - 1) →
        result ≡ state seed (index - FILES) }
{
    if index <= FILES {
        before
    } else {
        next_state(before)
    }
}

fn next_state(x: u64) -> u64
    ensures { result ≡ next_state x }
{
    x.wrapping_mul(MULTIPLIER).wrapping_add(INCREMENT)
}

/// The operation of the line at an index, given the state for that line.
pub(crate) fn operation_at(alloc: Global, index: u32, x: u64) -> Result<Op, AllocError>
    requires { index < LINES }
    ensures { IfOk result (λ op. (seed : ℕ) → x ≡ state seed (index - FILES) →
        slice_get (script seed) index ≡ Some (on_client op)) }
{
    if index == 0 {
        Ok(Op::Mount { writeback: false })
    } else if index <= FILES {
        create(alloc, index - 1)
    } else if index <= FILES + ACCESSES {
        access(alloc, index - FILES, x)
    } else {
        let handle = u64::from(index - FILES - ACCESSES);
        Ok(Op::Flush { handle })
    }
}

/// Makes the file `/gI`.
fn create(alloc: Global, i: u32) -> Result<Op, AllocError>
    ensures { IfOk result (λ op. op ≡ create_line i) }
{
    let mut path = Vec::from_slice(alloc, b"/g")?;
    let mut buffer = Buffer::new();
    path.extend_from_slice(buffer.format(i).as_bytes())?;
    Ok(Op::Create {
        path: Path::from_vec(path),
        mode: MODE,
    })
}

/// The access with a number, from 1 on, given its state.
fn access(alloc: Global, number: u32, x: u64) -> Result<Op, AllocError>
    ensures { IfOk result (λ op. op ≡ access number x) }
{
    // From the top: four bits for the handle, 27 for the position, twelve for the length, and eight for the value.
    let handle = (x >> 60) + 1;
    let offset = (x >> 20) % POSITIONS;
    let len = 1 + (x >> 8) % MAX_LENGTH;
    if number % READ_EVERY == 0 {
        return Ok(Op::Read {
            handle,
            offset,
            len: len as u32,
        });
    }
    let value = (x % 256) as u8;
    let bytes = vec![in alloc; value; len as usize]?;
    Ok(Op::Write {
        handle,
        offset,
        bytes: Bytes::from_vec(bytes),
    })
}
