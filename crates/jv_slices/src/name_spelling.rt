ghost use Rattle.std.specs.Prelude.{◌≡◌, ◌++◌, IfOk, OnOk};
ghost use Rattle.jv_model.specs.promise.blocks.BlockNames.{block_name_of, slice_folder};

use crate::digits::{push_decimal, upper_pair};
use jv_model::{Name, Setting};
use std::alloc::{AllocError, Global};

/// Room for all of a name but the volume's, where the slice's number is below a million.
const ROOM: usize = 32;

/// The name of a block as an object: of the block at `index` of the slice `id`, which has `size` bytes. Any numbers are
/// spelled, also those of no block. The only error is out of memory.
#[tactic(auto, unfolding(jv_model::specs::promise::blocks::BlockNames::block_name_of))]
pub fn block_name(
    alloc: Global,
    setting: &Setting,
    id: u64,
    index: u32,
    size: u32,
) -> Result<Name, AllocError>
    ensures { IfOk result (λ name. name ≡ block_name_of setting.now id index size) }
{
    let mut text = Vec::with_capacity(alloc, setting.name.len() + ROOM)?;
    text.extend_from_slice(setting.name.as_slice())?;
    text.extend_from_slice(b"/chunks/")?;
    push_folder(&mut text, setting.hash, id)?;
    text.push(b'/')?;
    push_decimal(&mut text, id)?;
    text.push(b'_')?;
    push_decimal(&mut text, u64::from(index))?;
    text.push(b'_')?;
    push_decimal(&mut text, u64::from(size))?;
    Ok(Name::from_vec(text))
}

fn push_folder(text: &mut Vec<u8>, hash: u8, id: u64) -> Result<(), AllocError>
    ensures { OnOk result (text.new.items ≡ text.old.items ++ slice_folder hash id) }
{
    if hash == 1 {
        text.extend_from_slice(&upper_pair((id % 256) as u8))?;
        text.push(b'/')?;
        push_decimal(text, id / 1000 / 1000)
    } else {
        push_decimal(text, id / 1000 / 1000)?;
        text.push(b'/')?;
        push_decimal(text, id / 1000)
    }
}
