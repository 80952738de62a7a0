//! The blocks of slices.
use crate::stage::Stock;
use crate::whole::stop::{Stop, expect};
use crate::whole::tables::Tables;
use jv_model::{Bytes, Name, Setting, copied};
use jv_outside::{Object, Staged};
use jv_slices::{block_len, block_name, blocks_of, parse_block_name};
use std::alloc::{AllocError, Global};
use std::collections::BTreeSet;

/// Objects and staged blocks by their names and lengths in bytes.
type There = BTreeSet<(Name, usize)>;

/// Each block of each slice is an object, or staged by a client. What has the name of a block of the volume is of a slice
/// below the next one, and has the bytes of all that has its name.
pub fn check_blocks(alloc: Global, tables: &Tables, stock: &Stock) -> Result<(), Stop> {
    check_there(alloc, tables, stock)?;
    check_numbers(tables, stock)?;
    check_copies(tables, stock)
}

fn check_there(alloc: Global, tables: &Tables, stock: &Stock) -> Result<(), Stop> {
    let mut there = BTreeSet::new(alloc);
    check_among(alloc, tables, stock, &mut there)
}

fn check_among(
    alloc: Global,
    tables: &Tables,
    stock: &Stock,
    there: &mut There,
) -> Result<(), Stop> {
    add_objects(alloc, there, stock.objects.as_slice())?;
    add_staged(alloc, there, stock.staged.as_slice())?;
    for (id, slice) in tables.slices.iter() {
        expect(
            has_blocks_of(alloc, there, &tables.setting, *id, slice.size)?,
            "a block of a slice is neither an object nor staged",
        )?;
    }
    Ok(())
}

fn add_objects(alloc: Global, there: &mut There, objects: &[Object]) -> Result<(), AllocError> {
    for object in objects {
        let name = copied(alloc, object.name.as_slice())?;
        there.insert((name, object.bytes.len()))?;
    }
    Ok(())
}

fn add_staged(alloc: Global, there: &mut There, staged: &[Staged]) -> Result<(), AllocError> {
    for block in staged {
        let name = copied(alloc, block.name.as_slice())?;
        there.insert((name, block.bytes.len()))?;
    }
    Ok(())
}

/// Whether each block of a slice is there.
fn has_blocks_of(
    alloc: Global,
    there: &There,
    setting: &Setting,
    id: u64,
    size: u32,
) -> Result<bool, AllocError> {
    let block = setting.block.max(1);
    for index in 0..blocks_of(size, block) {
        let len = block_len(size, block, index);
        let name = block_name(alloc, setting, id, index, len)?;
        if !there.contains(&(name, len as usize)) {
            return Ok(false);
        }
    }
    Ok(true)
}

fn check_numbers(tables: &Tables, stock: &Stock) -> Result<(), Stop> {
    for object in stock.objects.as_slice() {
        expect(
            is_of_given(tables, &object.name),
            "the slice of an object isn't below the next one",
        )?;
    }
    for block in stock.staged.as_slice() {
        expect(
            is_of_given(tables, &block.name),
            "the slice of a staged block isn't below the next one",
        )?;
    }
    Ok(())
}

/// Whether a name is that of no block of the volume, or of one whose slice is below the next one.
fn is_of_given(tables: &Tables, name: &Name) -> bool {
    match parse_block_name(&tables.setting, name.as_slice()) {
        Some(block) => block.id < tables.counters.slice,
        None => true,
    }
}

/// All that has the name of a staged block of the volume has its bytes.
fn check_copies(tables: &Tables, stock: &Stock) -> Result<(), Stop> {
    for block in stock.staged.as_slice() {
        let is_block = parse_block_name(&tables.setting, block.name.as_slice()).is_some();
        expect(
            !is_block || is_alike(stock, block),
            "copies of one block have different bytes",
        )?;
    }
    Ok(())
}

fn is_alike(stock: &Stock, block: &Staged) -> bool {
    let mut objects = stock.objects.as_slice().iter();
    let mut staged = stock.staged.as_slice().iter();
    objects.all(|object| agrees(block, &object.name, &object.bytes))
        && staged.all(|other| agrees(block, &other.name, &other.bytes))
}

/// Whether a name is another one than a block's, or these are the block's bytes.
fn agrees(block: &Staged, name: &Name, bytes: &Bytes) -> bool {
    block.name.as_slice() != name.as_slice() || block.bytes.as_slice() == bytes.as_slice()
}
