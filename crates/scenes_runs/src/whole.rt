//! Whether what stores have is a whole volume: rows that are those of one tree, with its counts and sums, lists that
//! agree with slices and files, each block of a slice, none of a slice that is still to come, and copies that are alike.
mod blocks;
mod counts;
mod entries;
mod files;
mod names;
mod nodes;
mod sessions;
mod slices;
mod stop;
mod tables;
mod trash;

use crate::stage::Stock;
use blocks::check_blocks;
use entries::check_entries;
use files::check_files;
use jv_model::FULL_COUNT;
use names::{Names, count_names};
use nodes::{check_nodes, check_rooted, check_sums, check_tops};
use sessions::{check_kept, check_sessions};
use slices::check_slices;
use std::alloc::{AllocError, Global};
use stop::{Stop, expect};
use tables::{Tables, read_tables};

/// The first thing that isn't whole of the volume that a stock has, if there is one. A stock without rows has no volume,
/// and so nothing that isn't whole.
pub fn flaw_of(alloc: Global, stock: &Stock) -> Result<Option<&'static str>, AllocError> {
    if stock.rows.is_empty() {
        return Ok(None);
    }
    match check_stock(alloc, stock) {
        Ok(()) => Ok(None),
        Err(Stop::Flaw(flaw)) => Ok(Some(flaw)),
        Err(Stop::OutOfMemory) => Err(AllocError),
    }
}

fn check_stock(alloc: Global, stock: &Stock) -> Result<(), Stop> {
    let tables = read_tables(alloc, &stock.rows)?;
    check_volume(alloc, &tables, stock)
}

fn check_volume(alloc: Global, tables: &Tables, stock: &Stock) -> Result<(), Stop> {
    check_counters(tables)?;
    check_tops(tables)?;
    check_sessions(tables)?;
    check_tree(alloc, tables)?;
    check_slices(alloc, tables)?;
    check_files(tables)?;
    check_blocks(alloc, tables, stock)
}

/// No next number is past the greatest count.
fn check_counters(tables: &Tables) -> Result<(), Stop> {
    let counters = &tables.counters;
    expect(
        counters.inode <= FULL_COUNT
            && counters.slice <= FULL_COUNT
            && counters.session <= FULL_COUNT,
        "a next number is past 2^62",
    )
}

fn check_tree(alloc: Global, tables: &Tables) -> Result<(), Stop> {
    let names = count_names(alloc, tables)?;
    check_named(alloc, tables, &names)
}

/// Checks what counts of entries have a part in, and what follows from that.
fn check_named(alloc: Global, tables: &Tables, names: &Names) -> Result<(), Stop> {
    check_entries(alloc, tables, names)?;
    check_kept(tables, names)?;
    check_nodes(tables, names)?;
    check_rooted(alloc, tables)?;
    check_sums(tables)
}
