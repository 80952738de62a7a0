use jv_model::{Dead, Down, List, Rec, Sequence, SliceRow, TxFault};
use jv_outside::{Batch, Keeper, NeverKeeper};
use jv_rows::{Draft, adjust, allows_list, next_list, put_list, put_slice, read_dead, read_slice};
use std::alloc::{AllocError, Global};

fn keeper_of(alloc: Global, stored: &Batch) -> Result<NeverKeeper, Down> {
    let mut keeper = NeverKeeper::new(alloc, Sequence::new(alloc));
    keeper.commit(stored)?;
    Ok(keeper)
}

/// One record of each of these slices; 0 is none.
fn records_of(alloc: Global, slices: &[u64]) -> Result<List, AllocError> {
    let mut list = List::new(alloc);
    for id in slices {
        list.push(Rec {
            pos: 0,
            id: *id,
            size: 5,
            off: 0,
            len: 1,
        })?;
    }
    Ok(list)
}

/// The slices 2, 3 and 4.
fn slices(alloc: Global) -> Result<Batch, AllocError> {
    let mut stored = Batch::new(alloc);
    put_slice(alloc, &mut stored, 2, &SliceRow { size: 5, count: 2 })?;
    put_slice(alloc, &mut stored, 3, &SliceRow { size: 6, count: 3 })?;
    put_slice(alloc, &mut stored, 4, &SliceRow { size: 7, count: 1 })?;
    Ok(stored)
}

fn keeper_of_slices(alloc: Global) -> Result<NeverKeeper, Down> {
    let stored = slices(alloc)?;
    keeper_of(alloc, &stored)
}

/// The changes that bring counts in line with a record of each slice that goes and of each that comes.
fn changes(
    alloc: Global,
    keeper: &mut NeverKeeper,
    gone: &[u64],
    added: &[u64],
) -> Result<Draft, TxFault> {
    let gone = records_of(alloc, gone)?;
    let added = records_of(alloc, added)?;
    let mut draft = Draft::new(alloc);
    adjust(
        alloc,
        keeper,
        &mut draft,
        gone.as_slice(),
        added.as_slice(),
        9,
    )?;
    Ok(draft)
}

/// Whether those changes are made. They are not where memory runs out.
fn counts_anew(alloc: Global, keeper: &mut NeverKeeper, gone: &[u64], added: &[u64]) -> bool {
    match changes(alloc, keeper, gone, added) {
        Ok(draft) => draft.commit(keeper).is_ok(),
        Err(_) => false,
    }
}

fn has_slice(alloc: Global, keeper: &mut NeverKeeper, id: u64, row: Option<SliceRow>) -> bool {
    read_slice(alloc, keeper, id) == Ok(row)
}

fn has_dead(alloc: Global, keeper: &mut NeverKeeper, id: u64, row: Option<Dead>) -> bool {
    read_dead(alloc, keeper, id) == Ok(row)
}

/// Whether the slices 3 and 4 are there with their counts.
fn counts_the_rest(alloc: Global, keeper: &mut NeverKeeper) -> bool {
    has_slice(alloc, keeper, 3, Some(SliceRow { size: 6, count: 2 }))
        && has_slice(alloc, keeper, 4, Some(SliceRow { size: 7, count: 3 }))
}

#[test]
fn a_slice_whose_last_record_goes_is_dead(rt: HostRuntime) -> Result<(), Down> {
    let alloc = rt.alloc();
    let mut keeper = keeper_of_slices(alloc)?;
    assert!(rt; counts_anew(alloc, &mut keeper, &[3, 2, 0, 3, 2], &[4, 3, 0, 4]));
    assert!(rt; has_slice(alloc, &mut keeper, 2, None));
    assert!(rt; has_dead(alloc, &mut keeper, 2, Some(Dead { size: 5, due: 9 })));
    assert!(rt; counts_the_rest(alloc, &mut keeper));
    Ok(())
}

/// Puts a list, if it is allowed.
fn put_allowed(
    alloc: Global,
    stored: &mut Batch,
    inode: u64,
    window: u32,
    slices: &[u64],
) -> Result<(), AllocError> {
    let list = records_of(alloc, slices)?;
    if allows_list(&list) {
        put_list(alloc, stored, inode, window, &list)?;
    }
    Ok(())
}

/// Two lists of the file 5, that of the later window first, and one of the file 6.
fn lists(alloc: Global) -> Result<Batch, AllocError> {
    let mut stored = Batch::new(alloc);
    put_allowed(alloc, &mut stored, 5, 256, &[3, 4])?;
    put_allowed(alloc, &mut stored, 5, 1, &[2])?;
    put_allowed(alloc, &mut stored, 6, 0, &[2])?;
    Ok(stored)
}

fn keeper_of_lists(alloc: Global) -> Result<NeverKeeper, Down> {
    let stored = lists(alloc)?;
    keeper_of(alloc, &stored)
}

/// Whether the next list of the file 5 is that of a window, with a record of each of these slices.
fn is_next(
    alloc: Global,
    keeper: &mut NeverKeeper,
    last: Option<u32>,
    window: u32,
    slices: &[u64],
) -> bool {
    match records_of(alloc, slices) {
        Ok(list) => next_list(alloc, keeper, 5, last) == Ok(Some((window, list))),
        Err(_) => false,
    }
}

fn is_last(alloc: Global, keeper: &mut NeverKeeper, window: u32) -> bool {
    next_list(alloc, keeper, 5, Some(window)) == Ok(None)
}

#[test]
fn the_lists_of_a_file_come_in_the_order_of_windows(rt: HostRuntime) -> Result<(), Down> {
    let mut keeper = keeper_of_lists(rt.alloc())?;
    assert!(rt; is_next(rt.alloc(), &mut keeper, None, 1, &[2]));
    assert!(rt; is_next(rt.alloc(), &mut keeper, Some(1), 256, &[3, 4]));
    assert!(rt; is_last(rt.alloc(), &mut keeper, 256));
    Ok(())
}
