//! Which blocks a shelf has staged when a yard starts.
ghost use Rattle.std.specs.Prelude.{◌≡◌, ◌↔◌, IfOk, OnOk, IsTrue};
ghost use Rattle.std.specs.Option.{option_copied};
ghost use Rattle.jv_yard.specs.Pages.{AddsNames, ListsPage, next_after};
ghost use Rattle.jv_yard.specs.Starting.{FindsStaged, FindsAll};
ghost use Rattle.jv_yard.specs.promise.YardValue.{NamesBlock};

use crate::faults::{YardFault, fault_by};
use crate::staging::ClientBlocks;
use jv_model::{CLIENTS, ClientId, Moment, Name, NameList, Sequence, Setting, copied};
use jv_outside::Shelf;
use jv_slices::parse_block_name;
use std::alloc::{AllocError, Global};

/// How many names of blocks a device is asked for at once.
pub const PAGE: u32 = 1_000;

/// The blocks that each client has staged, from client 0 on.
pub(crate) fn find_staged<H: Shelf>(
    alloc: Global,
    shelf: &mut H,
    setting: &Setting,
) -> Result<Sequence<ClientBlocks>, YardFault>
    ensures { FindsAll setting.now (H.seen shelf.old) (H.seen shelf.new) result }
{
    let mut clients = Sequence::new(alloc);
    for c in 0..CLIENTS {
        clients.push(find_staged_by(alloc, shelf, setting, ClientId(c))?)?;
    }
    Ok(clients)
}

/// The blocks that a client has staged.
fn find_staged_by<H: Shelf>(
    alloc: Global,
    shelf: &mut H,
    setting: &Setting,
    c: ClientId,
) -> Result<ClientBlocks, YardFault>
    ensures { FindsStaged setting.now (H.seen shelf.old) (H.seen shelf.new) c result }
{
    let mut found = ClientBlocks::new(alloc);
    let mut last = None;
    'pages: for _ in 0..u64::MAX {
        let names = list_page(shelf, c, last.as_ref())?;
        last = next_start(alloc, &names)?;
        add_names(&mut found, setting, names)?;
        if last.is_none() {
            return Ok(found);
        }
    }
    // More names than memory holds.
    Err(YardFault::Memory)
}

/// A page of the names that a client has on a shelf.
fn list_page<H: Shelf>(
    shelf: &mut H,
    c: ClientId,
    after: Option<&Name>,
) -> Result<NameList, YardFault>
    ensures { ListsPage (H.seen shelf.old) (H.seen shelf.new) c (option_copied after.entry) result }
{
    match shelf.list(c, after, PAGE) {
        Ok(names) => Ok(names),
        Err(down) => Err(fault_by(YardFault::Shelf, down)),
    }
}

/// The name after which the next page begins: the last one of a full page.
fn next_start(alloc: Global, names: &NameList) -> Result<Option<Name>, AllocError>
    ensures { IfOk result (λ name. name ≡ next_after names.now) }
{
    if names.len() < PAGE as usize {
        return Ok(None);
    }
    match names.as_slice().last() {
        Some(name) => Ok(Some(copied(alloc, name.as_slice())?)),
        None => Ok(None),
    }
}

/// Adds those of the names that are of blocks of the volume, as staged since a moment that isn't known.
fn add_names(found: &mut ClientBlocks, setting: &Setting, names: NameList) -> Result<(), AllocError>
    ensures { OnOk result (AddsNames setting.now names found.old found.new) }
{
    for name in names.into_vec() {
        if !is_block_name(setting, &name) {
            continue;
        }
        found.add(name, Moment(0))?;
    }
    Ok(())
}

/// Whether a name is one of a block of the volume.
fn is_block_name(setting: &Setting, name: &Name) -> bool
    ensures { IsTrue result ↔ NamesBlock setting.now name.now }
{
    parse_block_name(setting, name.as_slice()).is_some()
}
