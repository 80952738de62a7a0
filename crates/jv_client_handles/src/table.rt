//! The table of a client's open files: the handle numbered `h` stands at index `h - 1`.
ghost use Rattle.std.specs.Prelude.{◌≡◌, ◌+◌, ◌-◌, ◌<◌, ◌≤◌, ◌^◌, ◌==◌, ◌&&◌, not, None, Some, IsSome, IfOk, OnOk};
ghost use Rattle.std.specs.Prelude.{OnErr, is_some, [], ◌∷◌, length, map, vec_len, vec_capacity};
ghost use Rattle.std.specs.Option.{option_copied};
ghost use Rattle.jv_model.specs.promise.client.ModelClient.{file_of, free_handle, open_count, with_file};
ghost use Rattle.jv_model.specs.promise.Lists.{is_among};
ghost use Rattle.jv_client_handles.specs.Handles.{held_here, inode_here, seen_by, unseen, unseen_by};
ghost use Rattle.jv_client_handles.specs.Views.{HasRecords};

use crate::handle::Handle;
use crate::views::View;
use jv_model::{InodeList, Sequence, push_in_room};
use std::alloc::{AllocError, Global};

/// What a handle names, None where it isn't open. Handles count from 1.
pub fn named(handles: &[Option<Handle>], handle: u64) -> Option<&Handle>
    ensures { option_copied result ≡ file_of handles.now handle }
{
    if handle == 0 {
        return None;
    }
    let index = usize::try_from(handle - 1).ok()?;
    match handles.get(index) {
        Some(Some(open)) => Some(open),
        _ => None,
    }
}

/// The inode of a handle's file, 0 where it isn't open.
pub fn inode_at(handles: &[Option<Handle>], handle: u64) -> u64
    ensures { result ≡ inode_here handles.now handle }
{
    match named(handles, handle) {
        Some(open) => open.inode,
        None => 0,
    }
}

/// The inodes of all open files, in the order of their handles. The only error is out of memory.
pub fn held(alloc: Global, handles: &[Option<Handle>]) -> Result<InodeList, AllocError>
    ensures { IfOk result (λ inodes. inodes ≡ held_here handles.now) }
{
    let mut inodes = Vec::with_capacity(alloc, handles.len())?;
    for open in handles {
        if let Some(handle) = open {
            inodes.push(handle.inode)?;
        }
    }
    Ok(Sequence::from_vec(inodes))
}

/// Whether another handle than this one, which is open, is on the inode.
pub fn is_open_elsewhere(handles: &[Option<Handle>], handle: u64, inode: u64) -> bool
    ensures { result ≡ is_among inode (held_here (with_file handle None handles.now)) }
{
    let place = handle.saturating_sub(1);
    for (index, open) in handles.iter().enumerate() {
        if is_on_other(index as u64, place, open, inode) {
            return true;
        }
    }
    false
}

/// Whether the handle at another place than this one is on the inode.
fn is_on_other(index: u64, place: u64, slot: &Option<Handle>, inode: u64) -> bool
    ensures { result ≡ (not (index == place) && is_among inode (held_here (slot.now ∷ []))) }
{
    match slot {
        Some(handle) => index != place && handle.inode == inode,
        None => false,
    }
}

/// The number of handles in use.
pub fn open_count(handles: &[Option<Handle>]) -> usize
    ensures { result ≡ open_count handles.now }
{
    let mut count = 0;
    for open in handles {
        if open.is_some() {
            count += 1;
        }
    }
    count
}

/// The least handle that isn't in use, 1 or more.
pub fn free_handle(handles: &[Option<Handle>]) -> u64
    requires { length handles.now < 2 ^ 63 }
    ensures free { result ≡ free_handle handles.now }
    ensures low { 1 ≤ result }
    ensures high { result ≤ length handles.now + 1 }
{
    let mut handle = 1;
    for open in handles {
        if open.is_none() {
            return handle;
        }
        handle += 1;
    }
    handle
}

/// Gives a handle a file. There must be room where the handle is new.
pub fn set(handles: &mut Vec<Option<Handle>>, handle: u64, file: Handle)
    requires low { 1 ≤ handle }
    requires high { handle ≤ vec_len handles.old + 1 }
    requires room { vec_len handles.old + 1 ≤ vec_capacity handles.old }
    ensures { handles.new.items ≡ with_file handle (Some file) handles.old.items }
{
    let index = (handle - 1) as usize;
    if index < handles.len() {
        handles[index] = Some(file);
    } else {
        push_in_room(handles, Some(file));
    }
}

/// Takes a handle that is in use out of use.
pub fn clear(handles: &mut [Option<Handle>], handle: u64)
    requires { IsSome (file_of handles.old handle) }
    ensures { handles.new ≡ with_file handle None handles.old }
{
    handles[(handle - 1) as usize] = None;
}

/// Gives a handle that is in use the view of a window, in place of the one before. The only error is out of memory, for
/// a window that it had no view of; nothing has changed then.
pub fn set_view(
    handles: &mut [Option<Handle>],
    handle: u64,
    window: u32,
    view: View,
) -> Result<(), AllocError>
    requires there { IsSome (file_of handles.old handle) }
    requires records { HasRecords view }
    ensures set { OnOk result (handles.new
        ≡ with_file handle (seen_by window view (file_of handles.old handle)) handles.old) }
    ensures err { OnErr result (handles.new ≡ handles.old) }
{
    let index = (handle - 1) as usize;
    match &mut handles[index] {
        Some(open) => open.views.set(window, view),
        None => unreachable!(),
    }
}

/// Drops the view of a window by a handle that is in use, if there is one. Takes no memory.
pub fn drop_view(handles: &mut [Option<Handle>], handle: u64, window: u32)
    requires { IsSome (file_of handles.old handle) }
    ensures { handles.new
        ≡ with_file handle (unseen_by window (file_of handles.old handle)) handles.old }
{
    let index = (handle - 1) as usize;
    match &mut handles[index] {
        Some(open) => open.views.remove(window),
        None => unreachable!(),
    }
}

/// Drops the views of a file that changed, of all its windows and by each of its handles. Takes no memory.
pub fn forget_views(handles: &mut [Option<Handle>], inode: u64)
    ensures { handles.new ≡ map (unseen inode) handles.old }
{
    for open in handles.iter_mut() {
        forget_slot(open, inode);
    }
}

fn forget_slot(slot: &mut Option<Handle>, inode: u64)
    ensures { slot.new ≡ unseen inode slot.old }
{
    if let Some(handle) = slot {
        if handle.inode == inode {
            handle.views.clear();
        }
    }
}
