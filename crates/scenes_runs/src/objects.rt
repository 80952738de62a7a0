//! The objects of a depot, and the blocks that are staged on a shelf.
use crate::texts::shown_text;
use jv_model::{CLIENTS, ClientId, Sequence, copied};
use jv_outside::{MemDepot, MemShelf, Object, ObjectList, Staged, StagedList};
use scenes_text::Scene;
use std::alloc::{AllocError, Global};

/// The objects that a scene begins with. Of objects with one name the first stands.
pub fn objects(alloc: Global, scene: &Scene) -> Result<ObjectList, AllocError> {
    let mut all = Sequence::new(alloc);
    for object in scene.objects.as_slice() {
        all.push(Object {
            name: copied(alloc, object.name.as_slice())?,
            bytes: copied(alloc, object.bytes.as_slice())?,
            at: object.at,
        })?;
    }
    Ok(all)
}

/// The staged blocks that a scene begins with. Of blocks with one client and name the first stands.
pub fn staged(alloc: Global, scene: &Scene) -> Result<StagedList, AllocError> {
    let mut all = Sequence::new(alloc);
    for block in scene.staged.as_slice() {
        all.push(Staged {
            client: block.client,
            name: copied(alloc, block.name.as_slice())?,
            bytes: copied(alloc, block.bytes.as_slice())?,
        })?;
    }
    Ok(all)
}

/// All objects of a depot.
pub fn objects_of(alloc: Global, depot: &mut MemDepot) -> Result<ObjectList, AllocError> {
    let mut all = Sequence::new(alloc);
    for seen in depot.objects()?.into_vec() {
        if let Some(bytes) = depot.bytes_of(&seen.name)? {
            all.push(Object {
                name: seen.name,
                bytes,
                at: seen.at,
            })?;
        }
    }
    Ok(all)
}

/// All staged blocks of a shelf, by their clients and names.
pub fn staged_of(alloc: Global, shelf: &mut MemShelf) -> Result<StagedList, AllocError> {
    let mut all = Sequence::new(alloc);
    for client in 0..CLIENTS {
        add_staged(&mut all, shelf, ClientId(client))?;
    }
    Ok(all)
}

/// Adds the blocks that a client has staged.
fn add_staged(
    all: &mut StagedList,
    shelf: &mut MemShelf,
    client: ClientId,
) -> Result<(), AllocError> {
    for name in shelf.names_of(client)?.into_vec() {
        if let Some(bytes) = shelf.bytes_of(client, &name)? {
            all.push(Staged {
                client,
                name,
                bytes,
            })?;
        }
    }
    Ok(())
}

/// Objects as text, each by its name and size.
pub fn objects_text(alloc: Global, objects: &ObjectList) -> Result<String, AllocError> {
    let mut text = String::new(alloc);
    for object in objects.as_slice() {
        let name = shown_text(object.name.as_slice());
        let size = object.bytes.len();
        writeln!(text, "object {name} {size}")?;
    }
    Ok(text)
}

/// Staged blocks as text, each by its client, name and size.
pub fn staged_text(alloc: Global, staged: &StagedList) -> Result<String, AllocError> {
    let mut text = String::new(alloc);
    for block in staged.as_slice() {
        let letter = letter_of(block.client);
        let name = shown_text(block.name.as_slice());
        let size = block.bytes.len();
        writeln!(text, "staged {letter} {name} {size}")?;
    }
    Ok(text)
}

/// The letter of a client, as a script has it.
fn letter_of(client: ClientId) -> &'static str {
    match client.number() {
        0 => "A",
        1 => "B",
        2 => "C",
        3 => "D",
        4 => "E",
        5 => "F",
        6 => "G",
        _ => "H",
    }
}
