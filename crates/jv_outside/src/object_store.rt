//! Objects in memory, by their names.
ghost use Rattle.std.specs.Prelude.{◌≡◌, [], map, take, IfOk, IfErr, OnOk, OnErr};
ghost use Rattle.std.specs.Option.{option_copied};
ghost use Rattle.std.specs.Range.Bound.{bound_map};
ghost use Rattle.jv_model.specs.declared.fault.Down.TheVariants.{Memory};
ghost use Rattle.jv_model.specs.promise.FiniteMap.{map_of, text_key};
ghost use Rattle.jv_outside.specs.LazyTrees.{entries_in};
ghost use Rattle.jv_outside.specs.Objects.{as_seen, object_map, seen_after, with_object, without};
ghost use Rattle.jv_outside.specs.promise.Objects.{bytes_at};
ghost use Rattle.jv_outside.specs.Parcels.{parcel_of};
ghost use Rattle.jv_outside.specs.StoredObjects.{list_start, objects_in};

use crate::lazy_tree::LazyTree;
use crate::object::{Object, ObjectList};
use crate::parcel::Parcel;
use jv_model::{Bytes, Down, Moment, Name, Seen, SeenList, Sequence, copied, push_in_room};
use std::alloc::{AllocError, Global};
use std::collections::btree_map::Range;
use std::ops::Bound;

/// Objects by their names. Those that it was given are brought into its tree by the next call.
#[derive(Debug, Drop)]
pub(crate) struct ObjectStore {
    tree: LazyTree<Name, (Bytes, Moment)>,
    // Objects that aren't in the tree yet. Of objects with one name the first stands, and before one in the tree.
    listed: Vec<Object>,
    alloc: Global,
}

impl ObjectStore {
    /// These objects, of which the first of one name stands. Takes no memory.
    pub(crate) fn new(alloc: Global, objects: ObjectList) -> ObjectStore
        ensures { objects_in result ≡ object_map objects }
    {
        ObjectStore {
            tree: LazyTree::new(alloc),
            listed: objects.into_vec(),
            alloc,
        }
    }

    /// The bytes of an object.
    pub(crate) fn get(&mut self, name: &Name) -> Result<Option<Bytes>, AllocError>
        ensures same { objects_in self.new ≡ objects_in self.old }
        ensures value { IfOk result (λ value. value ≡ bytes_at name.now (objects_in self.old)) }
    {
        self.settle()?;
        match self.tree.get(name) {
            Some(object) => Ok(Some(copied(self.alloc, object.0.as_slice())?)),
            None => Ok(None),
        }
    }

    /// Puts an object at its name. Out of memory, nothing has changed, and it returns the object.
    fn put(&mut self, object: Object) -> Result<(), Object>
        ensures ok { OnOk result (objects_in self.new
            ≡ with_object object.name object.bytes object.at (objects_in self.old)) }
        ensures err { OnErr result (objects_in self.new ≡ objects_in self.old) }
        ensures back { IfErr result (λ refused. refused ≡ object) }
    {
        match self.settle() {
            Ok(()) => insert(&mut self.tree, object),
            Err(_) => Err(object),
        }
    }

    /// Publishes an object. Out of memory, nothing has changed, and it returns the object's parcel.
    pub(crate) fn publish(&mut self, object: Object) -> Result<(), (Parcel, Down)>
        ensures ok { OnOk result (objects_in self.new
            ≡ with_object object.name object.bytes object.at (objects_in self.old)) }
        ensures err { OnErr result (objects_in self.new ≡ objects_in self.old) }
        ensures back { IfErr result (λ refused. refused ≡ (parcel_of object, Memory)) }
    {
        match self.put(object) {
            Ok(()) => Ok(()),
            Err(object) => Err((object.into_parcel(), Down::Memory)),
        }
    }

    /// Removes an object. Out of memory, nothing has changed.
    pub(crate) fn remove(&mut self, name: &Name) -> Result<(), AllocError>
        ensures ok { OnOk result (objects_in self.new ≡ without name.now (objects_in self.old)) }
        ensures err { OnErr result (objects_in self.new ≡ objects_in self.old) }
    {
        self.settle()?;
        self.tree.remove(name);
        Ok(())
    }

    /// The first `n` objects after a name, or from the first on, in the order of their names.
    pub(crate) fn list(&mut self, after: Option<&Name>, n: u32) -> Result<SeenList, AllocError>
        ensures same { objects_in self.new ≡ objects_in self.old }
        ensures found { IfOk result (λ found.
            found ≡ seen_after (option_copied after.entry) n (objects_in self.old)) }
    {
        self.settle()?;
        self.tree.sort()?;
        let objects = self.tree.sorted.range((start(after), Bound::Unbounded));
        seen_of(self.alloc, objects, n)
    }

    /// Brings the listed objects into the tree. Out of memory, some of them wait still.
    fn settle(&mut self) -> Result<(), AllocError>
        ensures same { objects_in self.new ≡ objects_in self.old }
        ensures settled { OnOk result (self.new.listed.items ≡ []) }
    {
        while let Some(object) = self.listed.pop() {
            if let Err(refused) = insert(&mut self.tree, object) {
                push_in_room(&mut self.listed, refused);
                return Err(AllocError);
            }
        }
        Ok(())
    }
}

/// Puts an object into a tree. Out of memory, nothing has changed, and it returns the object.
fn insert(tree: &mut LazyTree<Name, (Bytes, Moment)>, object: Object) -> Result<(), Object>
    ensures ok { OnOk result (map_of {order = text_key} (entries_in tree.new)
        ≡ with_object object.name object.bytes object.at (map_of (entries_in tree.old))) }
    ensures err { OnErr result (entries_in tree.new ≡ entries_in tree.old) }
    ensures back { IfErr result (λ refused. refused ≡ object) }
{
    match tree.insert(object.name, (object.bytes, object.at)) {
        Ok(()) => Ok(()),
        Err((name, (bytes, at))) => Err(Object { name, bytes, at }),
    }
}

/// Where a listing begins.
fn start(after: Option<&Name>) -> Bound<&Name>
    ensures { bound_map (λ name. name.now) result ≡ list_start (option_copied after.entry) }
{
    match after {
        Some(last) => Bound::Excluded(last),
        None => Bound::Unbounded,
    }
}

/// What a listing shows of the first `n` of these objects.
fn seen_of(
    alloc: Global,
    objects: Range<'_, Name, (Bytes, Moment)>,
    n: u32,
) -> Result<SeenList, AllocError>
    ensures { IfOk result (λ found. found ≡ take n (map as_seen objects.entry)) }
{
    let mut found = Sequence::new(alloc);
    for (name, object) in objects {
        if found.len() >= n as usize {
            break;
        }
        found.push(Seen {
            name: copied(alloc, name.as_slice())?,
            size: object.0.len() as u64,
            at: object.1,
        })?;
    }
    Ok(found)
}
