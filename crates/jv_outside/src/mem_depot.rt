//! Depots in memory. A `get` takes constant time on average for an object that was published since the last `list`, as does
//! each `publish`, and else time logarithmic in their number, as a `remove` does. A `list` takes that for each object
//! published since the last one, and a time linear in the objects that it returns. The first call after `new` looks at each
//! object.
ghost use Rattle.std.specs.Prelude.{◌≡◌, ◌↔◌, ◌||◌, IsTrue, IfErr, None, false};
ghost use Rattle.std.specs.Option.{option_copied};
ghost use Rattle.jv_model.specs.declared.fault.Down.TheVariants.{Failed, Memory};
ghost use Rattle.jv_outside.specs.Calls.{fails_next, after_call};
ghost use Rattle.jv_outside.specs.promise.Holding.{Attaches};
ghost use Rattle.jv_outside.specs.Holding.{Answers, Changes};
ghost use Rattle.jv_outside.specs.InMemory.{holding_of, faulted_holding};
ghost use Rattle.jv_outside.specs.Objects.{Publishes, object_map, seen_after, without};
ghost use Rattle.jv_outside.specs.promise.Objects.{bytes_at};
ghost use Rattle.jv_outside.specs.Parcels.{is_placed};

use crate::calls::{Calls, Fails, fault};
use crate::depot::Depot;
use crate::object::ObjectList;
use crate::object_store::ObjectStore;
use crate::parcel::Parcel;
use jv_model::{Bytes, Down, Moment, Name, SeenList, Text, copied};
use std::alloc::Global;
use std::marker::Model;

/// A depot of the objects that it is given, some of whose calls fail. Each of its five kinds of calls counts as one.
#[derive(Debug, Drop)]
pub struct MemDepot {
    pub(crate) store: ObjectStore,
    pub(crate) opened: Option<Text>,
    pub(crate) calls: Calls,
    alloc: Global,
}

impl Model for MemDepot {
    ghost use Rattle.jv_outside.specs.InMemory.{DeviceValue, device_code};
    ghost use Rattle.jv_outside.specs.promise.Objects.{ObjectMap};
    ghost use Rattle.jv_outside.specs.Objects.{object_map_code};

    ghost Value = { DeviceValue ObjectMap };

    ghost coded = { device_code object_map_code };

    ghost use Rattle.jv_outside.specs.StoredObjects.{objects_in};

    ghost view = { λ d. record {
      content = objects_in d.store;
      opened = d.opened;
      calls = d.calls;
    } };
}

impl MemDepot {
    /// A depot of these objects, which isn't opened anywhere. Takes no memory. Of objects with one name the first stands.
    pub fn new(alloc: Global, objects: ObjectList, fails: Fails) -> MemDepot
        ensures content { result.content ≡ object_map objects }
        ensures opened { result.opened ≡ None }
        ensures calls { result.calls ≡ record { made = 0; fails = fails; faults = 0 } }
    {
        MemDepot {
            store: ObjectStore::new(alloc, objects),
            opened: None,
            calls: Calls::new(fails),
            alloc,
        }
    }
}

impl Depot for MemDepot {
    ghost seen = { λ d. holding_of d };

    fn attach(&mut self, place: &Text) -> Result<(), Down>
        ensures attaches { Attaches (holding_of self.old) (holding_of self.new) result place.now }
        ensures kept { self.new.content ≡ self.old.content }
        ensures fails { (result ≡ Err Failed) ↔ IsTrue (fails_next self.old.calls) }
        ensures calls { self.new.calls ≡ after_call (fails_next self.old.calls) self.old.calls }
    {
        self.calls.begin()?;
        self.opened = Some(copied(self.alloc, place.as_slice())?);
        Ok(())
    }

    fn get(&mut self, name: &Name) -> Result<Option<Bytes>, Down>
        ensures answers { Answers (holding_of self.old) (holding_of self.new) result
            (bytes_at name.now) }
        ensures fails { (result ≡ Err Failed) ↔ IsTrue (fails_next self.old.calls) }
        ensures calls { self.new.calls ≡ after_call (fails_next self.old.calls) self.old.calls }
    {
        self.calls.begin()?;
        Ok(self.store.get(name)?)
    }

    fn publish(&mut self, parcel: Parcel) -> Result<(), (Parcel, Down)>
        ensures publishes { Publishes (holding_of self.old) (holding_of self.new) result parcel }
        ensures fails { (result ≡ Err (parcel, Failed))
            ↔ IsTrue (fails_next self.old.calls || is_placed parcel.load) }
        ensures calls { self.new.calls
            ≡ after_call (fails_next self.old.calls || is_placed parcel.load) self.old.calls }
    {
        if let Err(down) = self.calls.begin() {
            return Err((parcel, down));
        }
        match parcel.into_object() {
            Ok(object) => self.store.publish(object),
            Err(parcel) => {
                let _ = self.calls.fault::<()>();
                Err((parcel, Down::Failed))
            }
        }
    }

    fn remove(&mut self, name: &Name) -> Result<(), Down>
        ensures changes { Changes (holding_of self.old) (holding_of self.new) result
            (without name.now) }
        ensures fails { (result ≡ Err Failed) ↔ IsTrue (fails_next self.old.calls) }
        ensures calls { self.new.calls ≡ after_call (fails_next self.old.calls) self.old.calls }
    {
        self.calls.begin()?;
        Ok(self.store.remove(name)?)
    }

    fn list(&mut self, after: Option<&Name>, n: u32, _now: Moment) -> Result<SeenList, Down>
        ensures answers { Answers (holding_of self.old) (holding_of self.new) result
            (seen_after (option_copied after.entry) n) }
        ensures fails { (result ≡ Err Failed) ↔ IsTrue (fails_next self.old.calls) }
        ensures calls { self.new.calls ≡ after_call (fails_next self.old.calls) self.old.calls }
    {
        self.calls.begin()?;
        Ok(self.store.list(after, n)?)
    }
}

/// A depot of the objects that it is given, which fails only at a parcel whose bytes are placed.
#[derive(Debug, Drop)]
pub struct NeverDepot {
    store: ObjectStore,
    opened: Option<Text>,
    // Saturates.
    faults: u64,
    alloc: Global,
}

impl Model for NeverDepot {
    ghost use Rattle.jv_outside.specs.InMemory.{FaultedContent, faulted_content_code};
    ghost use Rattle.jv_outside.specs.promise.Objects.{ObjectMap};
    ghost use Rattle.jv_outside.specs.Objects.{object_map_code};

    ghost Value = { FaultedContent ObjectMap };

    ghost coded = { faulted_content_code object_map_code };

    ghost use Rattle.jv_outside.specs.StoredObjects.{objects_in};

    ghost view = { λ d. record {
      content = objects_in d.store;
      opened = d.opened;
      faults = d.faults;
    } };
}

impl NeverDepot {
    /// A depot of these objects, which isn't opened anywhere. Takes no memory. Of objects with one name the first stands.
    pub fn new(alloc: Global, objects: ObjectList) -> NeverDepot
        ensures content { result.content ≡ object_map objects }
        ensures opened { result.opened ≡ None }
        ensures faults { result.faults ≡ 0 }
    {
        NeverDepot {
            store: ObjectStore::new(alloc, objects),
            opened: None,
            faults: 0,
            alloc,
        }
    }
}

impl Depot for NeverDepot {
    ghost seen = { λ d. faulted_holding d };

    fn attach(&mut self, place: &Text) -> Result<(), Down>
        ensures attaches { Attaches (faulted_holding self.old) (faulted_holding self.new) result
            place.now }
        ensures kept { self.new.content ≡ self.old.content }
        ensures memory { IfErr result (λ e. e ≡ Memory) }
    {
        self.opened = Some(copied(self.alloc, place.as_slice())?);
        Ok(())
    }

    fn get(&mut self, name: &Name) -> Result<Option<Bytes>, Down>
        ensures answers { Answers (faulted_holding self.old) (faulted_holding self.new) result
            (bytes_at name.now) }
        ensures memory { IfErr result (λ e. e ≡ Memory) }
    {
        Ok(self.store.get(name)?)
    }

    fn publish(&mut self, parcel: Parcel) -> Result<(), (Parcel, Down)>
        ensures publishes { Publishes (faulted_holding self.old) (faulted_holding self.new) result
            parcel }
        ensures memory { is_placed parcel.load ≡ false → IfErr result (λ e. e.1 ≡ Memory) }
        ensures placed { IsTrue (is_placed parcel.load) → result ≡ Err (parcel, Failed) }
    {
        match parcel.into_object() {
            Ok(object) => self.store.publish(object),
            Err(parcel) => {
                let _ = fault::<()>(&mut self.faults);
                Err((parcel, Down::Failed))
            }
        }
    }

    fn remove(&mut self, name: &Name) -> Result<(), Down>
        ensures changes { Changes (faulted_holding self.old) (faulted_holding self.new) result
            (without name.now) }
        ensures memory { IfErr result (λ e. e ≡ Memory) }
    {
        Ok(self.store.remove(name)?)
    }

    fn list(&mut self, after: Option<&Name>, n: u32, _now: Moment) -> Result<SeenList, Down>
        ensures answers { Answers (faulted_holding self.old) (faulted_holding self.new) result
            (seen_after (option_copied after.entry) n) }
        ensures memory { IfErr result (λ e. e ≡ Memory) }
    {
        Ok(self.store.list(after, n)?)
    }
}
