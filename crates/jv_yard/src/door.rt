//! What has the yard between lines. With threads that upload, a step will take it from there and give it back.
ghost use Rattle.std.specs.Prelude.{◌≡◌, None, Some, IsSome};
ghost use Rattle.std.specs.Option.{option_map};
ghost use Rattle.jv_yard.specs.Doors.{IsTaken};

use crate::yard::{ObservedYard, Yard};
use jv_outside::{Depot, Shelf};
use std::mem::replace;

/// Has the yard while main doesn't, and lends it. Workers may have it meanwhile.
pub trait YardDoor<D: Depot, H: Shelf> {
    ghost use Rattle.std.specs.Prelude.{Option};
    ghost use Rattle.jv_yard.specs.promise.YardValue.{YardValue};

    // What main gave back last, or before any step what the door was made of; None while main has it.
    ghost given: { Self → Option YardValue };

    /// Takes the yard, which is in. Workers may have published staged blocks since it was given last.
    fn take(&mut self) -> Yard<D, H>
        requires { IsSome (given self.old) }
        ensures out { given self.new ≡ None }
        ensures later { let seen = ⟦<Yard<D, H> as ObservedYard>⟧.seen in
            IsTaken (given self.old) (seen result) };

    /// Gives the yard back, which is out.
    fn give(&mut self, yard: Yard<D, H>)
        requires { given self.old ≡ None }
        ensures { let seen = ⟦<Yard<D, H> as ObservedYard>⟧.seen in
            given self.new ≡ Some (seen yard) };
}

/// A door of main's alone: no worker ever has the yard.
#[derive(Drop)]
pub struct Alone<D, H> {
    /// The yard while it is in. A step that needs no worker between may work on it here, without taking it.
    pub yard: Option<Yard<D, H>>,
}

impl<D: Depot, H: Shelf> Alone<D, H> {
    /// A door with this yard, which is in.
    pub fn new(yard: Yard<D, H>) -> Alone<D, H>
        ensures { let door = ⟦<Alone<D, H> as YardDoor<D, H>>⟧ in
            let seen = ⟦<Yard<D, H> as ObservedYard>⟧.seen in
            door.given result ≡ Some (seen yard) }
    {
        Alone { yard: Some(yard) }
    }

    /// The yard, which is in.
    pub fn into_yard(self) -> Yard<D, H>
        requires { IsSome (⟦<Alone<D, H> as YardDoor<D, H>>⟧.given self) }
        ensures { let seen = ⟦<Yard<D, H> as ObservedYard>⟧.seen in
            ⟦<Alone<D, H> as YardDoor<D, H>>⟧.given self ≡ Some (seen result) }
    {
        self.yard.unwrap()
    }
}

impl<D: Depot, H: Shelf> YardDoor<D, H> for Alone<D, H> {
    ghost given = { λ d. option_map ⟦<Yard<D, H> as ObservedYard>⟧.seen d.yard };

    fn take(&mut self) -> Yard<D, H>
        requires { let seen = ⟦<Yard<D, H> as ObservedYard>⟧.seen in
            IsSome (option_map seen self.old.yard) }
        ensures out { let seen = ⟦<Yard<D, H> as ObservedYard>⟧.seen in
            option_map seen self.new.yard ≡ None }
        ensures later { let seen = ⟦<Yard<D, H> as ObservedYard>⟧.seen in
            IsTaken (option_map seen self.old.yard) (seen result) }
        ensures same { let seen = ⟦<Yard<D, H> as ObservedYard>⟧.seen in
            option_map seen self.old.yard ≡ Some (seen result) }
    {
        self.yard.take().unwrap()
    }

    fn give(&mut self, yard: Yard<D, H>)
        requires { let seen = ⟦<Yard<D, H> as ObservedYard>⟧.seen in
            option_map seen self.old.yard ≡ None }
        ensures { let seen = ⟦<Yard<D, H> as ObservedYard>⟧.seen in
            option_map seen self.new.yard ≡ Some (seen yard) }
    {
        // There is none to let go.
        match replace(&mut self.yard, Some(yard)) {
            None => {}
            Some(_out) => unreachable!(),
        }
    }
}
