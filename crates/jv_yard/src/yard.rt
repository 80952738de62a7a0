//! The yard: the blocks of a volume, wherever they are.
ghost use Rattle.std.specs.Prelude.{◌≡◌, ◌≤◌, IfOk, IfErr, is_some, slice_get};
ghost use Rattle.std.specs.Option.{option_copied};
ghost use Rattle.jv_model.specs.promise.FiniteMap.{key_count};
ghost use Rattle.jv_yard.specs.BlockCalls.{GetsBlock, IsBlockParcel, PutsBlock};
ghost use Rattle.jv_yard.specs.promise.Starting.{IsStarted, ShelfRefuses};
ghost use Rattle.jv_yard.specs.promise.Staging.{staged_since};

use crate::faults::{YardFault, fault_by};
use crate::finding::find_staged;
use crate::note::{MAIN, Note, What};
use crate::staging::ClientBlocks;
use jv_model::{Bytes, ClientId, Moment, Name, Sequence, Setting, push_in_room};
use jv_outside::{Depot, Parcel, Shelf};
use jv_slices::parse_block_name;
use std::alloc::Global;

/// The blocks of a volume: in its depot, and on the shelf where clients stage them.
#[derive(Drop)]
pub struct Yard<D, H> {
    depot: D,
    shelf: H,
    setting: Setting,
    // By the clients' numbers.
    staged: Sequence<ClientBlocks>,
    last: Moment,
    log: Vec<Note>,
}

/// What contracts see of a yard.
pub trait ObservedYard {
    ghost use Rattle.jv_yard.specs.promise.YardValue.{YardValue};

    ghost seen: { Self → YardValue };
}

impl<D: Depot, H: Shelf> ObservedYard for Yard<D, H> {
    ghost use Rattle.jv_yard.specs.YardValue.{yard_value};
    ghost use Rattle.jv_yard.specs.Staging.{by_client};

    ghost seen = { λ y. yard_value (D.seen y.depot) (H.seen y.shelf) y.setting
        (by_client y.staged) y.last y.log.items };
}

impl<D: Depot, H: Shelf> Yard<D, H> {
    /// A yard over a depot and a shelf, for a volume of this setting. It reads which blocks are staged: of each
    /// client's those that have the name of a block of the volume. Its last moment is 0, and its log is empty. JuiceFS,
    /// Cache: client write data cache.
    ///
    /// # Errors
    ///
    /// [`YardFault::Shelf`] if the shelf failed, or [`YardFault::Memory`]. Both devices come back and hold what they
    /// held.
    pub fn start(
        alloc: Global,
        depot: D,
        mut shelf: H,
        s: &Setting,
    ) -> Result<Yard<D, H>, (D, H, YardFault)>
        ensures started { let seen = ⟦<Yard<D, H> as ObservedYard>⟧.seen in
            IfOk result (λ yard. IsStarted s.now (D.seen depot) (H.seen shelf) (seen yard)) }
        ensures depot { IfErr result (λ back. back.0 ≡ depot) }
        ensures shelf { IfErr result (λ back. ShelfRefuses (H.seen shelf) (H.seen back.1) back.2) }
    {
        let Ok(setting) = s.copied(alloc) else {
            return Err((depot, shelf, YardFault::Memory));
        };
        match find_staged(alloc, &mut shelf, s) {
            Ok(staged) => Ok(Yard {
                depot,
                shelf,
                setting,
                staged,
                last: Moment(0),
                log: Vec::new(alloc),
            }),
            Err(fault) => Err((depot, shelf, fault)),
        }
    }

    /// The setting that the yard was started with.
    pub fn setting(&self) -> &Setting
        ensures { let seen = ⟦<Yard<D, H> as ObservedYard>⟧.seen in
            result.now ≡ (seen self.now).setting }
    {
        &self.setting
    }

    /// Sets the last moment, which never falls.
    pub fn at(&mut self, now: Moment)
        requires { let seen = ⟦<Yard<D, H> as ObservedYard>⟧.seen in (seen self.old).last ≤ now }
        ensures { let seen = ⟦<Yard<D, H> as ObservedYard>⟧.seen in
            seen self.new ≡ record (seen self.old) { last = now } }
    {
        self.last = now;
    }

    /// The bytes of a block, or None if it isn't there: of a block that the client has staged as its shelf has it, of
    /// any other as the depot has it. JuiceFS, Cache; Internals: blocks.
    ///
    /// # Errors
    ///
    /// [`YardFault::Shelf`] or [`YardFault::Depot`] if that device failed, or [`YardFault::Memory`]. Nothing has
    /// changed but the count of the device that failed.
    pub fn get_block(&mut self, c: ClientId, name: &Name) -> Result<Option<Bytes>, YardFault>
        ensures { let seen = ⟦<Yard<D, H> as ObservedYard>⟧.seen in
            GetsBlock c name.now (seen self.old) (seen self.new) result }
    {
        if self.is_staged(c, name) {
            match self.shelf.get(c, name) {
                Ok(bytes) => Ok(bytes),
                Err(down) => Err(fault_by(YardFault::Shelf, down)),
            }
        } else {
            match self.depot.get(name) {
                Ok(bytes) => Ok(bytes),
                Err(down) => Err(fault_by(YardFault::Depot, down)),
            }
        }
    }

    /// Publishes a client's block into the depot, and notes that it was put. The parcel is for a block of the volume,
    /// and stands for as many bytes as its name says. JuiceFS, Internals: blocks.
    ///
    /// # Errors
    ///
    /// [`YardFault::Depot`] if the depot failed, or [`YardFault::Memory`]. The parcel comes back, and nothing has
    /// changed but the count of the depot where it failed.
    pub fn put_block(&mut self, c: ClientId, parcel: Parcel) -> Result<(), (Parcel, YardFault)>
        requires { let seen = ⟦<Yard<D, H> as ObservedYard>⟧.seen in
            IsBlockParcel (seen self.old).setting parcel }
        ensures { let seen = ⟦<Yard<D, H> as ObservedYard>⟧.seen in
            PutsBlock c parcel (seen self.old) (seen self.new) result }
    {
        let Some(block) = parse_block_name(&self.setting, parcel.name.as_slice()) else {
            unreachable!();
        };
        if self.log.reserve(1).is_err() {
            return Err((parcel, YardFault::Memory));
        }
        match self.depot.publish(parcel) {
            Ok(()) => {
                let note = Note {
                    by: MAIN,
                    client: c.number(),
                    what: What::Put,
                    block,
                };
                push_in_room(&mut self.log, note);
                Ok(())
            }
            Err((parcel, down)) => Err((parcel, fault_by(YardFault::Depot, down))),
        }
    }

    /// Whether a client has staged the block of a name.
    pub fn is_staged(&self, c: ClientId, name: &Name) -> bool
        ensures { let seen = ⟦<Yard<D, H> as ObservedYard>⟧.seen in
            result ≡ is_some (staged_since c name.now (seen self.now).staged) }
    {
        match self.staged_by(c) {
            Some(blocks) => blocks.has(name),
            None => false,
        }
    }

    /// The number of blocks that a client has staged.
    pub fn staged_count(&self, c: ClientId) -> usize
        ensures { let seen = ⟦<Yard<D, H> as ObservedYard>⟧.seen in
            result ≡ key_count ((seen self.now).staged c) }
    {
        match self.staged_by(c) {
            Some(blocks) => blocks.len(),
            None => 0,
        }
    }

    /// The blocks that a client has staged.
    fn staged_by(&self, c: ClientId) -> Option<&ClientBlocks>
        ensures { option_copied result ≡ slice_get self.now.staged c }
    {
        self.staged.as_slice().get(usize::from(c.number()))
    }

    /// What was done, in order.
    pub fn log(&self) -> &[Note]
        ensures { let seen = ⟦<Yard<D, H> as ObservedYard>⟧.seen in
            result.now ≡ (seen self.now).log }
    {
        self.log.as_slice()
    }

    /// The depot and the shelf.
    pub fn into_parts(self) -> (D, H)
        ensures depot { result.0 ≡ self.depot }
        ensures shelf { result.1 ≡ self.shelf }
    {
        (self.depot, self.shelf)
    }
}
