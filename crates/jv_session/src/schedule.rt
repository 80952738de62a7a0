//! A session of eight clients over one volume, line by line.
ghost use Rattle.std.specs.Prelude.{◌≡◌, ◌↔◌, ◌≤◌, IsTrue, IsSomeAnd, IfOk};
ghost use Rattle.jv_model.specs.declared.limits.TheConstants.{MAX_DATA};
ghost use Rattle.jv_model.specs.declared.op.Line.TheVariants.{Empty};
ghost use Rattle.jv_model.specs.promise.script.ReplyText.{printed_line};
ghost use Rattle.jv_client.specs.promise.Built.{is_built_line};
ghost use Rattle.jv_client.specs.promise.Shared.{shared};
ghost use Rattle.jv_session.specs.Stands.{ScheduleValue, IsYardOf, fresh_schedule};
ghost use Rattle.jv_session.specs.Lines.{AtDoor, LineRuns, line_state};

use crate::line_end::LineEnd;
use jv_client::Client;
use jv_model::{Bytes, CLIENTS, ClientId, Journal, Limits, Line, Reply, Setting};
use jv_outside::{Carrier, Clock, Depot, Keeper, Shelf};
use jv_script::print_reply;
use jv_yard::{Alone, ObservedYard, Yard, YardDoor};
use std::alloc::{AllocError, Global};
use std::marker::Model;

/// The state of a session between two lines of its script.
#[derive(Drop)]
pub struct Schedule {
    pub(crate) alloc: Global,
    pub(crate) limits: Limits,
    /// The last moment, in seconds.
    pub(crate) at: u64,
    /// The seconds that lines let pass, at most the last moment there is.
    pub(crate) ticks: u64,
    pub(crate) clients: [Client; CLIENTS as usize],
    pub(crate) setting: Setting,
}

impl Model for Schedule {
    ghost use Rattle.jv_session.specs.Stands.{ScheduleValue, IsSchedule};

    ghost Value = { ScheduleValue };

    ghost view = { λ s. record {
      limits = s.limits;
      at = s.at;
      ticks = s.ticks;
      clients = s.clients;
      setting = s.setting;
    } };

    ghost invariant = { λ s. IsSchedule s.limits s.at s.ticks s.clients };
}

impl Schedule {
    /// A session over a volume of this setting. The buffer of `limits` has at least [`jv_model::MAX_DATA`] bytes. Takes
    /// no memory.
    pub fn new(alloc: Global, setting: Setting, limits: Limits) -> Schedule
        requires { MAX_DATA ≤ limits.buffer }
        ensures { result ≡ fresh_schedule setting limits }
    {
        Schedule {
            alloc,
            limits,
            at: 0,
            ticks: 0,
            clients: [
                Client::new(alloc, ClientId(0), limits),
                Client::new(alloc, ClientId(1), limits),
                Client::new(alloc, ClientId(2), limits),
                Client::new(alloc, ClientId(3), limits),
                Client::new(alloc, ClientId(4), limits),
                Client::new(alloc, ClientId(5), limits),
                Client::new(alloc, ClientId(6), limits),
                Client::new(alloc, ClientId(7), limits),
            ],
            setting,
        }
    }

    /// Runs a line that is built, and whose number is one above that of the line before, over the rows of the keeper
    /// and the blocks of the door's yard, which is in. Asks the clock before each step and before the one entry of a line
    /// that makes no step, and not for a line without an entry. Returns how the line ended, and [`LineEnd`] says what is
    /// then left.
    pub fn line<K: Keeper, D: Depot, H: Shelf, C: Clock>(
        &mut self,
        line: Line,
        number: u32,
        k: &mut K,
        door: &mut Alone<D, H>,
        carrier: &mut dyn Carrier,
        clock: &mut C,
        journal: &mut Journal,
    ) -> LineEnd
        requires built { IsTrue (is_built_line self.old.limits line) }
        requires yard { let given = ⟦<Alone<D, H> as YardDoor<D, H>>⟧.given in
            IsSomeAnd (given door.old) (IsYardOf self.old) }
        ensures runs { let given = ⟦<Alone<D, H> as YardDoor<D, H>>⟧.given in
            let way = ⟦<dyn Carrier as Carrier>⟧ in
            AtDoor (given door.old) (given door.new) (λ taken left. LineRuns line number
            (line_state (C.seen clock.old)
            (shared (K.seen k.old) taken ((way carrier.old.0).seen carrier.old.1))
            journal.old.acts self.old)
            (line_state (C.seen clock.new)
            (shared (K.seen k.new) left ((way carrier.new.0).seen carrier.new.1))
            journal.new.acts self.new) result) }
        ensures yard { let given = ⟦<Alone<D, H> as YardDoor<D, H>>⟧.given in
            IsSomeAnd (given door.new) (IsYardOf self.new) }
        ensures quiet { (result ≡ LineEnd.Quiet) ↔ (line ≡ Empty) }
    {
        match &mut door.yard {
            Some(yard) => self.run_line(line, number, k, yard, carrier, clock, journal),
            None => unreachable!(),
        }
    }

    /// Runs a line over a yard.
    fn run_line<K: Keeper, D: Depot, H: Shelf, C: Clock>(
        &mut self,
        line: Line,
        number: u32,
        k: &mut K,
        yard: &mut Yard<D, H>,
        carrier: &mut dyn Carrier,
        clock: &mut C,
        journal: &mut Journal,
    ) -> LineEnd
        requires built { IsTrue (is_built_line self.old.limits line) }
        requires yard { let seen = ⟦<Yard<D, H> as ObservedYard>⟧.seen in
            IsYardOf self.old (seen yard.old) }
        ensures runs { let seen = ⟦<Yard<D, H> as ObservedYard>⟧.seen in
            let way = ⟦<dyn Carrier as Carrier>⟧ in LineRuns line number
            (line_state (C.seen clock.old)
            (shared (K.seen k.old) (seen yard.old) ((way carrier.old.0).seen carrier.old.1))
            journal.old.acts self.old)
            (line_state (C.seen clock.new)
            (shared (K.seen k.new) (seen yard.new) ((way carrier.new.0).seen carrier.new.1))
            journal.new.acts self.new) result }
        ensures quiet { (result ≡ LineEnd.Quiet) ↔ (line ≡ Empty) }
    {
        match line {
            Line::Empty => LineEnd::Quiet,
            Line::Do(client, op) => {
                self.run_whole(client, op, number, k, yard, carrier, clock, journal)
            }
            Line::Begin(client, op) => self.begin(client, op, number, clock, journal),
            Line::Step(client) => self.step(client, number, k, yard, carrier, clock, journal),
            Line::Run(client) => self.run_on(client, number, k, yard, carrier, clock, journal),
            Line::Crash(client) => self.crash(client, number, clock, journal),
            Line::Tick(by) => self.tick(by, number, clock, journal),
            Line::Drain(_) => unreachable!(),
        }
    }

    /// The printed line of an answer.
    pub(crate) fn print(&self, reply: &Reply) -> Result<Bytes, AllocError>
        ensures { IfOk result (λ line. line ≡ printed_line self.now.setting reply.now) }
    {
        print_reply(self.alloc, &self.setting, reply)
    }
}
