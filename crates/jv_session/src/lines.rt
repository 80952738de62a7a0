//! The lines of a script, one method a form.
ghost use Rattle.std.specs.Prelude.{◌≡◌, ◌≢◌, ◌<◌, ◌≤◌, IsTrue, OnOk, length};
ghost use Rattle.jv_model.specs.declared.op.Line.TheVariants as line;
ghost use Rattle.jv_model.specs.declared.act.ActKind.TheVariants.{Crashed};
ghost use Rattle.jv_model.specs.declared.act.Told.TheVariants.{Refused};
ghost use Rattle.jv_client_shared.specs.promise.Shared.{Shared};
ghost use Rattle.jv_client.specs.promise.Built.{is_built_op};
ghost use Rattle.jv_client.specs.Makes.{IsCalm};
ghost use Rattle.jv_client.specs.promise.Shared.{shared};
ghost use Rattle.jv_session.specs.Stands.{IsYardOf, client_is_busy};
ghost use Rattle.jv_session.specs.Lines.{LineRuns, line_state};
ghost use Rattle.jv_session.specs.InLine.{Crashes, IsRefused, LineGoes, LineSays, MakesStep, Moments, Notes, Passing, RunsToEnd, StepsOnce, Submits};

use crate::line_end::{LineEnd, Stopped};
use crate::schedule::Schedule;
use crate::texts::{moment_text, text};
use jv_model::{
    Act, ActKind, Bytes, ClientId, Fault, Journal, LAST_MOMENT, Moment, NO_CLIENT, Op, Reply, Step,
    Told,
};
use jv_outside::{Carrier, Clock, Depot, Keeper, Shelf};
use jv_yard::{ObservedYard, Yard};
use std::alloc::AllocError;

/// Drops an operation, which has many forms: a proof of this function alone goes over them.
fn discard(op: Op) {
    drop(op);
}

/// A line that has this text, where there was memory for it.
fn said(text: Result<Bytes, AllocError>) -> LineEnd
    ensures { LineSays text result }
{
    match text {
        Ok(text) => LineEnd::Said(text),
        Err(AllocError) => LineEnd::Memory,
    }
}

impl Schedule {
    /// Submits an operation and runs it to its end.
    pub(crate) fn run_whole<K: Keeper, D: Depot, H: Shelf, C: Clock>(
        &mut self,
        client: ClientId,
        op: Op,
        number: u32,
        k: &mut K,
        yard: &mut Yard<D, H>,
        carrier: &mut dyn Carrier,
        clock: &mut C,
        journal: &mut Journal,
    ) -> LineEnd
        requires built { IsTrue (is_built_op self.old.limits op) }
        requires yard { let seen = ⟦<Yard<D, H> as ObservedYard>⟧.seen in
            IsYardOf self.old (seen yard.old) }
        ensures runs { let seen = ⟦<Yard<D, H> as ObservedYard>⟧.seen in
            let way = ⟦<dyn Carrier as Carrier>⟧ in LineRuns (line.Do client op) number
            (line_state (C.seen clock.old)
            (shared (K.seen k.old) (seen yard.old) ((way carrier.old.0).seen carrier.old.1))
            journal.old.acts self.old)
            (line_state (C.seen clock.new)
            (shared (K.seen k.new) (seen yard.new) ((way carrier.new.0).seen carrier.new.1))
            journal.new.acts self.new) result }
        ensures some { result ≢ LineEnd.Quiet }
    {
        match self.submit(client, op) {
            Ok(()) => self.run_to_end(client, number, k, yard, carrier, clock, journal),
            Err(fault) => self.refuse(client, fault, number, clock, journal),
        }
    }

    /// Submits an operation.
    pub(crate) fn begin<C: Clock>(
        &mut self,
        client: ClientId,
        op: Op,
        number: u32,
        clock: &mut C,
        journal: &mut Journal,
    ) -> LineEnd
        requires built { IsTrue (is_built_op self.old.limits op) }
        ensures runs { (devices : Shared) → LineRuns (line.Begin client op) number
            (line_state (C.seen clock.old) devices journal.old.acts self.old)
            (line_state (C.seen clock.new) devices journal.new.acts self.new) result }
        ensures some { result ≢ LineEnd.Quiet }
    {
        match self.submit(client, op) {
            Ok(()) => said(text(self.alloc, b"begun\n")),
            Err(fault) => self.refuse(client, fault, number, clock, journal),
        }
    }

    /// Begins an operation of a client, or refuses it.
    fn submit(&mut self, client: ClientId, op: Op) -> Result<(), Fault>
        requires built { IsTrue (is_built_op self.old.limits op) }
        ensures { Submits self.old self.new client op result }
    {
        match self.clients[client.number() as usize].submit(op) {
            Ok(()) => Ok(()),
            Err((op, fault)) => {
                discard(op);
                Err(fault)
            }
        }
    }

    /// Answers an operation that is refused at its submission. No such refusal says that a device failed.
    fn refuse<C: Clock>(
        &mut self,
        client: ClientId,
        fault: Fault,
        number: u32,
        clock: &mut C,
        journal: &mut Journal,
    ) -> LineEnd
        ensures goes { (devices : Shared) → IsCalm (Refused fault)
            → LineGoes (IsRefused client fault) number
            (line_state (C.seen clock.old) devices journal.old.acts self.old)
            (line_state (C.seen clock.new) devices journal.new.acts self.new) result }
        ensures some { result ≢ LineEnd.Quiet }
    {
        let kind = ActKind::Answered {
            told: Told::Refused(fault),
        };
        match self.note(client.number(), kind, 0, number, clock, journal) {
            Ok(_) => said(self.print(&Reply::Refused(fault))),
            Err(stopped) => stopped.into_end(),
        }
    }

    /// Whether an operation of the client is in progress.
    fn is_busy(&self, client: ClientId) -> bool
        ensures busy { result ≡ client_is_busy self.now client }
        ensures low { client < length self.now.clients }
    {
        self.clients[client.number() as usize].busy()
    }

    /// Makes one step of the client's operation.
    pub(crate) fn step<K: Keeper, D: Depot, H: Shelf, C: Clock>(
        &mut self,
        client: ClientId,
        number: u32,
        k: &mut K,
        yard: &mut Yard<D, H>,
        carrier: &mut dyn Carrier,
        clock: &mut C,
        journal: &mut Journal,
    ) -> LineEnd
        requires yard { let seen = ⟦<Yard<D, H> as ObservedYard>⟧.seen in
            IsYardOf self.old (seen yard.old) }
        ensures runs { let seen = ⟦<Yard<D, H> as ObservedYard>⟧.seen in
            let way = ⟦<dyn Carrier as Carrier>⟧ in LineRuns (line.Step client) number
            (line_state (C.seen clock.old)
            (shared (K.seen k.old) (seen yard.old) ((way carrier.old.0).seen carrier.old.1))
            journal.old.acts self.old)
            (line_state (C.seen clock.new)
            (shared (K.seen k.new) (seen yard.new) ((way carrier.new.0).seen carrier.new.1))
            journal.new.acts self.new) result }
        ensures some { result ≢ LineEnd.Quiet }
    {
        if !self.is_busy(client) {
            return said(text(self.alloc, b"idle\n"));
        }
        self.step_once(client, number, k, yard, carrier, clock, journal)
    }

    fn step_once<K: Keeper, D: Depot, H: Shelf, C: Clock>(
        &mut self,
        client: ClientId,
        number: u32,
        k: &mut K,
        yard: &mut Yard<D, H>,
        carrier: &mut dyn Carrier,
        clock: &mut C,
        journal: &mut Journal,
    ) -> LineEnd
        requires busy { IsTrue (client_is_busy self.old client) }
        requires yard { let seen = ⟦<Yard<D, H> as ObservedYard>⟧.seen in
            IsYardOf self.old (seen yard.old) }
        ensures goes { let seen = ⟦<Yard<D, H> as ObservedYard>⟧.seen in
            let way = ⟦<dyn Carrier as Carrier>⟧ in LineGoes (StepsOnce client) number
            (line_state (C.seen clock.old)
            (shared (K.seen k.old) (seen yard.old) ((way carrier.old.0).seen carrier.old.1))
            journal.old.acts self.old)
            (line_state (C.seen clock.new)
            (shared (K.seen k.new) (seen yard.new) ((way carrier.new.0).seen carrier.new.1))
            journal.new.acts self.new) result }
    {
        match self.make_step(client, number, k, yard, carrier, clock, journal) {
            Ok(Step::More) => said(text(self.alloc, b"more\n")),
            Ok(Step::Done(reply)) => said(self.print(&reply)),
            Ok(Step::Broken(key, bytes)) => LineEnd::Broken(key, bytes),
            Err(stopped) => stopped.into_end(),
        }
    }

    /// Runs the client's operation to its end.
    pub(crate) fn run_on<K: Keeper, D: Depot, H: Shelf, C: Clock>(
        &mut self,
        client: ClientId,
        number: u32,
        k: &mut K,
        yard: &mut Yard<D, H>,
        carrier: &mut dyn Carrier,
        clock: &mut C,
        journal: &mut Journal,
    ) -> LineEnd
        requires yard { let seen = ⟦<Yard<D, H> as ObservedYard>⟧.seen in
            IsYardOf self.old (seen yard.old) }
        ensures runs { let seen = ⟦<Yard<D, H> as ObservedYard>⟧.seen in
            let way = ⟦<dyn Carrier as Carrier>⟧ in LineRuns (line.Run client) number
            (line_state (C.seen clock.old)
            (shared (K.seen k.old) (seen yard.old) ((way carrier.old.0).seen carrier.old.1))
            journal.old.acts self.old)
            (line_state (C.seen clock.new)
            (shared (K.seen k.new) (seen yard.new) ((way carrier.new.0).seen carrier.new.1))
            journal.new.acts self.new) result }
        ensures some { result ≢ LineEnd.Quiet }
    {
        if !self.is_busy(client) {
            return said(text(self.alloc, b"idle\n"));
        }
        self.run_to_end(client, number, k, yard, carrier, clock, journal)
    }

    fn run_to_end<K: Keeper, D: Depot, H: Shelf, C: Clock>(
        &mut self,
        client: ClientId,
        number: u32,
        k: &mut K,
        yard: &mut Yard<D, H>,
        carrier: &mut dyn Carrier,
        clock: &mut C,
        journal: &mut Journal,
    ) -> LineEnd
        requires busy { IsTrue (client_is_busy self.old client) }
        requires yard { let seen = ⟦<Yard<D, H> as ObservedYard>⟧.seen in
            IsYardOf self.old (seen yard.old) }
        ensures goes { let seen = ⟦<Yard<D, H> as ObservedYard>⟧.seen in
            let way = ⟦<dyn Carrier as Carrier>⟧ in LineGoes (RunsToEnd client) number
            (line_state (C.seen clock.old)
            (shared (K.seen k.old) (seen yard.old) ((way carrier.old.0).seen carrier.old.1))
            journal.old.acts self.old)
            (line_state (C.seen clock.new)
            (shared (K.seen k.new) (seen yard.new) ((way carrier.new.0).seen carrier.new.1))
            journal.new.acts self.new) result }
    {
        loop {
            match self.make_step(client, number, k, yard, carrier, clock, journal) {
                Ok(Step::More) => {}
                Ok(Step::Done(reply)) => return said(self.print(&reply)),
                Ok(Step::Broken(key, bytes)) => return LineEnd::Broken(key, bytes),
                Err(stopped) => return stopped.into_end(),
            }
        }
    }

    /// Makes a step, at the moment that the clock answers, which the yard gets first. On error nothing has changed.
    fn make_step<K: Keeper, D: Depot, H: Shelf, C: Clock>(
        &mut self,
        client: ClientId,
        number: u32,
        k: &mut K,
        yard: &mut Yard<D, H>,
        carrier: &mut dyn Carrier,
        clock: &mut C,
        journal: &mut Journal,
    ) -> Result<Step, Stopped>
        requires busy { IsTrue (client_is_busy self.old client) }
        requires yard { let seen = ⟦<Yard<D, H> as ObservedYard>⟧.seen in
            IsYardOf self.old (seen yard.old) }
        ensures steps { let seen = ⟦<Yard<D, H> as ObservedYard>⟧.seen in
            let way = ⟦<dyn Carrier as Carrier>⟧ in
            MakesStep self.old self.new number client (C.seen clock.old) (C.seen clock.new)
            (shared (K.seen k.old) (seen yard.old) ((way carrier.old.0).seen carrier.old.1))
            (shared (K.seen k.new) (seen yard.new) ((way carrier.new.0).seen carrier.new.1))
            journal.old.acts journal.new.acts result }
    {
        let now = self.next_moment(0, 2, clock, journal)?;
        yard.at(now);
        let step = self.clients[client.number() as usize].step(
            k, yard, carrier, now, number, journal,
        );
        self.at = now.seconds();
        Ok(step)
    }

    /// Ends the client without an `umount`.
    pub(crate) fn crash<C: Clock>(
        &mut self,
        client: ClientId,
        number: u32,
        clock: &mut C,
        journal: &mut Journal,
    ) -> LineEnd
        ensures goes { (devices : Shared) → LineGoes (Crashes client) number
            (line_state (C.seen clock.old) devices journal.old.acts self.old)
            (line_state (C.seen clock.new) devices journal.new.acts self.new) result }
        ensures some { result ≢ LineEnd.Quiet }
    {
        match self.note(client.number(), ActKind::Crashed, 0, number, clock, journal) {
            Ok(_) => {
                self.clients[client.number() as usize].crash();
                said(text(self.alloc, b"crashed\n"))
            }
            Err(stopped) => stopped.into_end(),
        }
    }

    /// Moves the clock on by a number of seconds.
    pub(crate) fn tick<C: Clock>(
        &mut self,
        by: u64,
        number: u32,
        clock: &mut C,
        journal: &mut Journal,
    ) -> LineEnd
        ensures goes { (devices : Shared) → LineGoes (Passing by) number
            (line_state (C.seen clock.old) devices journal.old.acts self.old)
            (line_state (C.seen clock.new) devices journal.new.acts self.new) result }
        ensures some { result ≢ LineEnd.Quiet }
    {
        match self.note(
            NO_CLIENT,
            ActKind::Ticked { by },
            by,
            number,
            clock,
            journal,
        ) {
            Ok(now) => {
                self.ticks = LAST_MOMENT.min(self.ticks.saturating_add(by));
                said(moment_text(self.alloc, now))
            }
            Err(stopped) => stopped.into_end(),
        }
    }

    /// Appends the one entry of a line, at the moment that the clock answers, which is returned in seconds. `by` more
    /// seconds have passed. On error nothing has changed.
    fn note<C: Clock>(
        &mut self,
        client: u8,
        kind: ActKind,
        by: u64,
        number: u32,
        clock: &mut C,
        journal: &mut Journal,
    ) -> Result<u64, Stopped>
        ensures notes { Notes self.old self.new number client kind by (C.seen clock.old)
            (C.seen clock.new) journal.old.acts journal.new.acts result }
    {
        let now = self.next_moment(by, 1, clock, journal)?;
        journal.push_reserved(Act {
            line: number,
            at: now,
            client,
            kind,
        });
        self.at = now.seconds();
        Ok(now.seconds())
    }

    /// The moment of a step, once there is room for its entries: the larger of the last one and the clock's answer with
    /// the seconds that lines let pass, `by` more among them, and at most the last moment there is.
    fn next_moment<C: Clock>(
        &self,
        by: u64,
        entries: usize,
        clock: &mut C,
        journal: &mut Journal,
    ) -> Result<Moment, Stopped>
        ensures moment { Moments self.now by (C.seen clock.old) (C.seen clock.new) result }
        ensures room { OnOk result (entries ≤ journal.new.spare) }
        ensures same { journal.new.acts ≡ journal.old.acts }
    {
        if journal.reserve(entries).is_err() {
            return Err(Stopped::Memory);
        }
        let Ok(answer) = clock.now() else {
            return Err(Stopped::Clock);
        };
        let passed = self.ticks.saturating_add(by);
        let by_clock = answer.seconds().saturating_add(passed);
        Ok(Moment(LAST_MOMENT.min(self.at.max(by_clock))))
    }
}
