//! One step of an operation: at most one transaction or one request.
ghost use Rattle.std.specs.Prelude.{◌≡◌, ◌+◌, ◌≤◌, IsSome};
ghost use Rattle.std.specs.Option.{option_map};
ghost use Rattle.jv_client_shared.specs.Lengths.{IsLength};
ghost use Rattle.jv_client.specs.promise.Shared.{shared};
ghost use Rattle.jv_client.specs.UnderWay.{IsReady, moved_to};
ghost use Rattle.jv_client.specs.Makes.{Makes, Steps};
ghost use Rattle.jv_client.specs.Stats.{AnswersStats};

use crate::client::Client;
use crate::doing::{Doing, Progress};
use crate::made::Made;
use jv_model::{Answer, Does, Journal, Moment, Step};
use jv_outside::{Carrier, Depot, Keeper, Shelf};
use jv_yard::{ObservedYard, Yard};

impl Client {
    /// Makes one step of the operation in progress: at most one transaction or one request, and the answer with the
    /// last one. Appends the step's entries for this line. Where memory runs out the answer is `NoMemory`, where a
    /// device failed it is `DeviceFailed`: the operation has ended, and in a read the cache has changed by its looks and
    /// by the needed block, where that came. `Broken` if a row that the step reads is malformed, names one that isn't
    /// there, or is absent where each volume has one: nothing has changed but that a read may have begun and looked into
    /// the cache, and there is no entry.
    /// JuiceFS, Architecture: clients; Cache: a close stores what was written.
    pub fn step<K: Keeper, D: Depot, H: Shelf>(
        &mut self,
        k: &mut K,
        yard: &mut Yard<D, H>,
        carrier: &mut dyn Carrier,
        now: Moment,
        line: u32,
        journal: &mut Journal,
    ) -> Step
        requires busy { IsSome self.old.doing }
        requires ready { IsReady self.old }
        requires room { 2 ≤ journal.old.spare }
        requires block { let seen = ⟦<Yard<D, H> as ObservedYard>⟧.seen in
            IsLength (seen yard.old).setting.block }
        ensures { let seen = ⟦<Yard<D, H> as ObservedYard>⟧.seen in
            let way = ⟦<dyn Carrier as Carrier>⟧ in
            Steps line now self.old self.new
            (shared (K.seen k.old) (seen yard.old) ((way carrier.old.0).seen carrier.old.1))
            (shared (K.seen k.new) (seen yard.new) ((way carrier.new.0).seen carrier.new.1))
            journal.old.acts journal.new.acts result }
    {
        let entry = journal.len() as u64 + 1;
        let made = self.make(k, yard, carrier, now, entry);
        made.append(journal, line, now, self.id);
        made.into_step()
    }

    /// Makes a step, whose first entry is to have this number.
    fn make<K: Keeper, D: Depot, H: Shelf>(
        &mut self,
        k: &mut K,
        yard: &mut Yard<D, H>,
        carrier: &mut dyn Carrier,
        now: Moment,
        entry: u64,
    ) -> Made
        requires busy { IsSome self.old.doing }
        requires ready { IsReady self.old }
        requires block { let seen = ⟦<Yard<D, H> as ObservedYard>⟧.seen in
            IsLength (seen yard.old).setting.block }
        ensures made { let seen = ⟦<Yard<D, H> as ObservedYard>⟧.seen in
            let way = ⟦<dyn Carrier as Carrier>⟧ in
            Makes now entry self.old self.new
            (shared (K.seen k.old) (seen yard.old) ((way carrier.old.0).seen carrier.old.1))
            (shared (K.seen k.new) (seen yard.new) ((way carrier.new.0).seen carrier.new.1))
            result }
        ensures stats { AnswersStats self.old result }
    {
        if let Some(need) = self.need() {
            return self.ask(need, k, yard, entry);
        }
        if let Some(at) = self.segment_left() {
            return self.flush_on(at, k, yard, carrier, now);
        }
        match self.does() {
            Does::Mounts(_) | Does::Transacts => self.transact(k, now, entry),
            Does::Releases => self.close(k, now, entry),
            Does::Reads(offset, len) => self.read(offset, len, k, yard, entry),
            Does::Truncates | Does::Copies => self.change(k, now),
            Does::Answers(Answer::Count(_)) => self.write(),
            Does::Answers(Answer::CacheStats) => self.say_stats(),
            _ => self.end_at_once(),
        }
    }
}

/// The operation goes on.
pub(crate) fn go_on(doing: &mut Option<Doing>, progress: Progress)
    ensures { doing.new ≡ option_map (moved_to progress) doing.old }
{
    if let Some(doing) = doing {
        doing.progress = progress;
        doing.has_moved = true;
    }
}
