//! What a step did, before its entries are appended.
ghost use Rattle.std.specs.Prelude.{◌≡◌, ◌+◌, ◌≤◌, ◌++◌, ◌∷◌, []};
ghost use Rattle.jv_model.specs.declared.act.ActKind.TheVariants.{Answered};
ghost use Rattle.jv_model.specs.journal.Stepping.{entry_of};
ghost use Rattle.jv_client.specs.Makes.{kinds_of, step_of, entries_of};

use jv_model::{Act, ActKind, Bytes, ClientId, Journal, Moment, Reply, RowKey, Step, Told};

/// A step of an operation.
#[derive(Debug, Drop)]
pub enum Made {
    /// A request, after which the operation goes on.
    Request(ActKind),
    /// An answer without a request.
    Answer(Told, Reply),
    /// A request, and the answer.
    Both(ActKind, Told, Reply),
    /// The row at this key, which has these bytes, is malformed, names one that isn't there, or is absent where each volume
    /// has one.
    Broken(RowKey, Bytes),
}

impl Made {
    /// What the step returns.
    pub(crate) fn into_step(self) -> Step
        ensures { result ≡ step_of self }
    {
        match self {
            Made::Request(_) => Step::More,
            Made::Answer(_, reply) => Step::Done(reply),
            Made::Both(_, _, reply) => Step::Done(reply),
            Made::Broken(key, bytes) => Step::Broken(key, bytes),
        }
    }

    /// Appends the step's entries.
    pub(crate) fn append(&self, journal: &mut Journal, line: u32, now: Moment, client: ClientId)
        requires { 2 ≤ journal.old.spare }
        ensures { journal.new.acts ≡ journal.old.acts
            ++ entries_of line now client (kinds_of self.now) }
    {
        match self {
            Made::Request(kind) => note(journal, line, now, client, *kind),
            Made::Answer(told, _) => note(
                journal,
                line,
                now,
                client,
                ActKind::Answered { told: *told },
            ),
            Made::Both(kind, told, _) => {
                note(journal, line, now, client, *kind);
                note(
                    journal,
                    line,
                    now,
                    client,
                    ActKind::Answered { told: *told },
                );
            }
            Made::Broken(..) => {}
        }
    }
}

/// Appends an entry of a client.
fn note(journal: &mut Journal, line: u32, now: Moment, client: ClientId, kind: ActKind)
    requires { 1 ≤ journal.old.spare }
    ensures added { journal.new.acts ≡ journal.old.acts ++ entry_of line now client kind ∷ [] }
    ensures room { journal.old.spare ≤ journal.new.spare + 1 }
{
    journal.push_reserved(Act {
        line,
        at: now,
        client: client.number(),
        kind,
    });
}
