//! Sessions of clients: one is made, and kept alive.
ghost use Rattle.std.specs.Prelude.{◌≡◌};
ghost use Rattle.jv_model.specs.declared.op.Reply.TheVariants.{Done, SessionMade};
ghost use Rattle.jv_model.specs.promise.tree.Caller.{Caller};
ghost use Rattle.jv_model.specs.promise.tree.Sessions as model;
ghost use Rattle.jv_rows.specs.Transactions.{IsFor, Transacts, Always};

use crate::steps::keep_session;
use jv_model::lifetimes::SESSION_LIFE;
use jv_model::{
    ClientId, Counters, FULL_COUNT, Fault, Gone, Moment, RowFault, Session, TxFault, Who,
};
use jv_outside::Keeper;
use jv_rows::{Draft, needed_counters};
use std::alloc::Global;

/// Makes the next session, which is the client's and lasts [`jv_model::lifetimes::SESSION_LIFE`] seconds, and returns its
/// number. JuiceFS, Architecture: sessions.
///
/// # Errors
///
/// NoSpace where the number of sessions is at its greatest. Bad where the counters are malformed or absent. Failed if
/// the keeper failed. Memory. On error no row has changed.
pub fn mount<K: Keeper>(
    alloc: Global,
    k: &mut K,
    client: ClientId,
    now: Moment,
) -> Result<u64, TxFault>
    ensures { (caller : Caller) → caller.client ≡ client → caller.now ≡ now
        → Transacts Always (K.seen k.old) (K.seen k.new)
        result (λ sid. SessionMade sid) (λ t. model.mount t caller) }
{
    let mut draft = Draft::new(alloc);
    let counters = needed_counters(alloc, k, &draft)?;
    let sid = counters.session;
    if sid >= FULL_COUNT {
        return Err(TxFault::Refused(Fault::NoSpace));
    }
    let session = Session {
        client: client.number(),
        expiry: now.seconds() + SESSION_LIFE,
    };
    let after = Counters {
        session: sid + 1,
        ..counters
    };
    draft.put_counters(&after)?;
    keep_session(&mut draft, sid, &session)?;
    match draft.commit(k) {
        Ok(()) => Ok(sid),
        Err(down) => Err(TxFault::Rows(RowFault::from(down))),
    }
}

/// Keeps the caller's session alive for [`jv_model::lifetimes::SESSION_LIFE`] seconds from the moment on. JuiceFS,
/// Architecture: sessions.
///
/// # Errors
///
/// Stale where the session is gone. Bad where its row is malformed. Failed if the keeper failed. Memory. On error no
/// row has changed.
pub fn beat<K: Keeper>(alloc: Global, k: &mut K, who: &Who) -> Result<(), TxFault>
    ensures { (caller : Caller) → IsFor who.entry.now caller
        → Transacts Always (K.seen k.old) (K.seen k.new)
        result (λ unit. Done) (λ t. model.beat t caller) }
{
    let mut draft = Draft::new(alloc);
    let Some(session) = draft.session(k, who.sid)? else {
        return Err(TxFault::Refused(Fault::Stale(Gone::Session(who.sid))));
    };
    let after = Session {
        expiry: who.now.seconds() + SESSION_LIFE,
        ..session
    };
    keep_session(&mut draft, who.sid, &after)?;
    match draft.commit(k) {
        Ok(()) => Ok(()),
        Err(down) => Err(TxFault::Rows(RowFault::from(down))),
    }
}
