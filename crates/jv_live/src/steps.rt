//! Changes of a draft that sessions are made of: a session that comes or goes, and a file that a session lets go.
ghost use Rattle.std.specs.Prelude.{Ok, IsTrue};
ghost use Rattle.jv_rows_drafts.specs.Drafting.{Drafting};
ghost use Rattle.jv_live.specs.Steps.{keeping_session, ending_session, letting_go};
ghost use Rattle.jv_model.specs.promise.rows.RowGrammar.{is_session};
ghost use Rattle.jv_outside.specs.promise.Store.{Store};
ghost use Rattle.jv_rows.specs.Transactions.{Always};

use jv_model::{Session, TxFault};
use jv_rows::Draft;

/// Adds that the session is this one. Fails out of memory alone.
pub(crate) fn keep_session(draft: &mut Draft, sid: u64, session: &Session) -> Result<(), TxFault>
    requires { IsTrue (is_session session.now) }
    ensures { (store : Store) → Drafting Always draft.old draft.new store store result
        (λ t. Ok (keeping_session sid session.now t)) }
{
    draft.put_session(sid, session)?;
    Ok(())
}

/// Adds that there is no such session. Fails out of memory alone.
pub(crate) fn end_session(draft: &mut Draft, sid: u64) -> Result<(), TxFault>
    ensures { (store : Store) → Drafting Always draft.old draft.new store store result
        (λ t. Ok (ending_session sid t)) }
{
    draft.drop_session(sid)?;
    Ok(())
}

/// Adds that the session keeps no such file. Fails out of memory alone.
pub(crate) fn let_go(draft: &mut Draft, sid: u64, inode: u64) -> Result<(), TxFault>
    ensures { (store : Store) → Drafting Always draft.old draft.new store store result
        (λ t. Ok (letting_go sid inode t)) }
{
    draft.drop_sustained(sid, inode)?;
    Ok(())
}
