//! What transactions need first: the caller's session, and rows that have to be there.
ghost use Rattle.std.specs.Prelude.{◌≡◌, []};
ghost use Rattle.jv_model.specs.declared.fault.Fault.TheVariants.{Stale};
ghost use Rattle.jv_model.specs.declared.fault.Gone.TheVariants.{Session};
ghost use Rattle.jv_model.specs.declared.fault.RowFault.TheVariants.{Bad};
ghost use Rattle.jv_model.specs.declared.fault.TxFault.TheVariants.{Rows as OfRows};
ghost use Rattle.jv_model.specs.declared.row.Row.TheVariants.{OfSetting, OfCounters, OfNode};
ghost use Rattle.jv_model.specs.promise.rows.RowGrammar.{is_setting, is_counters, is_node};
ghost use Rattle.jv_model.specs.promise.rows.RowPlaces.{setting_key, counters_key, node_key};
ghost use Rattle.jv_model.specs.promise.tree.Caller.{session_there};
ghost use Rattle.jv_rows.specs.Drafts.{Needs};
ghost use Rattle.jv_rows.specs.Transactions.{Looks};

use crate::drafts::Draft;
use crate::keys::{key_of_counters, key_of_node, key_of_setting};
use crate::reading::read_session;
use jv_model::{Counters, Fault, Gone, Node, RowFault, RowKey, Sequence, Setting, TxFault};
use jv_outside::Keeper;
use std::alloc::Global;

/// Refuses where the session is gone. No row changes.
///
/// # Errors
///
/// Stale (ESTALE) with the session where it has no row. Bad where its row is malformed. Failed if the keeper failed.
/// Memory.
pub fn in_session<K: Keeper>(alloc: Global, k: &mut K, sid: u64) -> Result<(), TxFault>
    ensures { Looks (K.seen k.old) (K.seen k.new) result
        (λ t. session_there t sid) }
{
    match read_session(alloc, k, sid)? {
        Some(_) => Ok(()),
        None => Err(TxFault::Refused(Fault::Stale(Gone::Session(sid)))),
    }
}

/// The setting, which each volume has.
///
/// # Errors
///
/// Bad where the row is malformed, and without bytes where it is absent. Failed if the keeper failed. Memory. The rows
/// are the same in each case.
pub fn needed_setting<K: Keeper>(
    alloc: Global,
    k: &mut K,
    draft: &Draft,
) -> Result<Setting, TxFault>
    ensures { Needs OfSetting is_setting setting_key draft.now
        (K.seen k.old) (K.seen k.new) result }
{
    match draft.setting(k)? {
        Some(setting) => Ok(setting),
        None => Err(lacks(alloc, key_of_setting(alloc))),
    }
}

/// The next numbers and the running totals, which each volume has. Errors are as of [`needed_setting`].
pub fn needed_counters<K: Keeper>(
    alloc: Global,
    k: &mut K,
    draft: &Draft,
) -> Result<Counters, TxFault>
    ensures { Needs OfCounters is_counters counters_key draft.now
        (K.seen k.old) (K.seen k.new) result }
{
    match draft.counters(k)? {
        Some(counters) => Ok(counters),
        None => Err(lacks(alloc, key_of_counters(alloc))),
    }
}

/// A node that has to be there. Errors are as of [`needed_setting`].
pub fn needed_node<K: Keeper>(
    alloc: Global,
    k: &mut K,
    draft: &Draft,
    inode: u64,
) -> Result<Node, TxFault>
    ensures { Needs OfNode is_node (node_key inode) draft.now (K.seen k.old) (K.seen k.new) result }
{
    match draft.node(k, inode)? {
        Some(node) => Ok(node),
        None => Err(lacks(alloc, key_of_node(alloc, inode))),
    }
}

// The fault of a row that has to be there and is absent.
pub(crate) fn lacks(alloc: Global, key: RowKey) -> TxFault
    ensures { result ≡ OfRows (Bad key []) }
{
    TxFault::Rows(RowFault::Bad(key, Sequence::new(alloc)))
}
