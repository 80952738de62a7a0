//! Operations that change the bytes of files in one transaction: truncates and copies.
ghost use Rattle.std.specs.Prelude.{◌≡◌, ℕ, IfSome, IsSome, IsTrue, None, map};
ghost use Rattle.jv_model.specs.Optional.{mapped};
ghost use Rattle.jv_model.specs.client.OpForms.{changes_bytes};
ghost use Rattle.jv_outside.specs.promise.Carriage.{Carriage};
ghost use Rattle.jv_yard.specs.promise.YardValue.{YardValue};
ghost use Rattle.jv_client_handles.specs.Handles.{unseen};
ghost use Rattle.jv_client.specs.promise.Shared.{shared};
ghost use Rattle.jv_model_steps.specs.Stages.{changes_files};
ghost use Rattle.jv_client.specs.UnderWay.{IsReady, left};
ghost use Rattle.jv_client.specs.Makes.{Makes};
ghost use Rattle.jv_client.specs.Changing.{TriesChange, copied_to, cut_to};

use crate::client::Client;
use crate::made::Made;
use crate::transactions::told_of;
use jv_client_handles::{Handle, forget_views, inode_at};
use jv_data::{copy_range, truncate};
use jv_model::{ActKind, Moment, Op, Reply, TxFault, Who};
use jv_outside::Keeper;
use std::alloc::Global;

/// A change that was made: its entry, its answer, and the file that it changed.
#[derive(Drop)]
struct Changed {
    kind: ActKind,
    reply: Reply,
    inode: u64,
}

impl Client {
    /// Makes the transaction of a truncate or a copy, which has flushed its files, and answers. A refusal changes nothing.
    pub(crate) fn change<K: Keeper>(&mut self, k: &mut K, now: Moment) -> Made
        requires busy { IsSome self.old.doing }
        requires ready { IsReady self.old }
        requires flushed { left self.old ≡ None }
        requires changes { IfSome self.old.doing (λ d. IsTrue (changes_files d.does)) }
        ensures { (entry : ℕ) (yard : YardValue) (carrier : Carriage) → Makes now entry self.old
            self.new (shared (K.seen k.old) yard carrier)
            (shared (K.seen k.new) yard carrier) result }
    {
        let who = self.who(now);
        let tried = match &self.doing {
            Some(doing) => try_change(self.alloc, k, &who, &self.handles, &doing.op),
            None => unreachable!(),
        };
        match tried {
            Ok(Changed { kind, reply, inode }) => {
                self.drop_views(inode);
                let told = told_of(&reply);
                self.end_as(told);
                Made::Both(kind, told, reply)
            }
            Err(fault) => self.unmade(ActKind::Quiet, fault),
        }
    }

    /// Drops what the client saw of a file that it changed.
    fn drop_views(&mut self, inode: u64)
        ensures { self.new ≡ record self.old { handles = map (unseen inode) self.old.handles } }
    {
        forget_views(&mut self.handles, inode);
    }
}

/// Tries the transaction of a truncate or a copy.
fn try_change<K: Keeper>(
    alloc: Global,
    k: &mut K,
    who: &Who,
    handles: &[Option<Handle>],
    op: &Op,
) -> Result<Changed, TxFault>
    requires { IsTrue (changes_bytes op.now) }
    ensures { TriesChange handles.now op.now who.entry.now (K.seen k.old) (K.seen k.new) result }
{
    match op {
        Op::Truncate { handle, len } => {
            let inode = inode_at(handles, *handle);
            let made = truncate(alloc, k, who, inode, *len);
            cut(made, inode, *len)
        }
        Op::Copy {
            source,
            from,
            target,
            to,
            len,
        } => {
            let source = inode_at(handles, *source);
            let target = inode_at(handles, *target);
            let made = copy_range(alloc, k, who, source, *from, target, *to, *len);
            copied(made, source, *from, target, *to)
        }
        _ => unreachable!(),
    }
}

/// What a truncate made.
fn cut(made: Result<(), TxFault>, inode: u64, len: u64) -> Result<Changed, TxFault>
    ensures { result ≡ mapped (λ unit. cut_to inode len) made }
{
    made?;
    Ok(Changed {
        kind: ActKind::Truncated { inode, len },
        reply: Reply::Done,
        inode,
    })
}

/// What a copy made, which counts the bytes that it copied.
fn copied(
    made: Result<u64, TxFault>,
    source: u64,
    from: u64,
    target: u64,
    to: u64,
) -> Result<Changed, TxFault>
    ensures { result ≡ mapped (copied_to source from target to) made }
{
    let len = made?;
    Ok(Changed {
        kind: ActKind::Copied {
            source,
            from,
            target,
            to,
            len,
        },
        reply: Reply::Count { bytes: len },
        inode: target,
    })
}
