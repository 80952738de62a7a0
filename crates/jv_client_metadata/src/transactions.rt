//! Each operation on metadata goes to the crate of its transaction.
ghost use Rattle.std.specs.Prelude.{IsTrue};
ghost use Rattle.jv_client_metadata.specs.Attempts.{AnswersPlainly, Asks, SaysKept};
ghost use Rattle.jv_model.specs.promise.tree.TreeAct.{attempt};
ghost use Rattle.jv_model.specs.promise.script.Spelled.{is_spelled};
ghost use Rattle.jv_links.specs.Removals.{HoldsFiles};
ghost use Rattle.jv_model.specs.promise.tree.Caller.{Caller};
ghost use Rattle.jv_model.specs.client.OpForms.{is_metadata};
ghost use Rattle.jv_rows.specs.Transactions.{IsFor, Transacts};

use crate::answers::{
    Answer, described, done, entries, found, opened, renamed, target, unlinked, usage,
};
use jv_links::{link, rename, rmdir, unlink};
use jv_live::{beat, close_session, release};
use jv_model::{Op, TxFault, Who};
use jv_outside::Keeper;
use jv_tree::{
    chmod, chown, create, fstat, lookup, mkdir, open_node, readdir, readlink, stat, statfs,
    symlink, utimes,
};
use std::alloc::Global;

/// Makes the transaction of an operation. `handle` is the number that a file which it opens gets, and `inode` is what
/// the handle that it names has open, 0 where it names none. POSIX.1-2017 has the operations, by the functions that
/// docs/MODEL.md names.
///
/// # Errors
///
/// Refused as the operation is (docs/MODEL.md). Bad for a malformed row, or one that names a node that isn't there, and
/// without bytes where the volume has no setting or no counters. Failed if the keeper failed. Memory. The rows are then as
/// before.
pub fn transact<K: Keeper>(
    alloc: Global,
    k: &mut K,
    who: &Who,
    handle: u64,
    inode: u64,
    op: &Op,
) -> Result<Answer, TxFault>
    requires metadata { IsTrue (is_metadata op.now) }
    requires spelled { IsTrue (is_spelled op.now) }
    ensures does { (caller : Caller) → IsFor who.entry.now caller → Asks caller handle inode
        → Transacts (HoldsFiles caller.held) (K.seen k.old) (K.seen k.new)
        result (λ answer. answer.reply) (λ t. attempt t caller op.now) }
    ensures says { (caller : Caller) → IsFor who.entry.now caller
        → SaysKept caller op.now (K.seen k.old) result }
    ensures answers { AnswersPlainly result }
{
    match op {
        Op::Umount => done(close_session(alloc, k, who)),
        Op::Beat => done(beat(alloc, k, who)),
        Op::Close { .. } => done(release(alloc, k, who, inode)),
        Op::Lookup { path } => found(lookup(alloc, k, who, path)),
        Op::Stat { path } => described(stat(alloc, k, who, path, true)),
        Op::Lstat { path } => described(stat(alloc, k, who, path, false)),
        Op::Fstat { .. } => described(fstat(alloc, k, who, inode)),
        Op::Mkdir { path, mode } => found(mkdir(alloc, k, who, path, *mode)),
        Op::Create { path, mode } => opened(create(alloc, k, who, path, *mode), handle),
        Op::Open { path } => opened(open_node(alloc, k, who, path), handle),
        Op::Readdir { path } => entries(readdir(alloc, k, who, path)),
        Op::Chmod { path, mode } => done(chmod(alloc, k, who, path, *mode)),
        Op::Chown { path, uid, gid } => done(chown(alloc, k, who, path, *uid, *gid)),
        Op::Utimes { path, mtime } => done(utimes(alloc, k, who, path, *mtime)),
        Op::Statfs => usage(statfs(alloc, k, who)),
        Op::Symlink { target: to, path } => found(symlink(alloc, k, who, to, path)),
        Op::Readlink { path } => target(readlink(alloc, k, who, path)),
        Op::Unlink { path } => unlinked(unlink(alloc, k, who, path)),
        Op::Rmdir { path } => done(rmdir(alloc, k, who, path)),
        Op::Link { path, to } => done(link(alloc, k, who, path, to)),
        Op::Rename { path, to, how } => renamed(rename(alloc, k, who, path, to, *how)),
        _ => unreachable!(),
    }
}
