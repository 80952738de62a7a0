//! Operations that are one metadata transaction, after what they flush.
ghost use Rattle.std.specs.Prelude.{◌≡◌, ◌+◌, ◌≤◌, IsSome, IsTrue, IfSome, OnOk, None, Some, vec_len, vec_capacity};
ghost use Rattle.jv_model.specs.Optional.{mapped};
ghost use Rattle.jv_model.specs.promise.client.ModelClient.{free_handle, with_file};
ghost use Rattle.jv_model.specs.promise.journal.State.{gift_of};
ghost use Rattle.jv_model.specs.promise.journal.Steps.{entry_of_gift, told_of};
ghost use Rattle.jv_client_metadata.specs.Attempts.{plain};
ghost use Rattle.jv_outside.specs.promise.Carriage.{Carriage};
ghost use Rattle.jv_yard.specs.promise.YardValue.{YardValue};
ghost use Rattle.jv_client.specs.ClientValue.{ClientValue};
ghost use Rattle.jv_client.specs.promise.Shared.{shared};
ghost use Rattle.jv_client_handles.specs.Handles.{new_handle};
ghost use Rattle.jv_client.specs.Held.{is_last_here};
ghost use Rattle.jv_client.specs.UnderWay.{IsReady, asks_more, does_of, left, makes_transaction};
ghost use Rattle.jv_client.specs.Makes.{Makes};
ghost use Rattle.jv_client.specs.Transacting.{Attempts, EndsUnmade, handles_given, refusal_of, session_given, sustained_with};
ghost use Rattle.jv_model.specs.declared.op.Reply.TheVariants.{SessionMade};
ghost use Rattle.jv_model.specs.declared.profile.Does.TheVariants.{Releases};
ghost use Rattle.jv_model.specs.client.OpForms.{is_tried};

use crate::answers::looks;
use crate::client::Client;
use crate::made::Made;
use jv_client_handles::{Handle, Views, free_handle, held, inode_at, is_open_elsewhere, set};
use jv_client_metadata::{Answer, transact};
use jv_live::mount;
use jv_model::{
    ActKind, Busy, ClientId, Device, Fault, Moment, Op, Reply, RowFault, Told, TxFault, Who,
    push_in_room,
};
use jv_outside::Keeper;
use std::alloc::{AllocError, Global};

impl Client {
    /// Makes the transaction of the operation in progress, which has flushed, and answers.
    pub(crate) fn transact<K: Keeper>(&mut self, k: &mut K, now: Moment, entry: u64) -> Made
        requires busy { IsSome self.old.doing }
        requires ready { IsReady self.old }
        requires flushed { left self.old ≡ None }
        requires asks { IfSome self.old.doing (λ d. IsTrue (asks_more self.old d)) }
        requires transacts { IfSome self.old.doing (λ d. IsTrue (makes_transaction d.does)) }
        ensures { (yard : YardValue) (carrier : Carriage) → Makes now entry self.old self.new
            (shared (K.seen k.old) yard carrier) (shared (K.seen k.new) yard carrier) result }
    {
        if make_room(&mut self.handles, &mut self.sustained).is_err() {
            return self.fail(Fault::NoMemory);
        }
        let tried = match &self.doing {
            Some(doing) => attempt(
                self.alloc,
                k,
                self.id,
                self.session,
                &self.handles,
                now,
                &doing.op,
            ),
            None => unreachable!(),
        };
        match tried {
            Ok(answer) => {
                keep(&mut self.sustained, answer.kept);
                let kind = give(
                    self.alloc,
                    &answer.reply,
                    &mut self.session,
                    &mut self.handles,
                    entry,
                );
                let told = told_of(&answer.reply);
                self.end_as(told);
                Made::Both(kind, told, answer.reply)
            }
            Err(fault) => self.unmade(ActKind::Meta, fault),
        }
    }

    /// Drops the handle of a close, whose file has nothing pending. Where it is the last one on a file that this client
    /// removed, a transaction releases the file.
    pub(crate) fn close<K: Keeper>(&mut self, k: &mut K, now: Moment, entry: u64) -> Made
        requires busy { IsSome self.old.doing }
        requires ready { IsReady self.old }
        requires flushed { left self.old ≡ None }
        requires releases { does_of self.old.doing ≡ Some Releases }
        ensures { (yard : YardValue) (carrier : Carriage) → Makes now entry self.old self.new
            (shared (K.seen k.old) yard carrier) (shared (K.seen k.new) yard carrier) result }
    {
        let handle = self.handle_in_use();
        if self.is_last(handle) {
            self.transact(k, now, entry)
        } else {
            self.end_at_once()
        }
    }

    /// Whether a handle is the last one on a file that this client removed while it had it open.
    pub(crate) fn is_last(&self, handle: u64) -> bool
        ensures { result ≡ is_last_here self.now handle }
    {
        let inode = inode_at(&self.handles, handle);
        self.sustained.contains(&inode) && !is_open_elsewhere(&self.handles, handle, inode)
    }

    /// Ends the operation, or stops, after a transaction that wasn't made: with the request of this kind where the
    /// transaction was refused, and without one where the keeper failed or memory ran out.
    pub(crate) fn unmade(&mut self, kind: ActKind, fault: TxFault) -> Made
        ensures { EndsUnmade kind fault self.old self.new result }
    {
        match fault {
            TxFault::Refused(fault) => self.refuse(kind, refusal_of(fault)),
            TxFault::Moved(list) => {
                let found = u32::try_from(list.len()).unwrap_or(u32::MAX);
                self.refuse(
                    kind,
                    Fault::Contended(Busy::Lists {
                        looked: found,
                        found,
                    }),
                )
            }
            TxFault::Rows(RowFault::Bad(key, bytes)) => Made::Broken(key, bytes),
            TxFault::Rows(RowFault::Failed) => self.fail(Fault::DeviceFailed(Device::Keeper)),
            TxFault::Rows(RowFault::Memory) => self.fail(Fault::NoMemory),
        }
    }
}

/// What an operation is refused with whose transaction was refused. That a device failed is no refusal but
/// [`RowFault::Failed`]: no transaction over a volume's rows returns it as one, and it is `Invalid` here.
fn refusal_of(fault: Fault) -> Fault
    ensures { result ≡ refusal_of fault }
{
    match fault {
        Fault::DeviceFailed(_) => Fault::Invalid,
        other => other,
    }
}

/// Makes room for one handle more, and for one file more that a session keeps.
fn make_room(handles: &mut Vec<Option<Handle>>, sustained: &mut Vec<u64>) -> Result<(), AllocError>
    ensures handles { handles.new.items ≡ handles.old.items }
    ensures sustained { sustained.new.items ≡ sustained.old.items }
    ensures handle { OnOk result (vec_len handles.new + 1 ≤ vec_capacity handles.new) }
    ensures file { OnOk result (vec_len sustained.new + 1 ≤ vec_capacity sustained.new) }
{
    handles.reserve(1)?;
    sustained.reserve(1)
}

/// Tries the transaction of an operation, in the name of a client with this session and these open files.
fn attempt<K: Keeper>(
    alloc: Global,
    k: &mut K,
    id: ClientId,
    session: Option<u64>,
    handles: &[Option<Handle>],
    now: Moment,
    op: &Op,
) -> Result<Answer, TxFault>
    requires { IsTrue (is_tried op.now) }
    ensures { (h : ClientValue) → h.id ≡ id → h.session ≡ session → h.handles ≡ handles.now
        → Attempts h op.now now (K.seen k.old) (K.seen k.new) result }
{
    if let Op::Mount { .. } = op {
        return mounted(mount(alloc, k, id, now));
    }
    let who = Who {
        sid: session.unwrap_or(0),
        held: held(alloc, handles)?,
        now,
    };
    let handle = free_handle(handles);
    let inode = inode_at(handles, op.handle());
    transact(alloc, k, &who, handle, inode, op)
}

/// The answer of a mount.
fn mounted(made: Result<u64, TxFault>) -> Result<Answer, TxFault>
    ensures { result ≡ mapped (λ sid. plain (SessionMade sid)) made }
{
    let sid = made?;
    Ok(Answer {
        reply: Reply::SessionMade { sid },
        kept: None,
    })
}

/// The file that a session keeps, if there is one, beside those that it keeps already. There must be room for one more.
fn keep(sustained: &mut Vec<u64>, kept: Option<u64>)
    requires { vec_len sustained.old + 1 ≤ vec_capacity sustained.old }
    ensures { sustained.new.items ≡ sustained_with kept sustained.old.items }
{
    if let Some(inode) = kept {
        push_in_room(sustained, inode);
    }
}

/// Hands to a client what a reply has for it, by the entry with this number, and returns that entry. There must be room for one
/// handle more.
fn give(
    alloc: Global,
    reply: &Reply,
    session: &mut Option<u64>,
    handles: &mut Vec<Option<Handle>>,
    entry: u64,
) -> ActKind
    requires { vec_len handles.old + 1 ≤ vec_capacity handles.old }
    ensures kind { result ≡ entry_of_gift (gift_of reply.now) }
    ensures session { session.new ≡ session_given (gift_of reply.now) session.old }
    ensures handles { handles.new.items
        ≡ handles_given entry (gift_of reply.now) handles.old.items }
{
    match reply {
        Reply::SessionMade { sid } => {
            *session = Some(*sid);
            ActKind::Mounted { sid: *sid }
        }
        Reply::FileOpened { handle, inode } => {
            open(alloc, handles, *inode, entry);
            ActKind::Opened {
                handle: *handle,
                inode: *inode,
            }
        }
        _ => ActKind::Meta,
    }
}

/// Opens a file at the least free handle. There must be room for one more.
fn open(alloc: Global, handles: &mut Vec<Option<Handle>>, inode: u64, entry: u64)
    requires { vec_len handles.old + 1 ≤ vec_capacity handles.old }
    ensures { handles.new.items ≡ with_file (free_handle handles.old.items)
        (Some (new_handle inode entry)) handles.old.items }
{
    let handle = free_handle(handles);
    let open = Handle {
        inode,
        opened: entry,
        views: Views::new(alloc),
    };
    set(handles, handle, open);
}

/// What an answer is in numbers, those of its reply in their order.
pub(crate) fn told_of(reply: &Reply) -> Told
    ensures { result ≡ told_of reply.now }
{
    match reply {
        Reply::Refused(fault) => Told::Refused(*fault),
        Reply::Done | Reply::Described(_) | Reply::Entries(_) | Reply::Target(_) => Told::Fine(
            0, 0, 0, 0,
        ),
        Reply::SessionMade { sid } => Told::Fine(*sid, 0, 0, 0),
        Reply::Found { inode } => Told::Fine(*inode, 0, 0, 0),
        Reply::FileOpened { handle, inode } => Told::Fine(*handle, *inode, 0, 0),
        Reply::Data(bytes) => looks(0, 0, bytes.len() as u64),
        Reply::Count { bytes } => Told::Fine(*bytes, 0, 0, 0),
        Reply::Usage(space) => Told::Fine(space.used, space.capacity, space.inodes, space.limit),
        Reply::Compaction { before, after } => Told::Fine(
            u64::from(*before),
            u64::from(*after),
            0,
            0,
        ),
        Reply::Cleanup {
            sessions,
            trash,
            files,
            slices,
        } => Told::Fine(*sessions, *trash, *files, *slices),
        Reply::Leaked { count, bytes } => Told::Fine(*count, *bytes, 0, 0),
        Reply::Uploaded(None) => Told::Fine(0, 0, 0, 0),
        Reply::Uploaded(Some(block)) => {
            Told::Fine(block.id, u64::from(block.index), u64::from(block.size), 1)
        }
        Reply::CacheStats {
            hits,
            misses,
            cached,
            pending,
        } => Told::Fine(*hits, *misses, *cached, *pending),
    }
}
