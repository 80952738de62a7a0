//! A client: its session, its open files, what it wrote and didn't commit, the blocks that it keeps, and what it is doing.
ghost use Rattle.std.specs.Prelude.{◌≡◌, ◌≤◌, is_some, length, None};
ghost use Rattle.jv_model.specs.declared.limits.TheConstants.{MAX_DATA};
ghost use Rattle.jv_client.specs.ClientValue.{fresh_client, crashed, session_here};

use crate::doing::Doing;
use jv_cache::BlockCache;
use jv_client_handles::Handle;
use jv_model::{ClientId, DEFAULT_BUFFER, Limits};
use jv_pending::Pending;
use std::alloc::Global;
use std::marker::Model;

/// One of the clients of a session.
#[derive(Drop)]
pub struct Client {
    pub(crate) alloc: Global,
    pub(crate) id: ClientId,
    pub(crate) limits: Limits,
    pub(crate) session: Option<u64>,
    pub(crate) handles: Vec<Option<Handle>>,
    /// The inodes that lost their last entry by this client's own hand while it had them open.
    pub(crate) sustained: Vec<u64>,
    pub(crate) pending: Pending,
    /// `None` until the first read. A cache that is there has room for as many blocks as the limits say.
    pub(crate) cache: Option<BlockCache>,
    pub(crate) doing: Option<Doing>,
}

impl Model for Client {
    ghost use Rattle.jv_client.specs.ClientValue.{ClientValue, HasLimits};

    ghost Value = { ClientValue };

    ghost view = { λ c. record {
      id = c.id;
      limits = c.limits;
      session = c.session;
      handles = c.handles.items;
      sustained = c.sustained.items;
      pending = c.pending.bytes;
      cache = c.cache;
      doing = c.doing;
    } };

    ghost invariant = { λ c. HasLimits c.limits c.pending c.cache };
}

impl Client {
    /// A client that isn't mounted. Its buffer has at least [`jv_model::MAX_DATA`] bytes. Takes no memory.
    pub fn new(alloc: Global, id: ClientId, limits: Limits) -> Client
        requires { MAX_DATA ≤ limits.buffer }
        ensures { result ≡ fresh_client id limits }
    {
        Client {
            alloc,
            id,
            limits,
            session: None,
            handles: Vec::new(alloc),
            sustained: Vec::new(alloc),
            pending: Pending::new(alloc, limits.buffer),
            cache: None,
            doing: None,
        }
    }

    /// Whether an operation is in progress.
    pub fn busy(&self) -> bool
        ensures { result ≡ is_some self.now.doing }
    {
        self.doing.is_some()
    }

    /// The number of bytes that are pending.
    pub fn pending_bytes(&self) -> u64
        ensures { result ≡ length self.now.pending }
    {
        self.pending.bytes()
    }

    /// The number of its session, 0 where it isn't mounted.
    pub(crate) fn sid(&self) -> u64
        ensures { result ≡ session_here self.now }
    {
        self.session.unwrap_or(0)
    }

    /// Ends the client without an `umount`: it drops its session, its operation, handles, views, pending bytes and cache.
    /// Takes no memory.
    pub fn crash(&mut self)
        ensures { self.new ≡ crashed self.old }
    {
        self.session = None;
        self.handles.clear();
        self.sustained.clear();
        self.pending.clear_all();
        self.cache = None;
        forget(&mut self.doing);
    }
}

/// The operation is no more.
pub(crate) fn forget(doing: &mut Option<Doing>)
    ensures { doing.new ≡ None }
{
    *doing = None;
}
