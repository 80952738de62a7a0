//! The answers of operations, by what their transactions return.
ghost use Rattle.std.specs.Prelude.{◌≡◌, None, Some};
ghost use Rattle.jv_model.specs.Optional.{mapped};
ghost use Rattle.jv_links.specs.Removals.{kept_of};
ghost use Rattle.jv_client_metadata.specs.Attempts.{plain};
ghost use Rattle.jv_model.specs.declared.op.Reply.TheVariants as reply;

use jv_links::{Fate, Removed};
use jv_model::{Attr, Bytes, EntryList, Reply, Space, TxFault};

/// What a transaction on metadata returns.
#[derive(Debug, Drop)]
pub struct Answer {
    pub reply: Reply,
    /// The file that lost its last entry and that the caller's session keeps from then on.
    pub kept: Option<u64>,
}

/// An answer, where no file is kept.
fn plain(reply: Reply) -> Answer
    ensures { result ≡ plain reply }
{
    Answer { reply, kept: None }
}

/// Nothing more than that it is done.
pub(crate) fn done(made: Result<(), TxFault>) -> Result<Answer, TxFault>
    ensures { result ≡ mapped (λ unit. plain reply.Done) made }
{
    made?;
    Ok(plain(Reply::Done))
}

/// An inode.
pub(crate) fn found(made: Result<u64, TxFault>) -> Result<Answer, TxFault>
    ensures { result ≡ mapped (λ inode. plain (reply.Found inode)) made }
{
    let inode = made?;
    Ok(plain(Reply::Found { inode }))
}

/// A handle on a file.
pub(crate) fn opened(made: Result<u64, TxFault>, handle: u64) -> Result<Answer, TxFault>
    ensures { result ≡ mapped (λ inode. plain (reply.FileOpened handle inode)) made }
{
    let inode = made?;
    Ok(plain(Reply::FileOpened { handle, inode }))
}

/// Attributes.
pub(crate) fn described(made: Result<Attr, TxFault>) -> Result<Answer, TxFault>
    ensures { result ≡ mapped (λ attr. plain (reply.Described attr)) made }
{
    Ok(plain(Reply::Described(made?)))
}

/// The entries of a directory.
pub(crate) fn entries(made: Result<EntryList, TxFault>) -> Result<Answer, TxFault>
    ensures { result ≡ mapped (λ entries. plain (reply.Entries entries)) made }
{
    Ok(plain(Reply::Entries(made?)))
}

/// What a volume has and may have.
pub(crate) fn usage(made: Result<Space, TxFault>) -> Result<Answer, TxFault>
    ensures { result ≡ mapped (λ space. plain (reply.Usage space)) made }
{
    Ok(plain(Reply::Usage(made?)))
}

/// A symlink's target.
pub(crate) fn target(made: Result<Bytes, TxFault>) -> Result<Answer, TxFault>
    ensures { result ≡ mapped (λ target. plain (reply.Target target)) made }
{
    Ok(plain(Reply::Target(made?)))
}

/// The file that a session keeps once this was removed.
fn kept(removed: Removed) -> Option<u64>
    ensures { result ≡ kept_of (Some removed) }
{
    match removed.fate {
        Fate::Sustained => Some(removed.inode),
        Fate::Linked | Fate::Trashed | Fate::Dropped => None,
    }
}

/// That an entry was removed, and whether its file is kept.
pub(crate) fn unlinked(made: Result<Removed, TxFault>) -> Result<Answer, TxFault>
    ensures { result ≡ mapped (λ removed. record {
      reply = reply.Done;
      kept = kept_of (Some removed);
    }) made }
{
    let kept = kept(made?);
    Ok(Answer {
        reply: Reply::Done,
        kept,
    })
}

/// That an entry was renamed, and whether the file that it replaced is kept.
pub(crate) fn renamed(made: Result<Option<Removed>, TxFault>) -> Result<Answer, TxFault>
    ensures { result ≡ mapped (λ removed. record { reply = reply.Done; kept = kept_of removed })
        made }
{
    let kept = match made? {
        Some(removed) => kept(removed),
        None => None,
    };
    Ok(Answer {
        reply: Reply::Done,
        kept,
    })
}
