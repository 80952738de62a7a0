//! Refusals, printed.
ghost use Rattle.std.specs.Prelude.{◌≡◌, ◌++◌, codes, OnOk};
ghost use Rattle.jv_model.specs.promise.script.Printed.{device_name, gone_words, busy_words, fault_name, fault_words, fault_text};

use crate::numbers::push_number;
use jv_model::{Busy, Device, Fault, Gone};
use std::alloc::AllocError;

pub(crate) fn push_refusal(text: &mut Vec<u8>, fault: &Fault) -> Result<(), AllocError>
    ensures { OnOk result
        (text.new.items ≡ text.old.items ++ (codes "err " ++ fault_text fault.now)) }
{
    text.extend_from_slice(b"err ")?;
    text.extend_from_slice(fault_name(fault).as_bytes())?;
    push_fault_words(text, fault)
}

#[tactic(auto, unfolding(jv_model::specs::promise::script::Printed::fault_name))]
fn fault_name(fault: &Fault) -> &'static str
    ensures { result.now ≡ fault_name fault.now }
{
    match fault {
        Fault::NotFound => "ENOENT",
        Fault::AlreadyExists => "EEXIST",
        Fault::NotADirectory => "ENOTDIR",
        Fault::IsADirectory => "EISDIR",
        Fault::DirectoryNotEmpty => "ENOTEMPTY",
        Fault::Invalid => "EINVAL",
        Fault::NameTooLong => "ENAMETOOLONG",
        Fault::BadHandle => "EBADF",
        Fault::NoSpace => "ENOSPC",
        Fault::FileTooLarge => "EFBIG",
        Fault::SymlinkLoop => "ELOOP",
        Fault::NotPermitted => "EPERM",
        Fault::TooManyHandles => "EMFILE",
        Fault::TryAgain { .. } => "EAGAIN",
        Fault::Stale(_) => "ESTALE",
        Fault::TimedOut { .. } => "ETIMEDOUT",
        Fault::Contended(_) => "EBUSY",
        Fault::DeviceFailed(_) => "EIO",
        Fault::NotConnected => "ENOTCONN",
        Fault::InProgress => "EALREADY",
        Fault::NoMemory => "ENOMEM",
    }
}

#[tactic(auto, unfolding(jv_model::specs::promise::script::Printed::fault_words))]
fn push_fault_words(text: &mut Vec<u8>, fault: &Fault) -> Result<(), AllocError>
    ensures { OnOk result (text.new.items ≡ text.old.items ++ fault_words fault.now) }
{
    match fault {
        Fault::TryAgain { commit } => push_number(text, *commit),
        Fault::Stale(gone) => push_gone(text, *gone),
        Fault::TimedOut { started, now } => {
            push_number(text, *started)?;
            push_number(text, *now)
        }
        Fault::Contended(busy) => push_busy(text, *busy),
        Fault::DeviceFailed(device) => {
            text.push(b' ')?;
            text.extend_from_slice(device_name(*device).as_bytes())
        }
        _ => Ok(()),
    }
}

fn push_gone(text: &mut Vec<u8>, gone: Gone) -> Result<(), AllocError>
    ensures { OnOk result (text.new.items ≡ text.old.items ++ gone_words gone) }
{
    match gone {
        Gone::Session(sid) => {
            text.extend_from_slice(b" session")?;
            push_number(text, sid)
        }
        Gone::Node(inode) => {
            text.extend_from_slice(b" inode")?;
            push_number(text, inode)
        }
    }
}

fn push_busy(text: &mut Vec<u8>, busy: Busy) -> Result<(), AllocError>
    ensures { OnOk result (text.new.items ≡ text.old.items ++ busy_words busy) }
{
    match busy {
        Busy::Misses(times) => {
            text.extend_from_slice(b" misses")?;
            push_number(text, u64::from(times))
        }
        Busy::Lists { looked, found } => {
            text.extend_from_slice(b" list")?;
            push_number(text, u64::from(looked))?;
            push_number(text, u64::from(found))
        }
    }
}

fn device_name(device: Device) -> &'static str
    ensures { result.now ≡ device_name device }
{
    match device {
        Device::Keeper => "keeper",
        Device::Depot => "depot",
        Device::Shelf => "shelf",
        Device::Carrier => "carrier",
    }
}
