//! Printed answers.
ghost use Rattle.std.specs.Prelude.{◌≡◌, true, ◌++◌, codes, IfOk, OnOk};
ghost use Rattle.jv_model.specs.promise.script.Printed.{data_text, ok_text};
ghost use Rattle.jv_model.specs.promise.script.ReplyText.{reply_text, printed_line};
ghost use Rattle.jv_script.specs.Printing.{is_counts};

use crate::data_text::push_data;
use crate::faults::push_refusal;
use crate::names::{push_attr, push_entries, push_path, push_uploaded};
use crate::numbers::push_numbers;
use jv_model::{Bytes, Reply, Sequence, Setting};
use std::alloc::{AllocError, Global};

/// As many bytes as most answers that aren't DATA have at most.
const SHORT: usize = 64;

/// The printed line of an answer on a volume with this setting, with its line feed. The only error is out of memory.
pub fn print_reply(alloc: Global, setting: &Setting, reply: &Reply) -> Result<Bytes, AllocError>
    ensures { IfOk result (λ line. line ≡ printed_line setting.now reply.now) }
{
    // No part of DATA has more than two bytes for each of its own, the `+` before the next one included.
    let likely = match reply {
        Reply::Data(bytes) => bytes.len().saturating_mul(2).saturating_add(8),
        _ => SHORT,
    };
    let mut line = Vec::with_capacity(alloc, likely)?;
    push_reply(alloc, &mut line, setting, reply)?;
    line.push(b'\n')?;
    Ok(Sequence::from_vec(line))
}

#[tactic(auto, unfolding(jv_model::specs::promise::script::ReplyText::reply_text))]
fn push_reply(
    alloc: Global,
    text: &mut Vec<u8>,
    setting: &Setting,
    reply: &Reply,
) -> Result<(), AllocError>
    ensures { OnOk result (text.new.items ≡ text.old.items ++ reply_text setting.now reply.now) }
{
    match reply {
        Reply::Refused(fault) => push_refusal(text, fault),
        Reply::Described(attr) => {
            text.extend_from_slice(b"ok")?;
            push_attr(text, attr)
        }
        Reply::Data(bytes) => push_read_bytes(text, bytes.as_slice()),
        Reply::Entries(entries) => {
            text.extend_from_slice(b"ok ")?;
            push_entries(text, entries.as_slice())
        }
        Reply::Target(target) => {
            text.extend_from_slice(b"ok ")?;
            push_path(text, target.as_slice())
        }
        Reply::Uploaded(block) => {
            text.extend_from_slice(b"ok ")?;
            push_uploaded(alloc, text, setting, block)
        }
        _ => push_counts(text, setting, reply),
    }
}

// Answers that are numbers, or nothing at all.
#[tactic(auto, unfolding(jv_model::specs::promise::script::ReplyText::reply_text))]
fn push_counts(text: &mut Vec<u8>, setting: &Setting, reply: &Reply) -> Result<(), AllocError>
    requires { is_counts reply.now ≡ true }
    ensures { OnOk result (text.new.items ≡ text.old.items ++ reply_text setting.now reply.now) }
{
    match reply {
        Reply::SessionMade { sid } => push_success(text, &[*sid]),
        Reply::Found { inode } => push_success(text, &[*inode]),
        Reply::FileOpened { handle, inode } => push_success(text, &[*handle, *inode]),
        Reply::Count { bytes } => push_success(text, &[*bytes]),
        Reply::Usage(space) => {
            push_success(
                text,
                &[space.used, space.capacity, space.inodes, space.limit],
            )
        }
        Reply::Compaction { before, after } => {
            push_success(text, &[u64::from(*before), u64::from(*after)])
        }
        Reply::Cleanup {
            sessions,
            trash,
            files,
            slices,
        } => push_success(text, &[*sessions, *trash, *files, *slices]),
        Reply::Leaked { count, bytes } => push_success(text, &[*count, *bytes]),
        Reply::CacheStats {
            hits,
            misses,
            cached,
            pending,
        } => push_success(text, &[*hits, *misses, *cached, *pending]),
        _ => push_success(text, &[]),
    }
}

fn push_success(text: &mut Vec<u8>, numbers: &[u64]) -> Result<(), AllocError>
    ensures { OnOk result (text.new.items ≡ text.old.items ++ ok_text numbers.now) }
{
    text.extend_from_slice(b"ok")?;
    push_numbers(text, numbers)
}

fn push_read_bytes(text: &mut Vec<u8>, bytes: &[u8]) -> Result<(), AllocError>
    ensures { OnOk result
        (text.new.items ≡ text.old.items ++ (codes "ok " ++ data_text bytes.now)) }
{
    text.extend_from_slice(b"ok ")?;
    push_data(text, bytes)
}
