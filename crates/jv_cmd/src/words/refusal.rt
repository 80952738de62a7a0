ghost use Rattle.std.specs.Prelude.{◌≡◌, IfOk, string_bytes};
ghost use Rattle.clap.specs.Words.{kind_of};
ghost use Rattle.clap.specs.declared.error.kind.ErrorKind.TheVariants.{OutOfMemory};
ghost use Rattle.jv_cmd.specs.declared.command.TheConstants.{WORDS_REFUSED};
ghost use Rattle.jv_cmd.specs.promise.Saying.{EndsInFeed, Says};
ghost use Rattle.jv_cmd.specs.Words.{HasFeed, SaysRefused};
ghost use Rattle.jv_cmd.specs.promise.Words.{refused_text};

use super::request::WordsFault;
use crate::command::WORDS_REFUSED;
use crate::ended::say;
use clap::Error;
use clap::error::ErrorKind;
use jv_outside::Sink;
use std::alloc::{AllocError, Global};

/// The text of a refusal that says nothing of the words.
const REFUSED: &str = "juicevol: words refused\n";

/// Says on standard error that the words are refused, and returns the exit status, [`WORDS_REFUSED`]. A fault there is
/// passed over.
pub fn refuse<E: Sink>(err: &mut E) -> u8
    ensures says { Says (E.seen err.old) (E.seen err.new) refused_text }
    ensures status { result ≡ WORDS_REFUSED }
{
    say(REFUSED.as_bytes(), err);
    WORDS_REFUSED
}

/// The refusal of words that `clap` takes.
pub(crate) fn refused(alloc: Global) -> WordsFault
    ensures { SaysRefused result }
{
    match String::from_str(alloc, REFUSED) {
        Ok(text) => WordsFault::Refused(text),
        Err(_) => WordsFault::Memory,
    }
}

/// The refusal of words that `clap` refuses, in its own words where they are of a command that is built.
#[tactic(auto, using(crate::proofs::asked::AskedLaws::feed_of_own))]
pub(crate) fn refused_by_clap(alloc: Global, words: &[String], error: &Error) -> WordsFault
    ensures memory { kind_of error.now ≡ OutOfMemory → result ≡ WordsFault.Memory }
    ensures feed { HasFeed result }
{
    match error.kind() {
        ErrorKind::OutOfMemory => WordsFault::Memory,
        ErrorKind::DisplayHelp => own_text(alloc, error),
        _ if is_unbuilt(words) => refused(alloc),
        _ => own_text(alloc, error),
    }
}

/// Whether the words ask for what isn't built yet.
fn is_unbuilt(words: &[String]) -> bool {
    match words.first() {
        Some(command) => matches!(command.as_str(), "fsck" | "gc" | "dump" | "load"),
        None => false,
    }
}

fn own_text(alloc: Global, error: &Error) -> WordsFault
    ensures { HasFeed result }
{
    match text_of(alloc, error) {
        Ok(text) => WordsFault::Refused(text),
        Err(_) => WordsFault::Memory,
    }
}

/// The text of `clap` for the error, which ends with a line feed.
fn text_of(alloc: Global, error: &Error) -> Result<String, AllocError>
    ensures { IfOk result (λ text. EndsInFeed (string_bytes text)) }
{
    let text = format!(in alloc; "{error}")?;
    let mut kept = without_hints(alloc, text.as_str())?;
    kept.push_str("\n")?;
    Ok(kept)
}

/// The lines of a text of `clap`, without those that guess at what was meant and the blank line above them. Where there
/// is a guess the usage is one of them: it names the option that is taken for meant.
fn without_hints(alloc: Global, text: &str) -> Result<String, AllocError> {
    let has_guess = text.lines().any(is_tip);
    let mut kept = String::new(alloc);
    let mut is_after_blank = false;
    for line in text.lines() {
        let is_hint = is_tip(line) || has_guess && line.starts_with("Usage: ");
        if !is_hint && !(line.is_empty() && is_after_blank) {
            if !kept.is_empty() {
                kept.push_str("\n")?;
            }
            kept.push_str(line)?;
            is_after_blank = line.is_empty();
        }
    }
    Ok(kept)
}

fn is_tip(line: &str) -> bool {
    line.starts_with("  tip: ")
}
