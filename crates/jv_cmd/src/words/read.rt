ghost use Rattle.std.specs.Prelude.{◌≡◌, ◌≤◌, IfOk, IfErr, map, string_bytes, codes};
ghost use Rattle.std.specs.Option.{option_copied};
ghost use Rattle.clap.specs.Words.{first_of, found_of, rows_of, subcommand_rows_of};
ghost use Rattle.jv_cmd.specs.declared.words.read.BadValue.TheVariants as bad;
ghost use Rattle.jv_cmd.specs.promise.Values.{block_size_of, number_within, place_of};
ghost use Rattle.jv_cmd.specs.Words.{Answers, Parses, Reads, Refuses};
ghost use Rattle.jv_cmd.specs.promise.Words.{asked, command_at, format_in, has_text, options_in, seed_of, session_asked, setting_asked, setting_fields_in, stored_setting_in, value_in, where_allowed};

use super::program::program;
use super::refusal::{refused, refused_by_clap};
use super::request::{Command, SessionOptions, WordsFault};
use super::values::{block_size, number, number_within, place};
use clap::ArgMatches;
use jv_model::options::{MAX_BUFFER, MAX_CACHE, MAX_UPLOADS, MIN_BUFFER};
use jv_model::tables::ROWS_VERSION;
use jv_model::{FULL_COUNT, MAX_CAPACITY, MAX_TRASH_DAYS, Setting, Text, copied};
use jv_rows::allows_setting;
use std::alloc::{AllocError, Global};

/// Why matched words are no command.
#[derive(Clone, Copy, Debug, PartialEq, Eq)]
pub(crate) enum BadValue {
    /// A value is out of its range.
    OutOfRange,
    /// Out of memory.
    Memory,
}

impl From<AllocError> for BadValue {
    ghost from_gives = { λ _ off. off ≡ bad.Memory };

    fn from(_error: AllocError) -> BadValue {
        BadValue::Memory
    }
}

/// Reads the words after the program's name. JuiceFS, Command Reference: `format`, `mount`.
///
/// # Errors
///
/// [`WordsFault::Refused`] with the text for standard error, which ends with a line feed, if and only if the words ask
/// for no command: where `clap` refuses them, also for a request for help, and where a value is out of its range.
/// [`WordsFault::Memory`] out of memory.
pub fn read_words(alloc: Global, words: &[String]) -> Result<Command, WordsFault>
    ensures asked { Answers (asked (map string_bytes words.now)) result }
    ensures refusal { IfErr result (Refuses (map string_bytes words.now)) }
{
    let matches = parse(alloc, words)?;
    match command(alloc, &matches) {
        Ok(command) => Ok(command),
        Err(BadValue::OutOfRange) => Err(refused(alloc)),
        Err(BadValue::Memory) => Err(WordsFault::Memory),
    }
}

fn parse<'a>(alloc: Global, words: &'a [String]) -> Result<ArgMatches<'a>, WordsFault>
    ensures { Parses (map string_bytes words.entry.now) result }
{
    match program(alloc)?.try_get_matches_from(words) {
        Ok(matches) => Ok(matches),
        Err(error) => Err(refused_by_clap(alloc, words, &error)),
    }
}

fn command(alloc: Global, matches: &ArgMatches<'_>) -> Result<Command, BadValue>
    ensures { Reads result (command_at (subcommand_rows_of matches.now)) }
{
    let Some((name, values)) = matches.subcommand() else {
        return Err(BadValue::OutOfRange);
    };
    if name == "format" {
        return format(alloc, values);
    }
    if name == "session" {
        return session(alloc, values);
    }
    Err(BadValue::OutOfRange)
}

#[tactic(auto, unfolding(crate::specs::promise::Words::format_in))]
fn format(alloc: Global, values: &ArgMatches<'_>) -> Result<Command, BadValue>
    ensures { Reads result (format_in (rows_of (found_of values.now))) }
{
    let place = place_in(alloc, values)?;
    let setting = setting(alloc, values)?;
    Ok(Command::Format { place, setting })
}

#[tactic(auto, unfolding(crate::specs::promise::Words::session_asked))]
fn session(alloc: Global, values: &ArgMatches<'_>) -> Result<Command, BadValue>
    ensures { Reads result (session_asked (rows_of (found_of values.now))) }
{
    let place = place_in(alloc, values)?;
    let options = options(alloc, values)?;
    Ok(Command::Session { place, options })
}

fn setting(alloc: Global, values: &ArgMatches<'_>) -> Result<Setting, BadValue>
    ensures { Reads result (setting_asked (rows_of (found_of values.now))) }
{
    if has_text(values, "storage", "file") && has_text(values, "compress", "none") {
        stored_setting(alloc, values)
    } else {
        Err(BadValue::OutOfRange)
    }
}

#[tactic(auto, unfolding(crate::specs::promise::Words::stored_setting_in))]
fn stored_setting(alloc: Global, values: &ArgMatches<'_>) -> Result<Setting, BadValue>
    ensures { Reads result (stored_setting_in (rows_of (found_of values.now))) }
{
    where_allowed(setting_fields(alloc, values)?)
}

#[tactic(auto, unfolding(crate::specs::promise::Words::setting_fields_in))]
fn setting_fields(alloc: Global, values: &ArgMatches<'_>) -> Result<Setting, BadValue>
    ensures { Reads result (setting_fields_in (rows_of (found_of values.now))) }
{
    let block = block_in(values)?;
    let capacity = number_in(values, "capacity", 0, MAX_CAPACITY)?;
    let inodes = number_in(values, "inodes", 0, FULL_COUNT)?;
    let trash_days = number_in(values, "trash-days", 0, u64::from(MAX_TRASH_DAYS))? as u32;
    let name = copied_in(alloc, values, "name")?;
    let bucket = copied_in(alloc, values, "bucket")?;
    Ok(Setting {
        version: ROWS_VERSION,
        block,
        trash_days,
        capacity,
        inodes,
        hash: u8::from(has_text(values, "hash-prefix", "true")),
        name,
        bucket,
    })
}

/// The setting, where rows may have it.
fn where_allowed(setting: Setting) -> Result<Setting, BadValue>
    ensures { Reads result (where_allowed setting) }
{
    if allows_setting(&setting) {
        Ok(setting)
    } else {
        Err(BadValue::OutOfRange)
    }
}

#[tactic(auto, unfolding(crate::specs::promise::Words::options_in))]
fn options(alloc: Global, values: &ArgMatches<'_>) -> Result<SessionOptions, BadValue>
    ensures { Reads result (options_in (rows_of (found_of values.now))) }
{
    let cache = number_in(values, "cache-size", 0, MAX_CACHE)?;
    let buffer = number_in(values, "buffer-size", MIN_BUFFER, MAX_BUFFER)?;
    let uploads = number_in(values, "max-uploads", 0, MAX_UPLOADS)? as u32;
    let cache_dir = copied_in(alloc, values, "cache-dir")?;
    let generate = seed_in(values)?;
    Ok(SessionOptions {
        cache,
        buffer,
        uploads,
        writeback: has_text(values, "writeback", "true"),
        cache_dir,
        generate,
    })
}

/// The seed of a script that is drawn, where one is asked for.
fn seed_in(values: &ArgMatches<'_>) -> Result<Option<u64>, BadValue>
    ensures { Reads result (seed_of (first_of (codes "generate") (rows_of (found_of values.now)))) }
{
    let Some(text) = text_in(values, "generate") else {
        return Ok(None);
    };
    let seed = number(text).ok_or(BadValue::OutOfRange)?;
    Ok(Some(seed))
}

fn place_in(alloc: Global, values: &ArgMatches<'_>) -> Result<Text, BadValue>
    ensures { Reads result (value_in place_of (codes "url") (rows_of (found_of values.now))) }
{
    let url = text_in(values, "url").ok_or(BadValue::OutOfRange)?;
    let path = place(url).ok_or(BadValue::OutOfRange)?;
    Ok(copied(alloc, path)?)
}

/// A value that is kept as its bytes.
fn copied_in(alloc: Global, values: &ArgMatches<'_>, id: &str) -> Result<Text, BadValue>
    ensures { Reads result (first_of id.now (rows_of (found_of values.now))) }
{
    let text = text_in(values, id).ok_or(BadValue::OutOfRange)?;
    Ok(copied(alloc, text)?)
}

fn block_in(values: &ArgMatches<'_>) -> Result<u32, BadValue>
    ensures { Reads result (value_in block_size_of (codes "block-size")
        (rows_of (found_of values.now))) }
{
    let text = text_in(values, "block-size").ok_or(BadValue::OutOfRange)?;
    block_size(text).ok_or(BadValue::OutOfRange)
}

fn number_in(values: &ArgMatches<'_>, id: &str, least: u64, most: u64) -> Result<u64, BadValue>
    ensures value { Reads result (value_in (number_within least most) id.now
        (rows_of (found_of values.now))) }
    ensures range { IfOk result (λ n. n ≤ most) }
{
    let text = text_in(values, id).ok_or(BadValue::OutOfRange)?;
    number_within(least, most, text).ok_or(BadValue::OutOfRange)
}

/// Whether the value of this name is this text.
fn has_text(values: &ArgMatches<'_>, id: &str, text: &str) -> bool
    ensures { result ≡ has_text id.now text.now (rows_of (found_of values.now)) }
{
    text_in(values, id).is_some_and(|value| value == text.as_bytes())
}

/// The value of this name, where it has one: by its default, or because it was given.
fn text_in<'a>(values: &ArgMatches<'a>, id: &str) -> Option<&'a [u8]>
    ensures { option_copied result ≡ first_of id.now (rows_of (found_of values.now)) }
{
    Some(values.get_str(id)?.as_bytes())
}
