//! The program's commands and their options, with their help.
ghost use Rattle.std.specs.Prelude.{◌≡◌, IfOk, codes, false};
ghost use Rattle.clap.specs.Words.{app_of, rule_of, shape_of, with_rule, with_subcommand};
ghost use Rattle.clap.specs.declared.builder.command.Command.TheViews.{out-Command};
ghost use Rattle.jv_cmd.specs.Program.{IsApp, IsRule};
ghost use Rattle.jv_cmd.specs.promise.Program.{bare_app, flag, format_app, free_option, option, positional, program_app, required_option, session_app, with_limits, with_objects, with_sizes, with_staging};

use clap::{Arg, ArgAction, Command};
use std::alloc::{AllocError, Global};

/// What follows the options in the help of `session`.
const FORM_OF_A_LINE: &str = "\
A line of the script is a client, A to H, and an operation, as in `A create /f 0644`, or one of
`begin OPERATION`, `step`, `run` and `crash` in its place; or it is `tick SECONDS`. Each prints one line.
The operations, their answers and errors are in docs/MANUAL.md.";

/// The program, as `clap` reads its words. They begin with the command, and not with the program's name.
#[tactic(auto, unfolding(crate::specs::promise::Program::program_app))]
pub(crate) fn program<'a>(alloc: Global) -> Result<Command<'a>, AllocError>
    ensures { IfOk result (IsApp program_app) }
{
    let program = with_command(bare_program(alloc)?, format(alloc)?)?;
    with_command(program, session(alloc)?)
}

fn bare_program<'a>(alloc: Global) -> Result<Command<'a>, AllocError>
    ensures { IfOk result (IsApp bare_app) }
{
    Command::new(alloc, "juicevol")
        .about(
            "A JuiceFS volume: POSIX files that clients share, with their bytes in an object store",
        )
        .no_binary_name(true)
        .subcommand_required(true)
        .arg_required_else_help(true)
        .bin_name("juicevol")
}

fn format<'a>(alloc: Global) -> Result<Command<'a>, AllocError>
    ensures { IfOk result (IsApp format_app) }
{
    let command = Command::new(alloc, "format").about("Make a new, empty volume");
    let command = with_arg(command, url(alloc))?;
    let name = positional(
        alloc,
        "name",
        "NAME",
        "The name of the volume: 3 to 63 lower-case letters, digits and '-', with a letter or digit at each end",
    );
    let command = with_arg(command, name)?;
    let command = with_objects(alloc, command)?;
    with_limits(alloc, command)
}

/// The options of `format` on how objects are stored.
fn with_objects<'a>(alloc: Global, command: Command<'a>) -> Result<Command<'a>, AllocError>
    requires { (out-Command command).has_globals ≡ false }
    ensures { IfOk result (IsApp (with_objects (app_of command.entry))) }
{
    let bucket = required_option(
        alloc,
        "bucket",
        "TEXT",
        "Where the objects lie: 1 to 1024 bytes",
    );
    let storage = option(
        alloc,
        "storage",
        "KIND",
        "file",
        "The kind of object store; file is the only one",
    );
    let compress = option(
        alloc,
        "compress",
        "KIND",
        "none",
        "How blocks are compressed; none is the only way",
    );
    let hash_prefix = flag(
        alloc,
        "hash-prefix",
        "Begin the name of each object with a hash",
    );
    let command = with_arg(command, bucket)?;
    let command = with_arg(command, storage)?;
    let command = with_arg(command, compress)?;
    with_arg(command, hash_prefix)
}

/// The options of `format` on what the volume holds.
fn with_limits<'a>(alloc: Global, command: Command<'a>) -> Result<Command<'a>, AllocError>
    requires { (out-Command command).has_globals ≡ false }
    ensures { IfOk result (IsApp (with_limits (app_of command.entry))) }
{
    let block = option(
        alloc,
        "block-size",
        "N",
        "4M",
        "The length of a block, in KiB or with a suffix K or M: a power of two from 64K to 16M",
    );
    let capacity = option(
        alloc,
        "capacity",
        "N",
        "0",
        "The greatest used space in GiB, 0 to 4294967296; 0 stands for 2^62 bytes",
    );
    let inodes = option(
        alloc,
        "inodes",
        "N",
        "0",
        "The greatest number of used inodes, 0 to 2^62; 0 stands for 2^62",
    );
    let trash = option(
        alloc,
        "trash-days",
        "N",
        "1",
        "How many days removed files stay in the trash, 0 to 36500; 0 turns the trash off",
    );
    let command = with_arg(command, block)?;
    let command = with_arg(command, capacity)?;
    let command = with_arg(command, inodes)?;
    with_arg(command, trash)
}

fn session<'a>(alloc: Global) -> Result<Command<'a>, AllocError>
    ensures { IfOk result (IsApp session_app) }
{
    let command = Command::new(alloc, "session")
        .about("Run the script on standard input over a volume")
        .after_help(FORM_OF_A_LINE);
    let command = with_arg(command, url(alloc))?;
    let command = with_sizes(alloc, command)?;
    let command = with_staging(alloc, command)?;
    with_arg(command, generate(alloc))
}

/// The options of `session` on what its clients hold, and how many uploads run.
fn with_sizes<'a>(alloc: Global, command: Command<'a>) -> Result<Command<'a>, AllocError>
    requires { (out-Command command).has_globals ≡ false }
    ensures { IfOk result (IsApp (with_sizes (app_of command.entry))) }
{
    let cache = option(
        alloc,
        "cache-size",
        "N",
        "64",
        "The cache of each client in MiB, 0 to 256; 0 keeps no block",
    );
    let buffer = option(
        alloc,
        "buffer-size",
        "N",
        "32",
        "The most pending bytes of each client in MiB, 8 to 256",
    );
    let uploads = option(
        alloc,
        "max-uploads",
        "N",
        "20",
        "How many uploads run at once, 0 to 64; with 0 only script lines upload",
    );
    let command = with_arg(command, cache)?;
    let command = with_arg(command, buffer)?;
    with_arg(command, uploads)
}

/// The options of `session` on local files.
fn with_staging<'a>(alloc: Global, command: Command<'a>) -> Result<Command<'a>, AllocError>
    requires { (out-Command command).has_globals ≡ false }
    ensures { IfOk result (IsApp (with_staging (app_of command.entry))) }
{
    let writeback = flag(
        alloc,
        "writeback",
        "Stage written blocks first and upload them later",
    );
    let folder = option(
        alloc,
        "cache-dir",
        "TEXT",
        "juicevol-cache",
        "The folder of staged blocks",
    );
    let command = with_arg(command, writeback)?;
    with_arg(command, folder)
}

/// The option of `session` for a script that is drawn.
fn generate<'a>(alloc: Global) -> Arg<'a>
    ensures { IsRule (free_option (codes "generate")) result }
{
    free_option(
        alloc,
        "generate",
        "N",
        "Run the script drawn from the seed N, of at most 19 digits, instead, and print its totals alone",
    )
}

fn url<'a>(alloc: Global) -> Arg<'a>
    ensures { IsRule (positional (codes "url")) result }
{
    positional(
        alloc,
        "url",
        "META-URL",
        "Where the rows of the volume lie: sqlite3://PATH",
    )
}

/// A value by its place, that has to be given.
fn positional<'a>(alloc: Global, id: &'a str, shown: &'a str, help: &'a str) -> Arg<'a>
    ensures { IsRule (positional id.entry.now) result }
{
    Arg::new(alloc, id)
        .action(ArgAction::Set)
        .value_name(shown)
        .required(true)
        .help(help)
}

/// An option with a value, that has to be given.
fn required_option<'a>(alloc: Global, id: &'a str, shown: &'a str, help: &'a str) -> Arg<'a>
    ensures { IsRule (required_option id.entry.now) result }
{
    Arg::new(alloc, id)
        .long(id)
        .action(ArgAction::Set)
        .value_name(shown)
        .required(true)
        .help(help)
}

/// An option with a value, that has a default.
fn option<'a>(
    alloc: Global,
    id: &'a str,
    shown: &'a str,
    default: &'a str,
    help: &'a str,
) -> Arg<'a>
    ensures { IsRule (option id.entry.now default.entry.now) result }
{
    Arg::new(alloc, id)
        .long(id)
        .action(ArgAction::Set)
        .value_name(shown)
        .default_value(default)
        .help(help)
}

/// An option with a value, that may be left out.
fn free_option<'a>(alloc: Global, id: &'a str, shown: &'a str, help: &'a str) -> Arg<'a>
    ensures { IsRule (free_option id.entry.now) result }
{
    Arg::new(alloc, id)
        .long(id)
        .action(ArgAction::Set)
        .value_name(shown)
        .help(help)
}

/// An option without a value.
fn flag<'a>(alloc: Global, id: &'a str, help: &'a str) -> Arg<'a>
    ensures { IsRule (flag id.entry.now) result }
{
    Arg::new(alloc, id)
        .long(id)
        .action(ArgAction::SetTrue)
        .help(help)
}

fn with_arg<'a>(command: Command<'a>, arg: Arg<'a>) -> Result<Command<'a>, AllocError>
    requires command { (out-Command command).has_globals ≡ false }
    requires arg { arg.global ≡ false }
    ensures { IfOk result (IsApp (with_rule (app_of command.entry) (rule_of arg.entry))) }
{
    command.arg(arg)
}

fn with_command<'a>(above: Command<'a>, command: Command<'a>) -> Result<Command<'a>, AllocError>
    requires above { (out-Command above).has_globals ≡ false }
    requires command { (out-Command command).has_globals ≡ false }
    ensures { IfOk result (IsApp (with_subcommand (app_of above.entry) (shape_of command.entry))) }
{
    above.subcommand(command)
}
