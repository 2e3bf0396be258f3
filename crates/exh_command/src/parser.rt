//! The parser of the words that name jobs.
ghost use Rattle.std.specs.Prelude.{◌≡◌, [], IfOk, codes, false};
ghost use Rattle.clap.specs.Words.{Shape, app_of, new_app, new_rule, rule_of, with_subcommand};
ghost use Rattle.exh_command.specs.Job.{convert_names, load_flags, pairs_names, serve_names, storm_names};
ghost use Rattle.exh_command.specs.Program.{bare_program};
ghost use Rattle.exh_command.specs.Parser.{HasOwnArgs, ReadsJobs, about_path, about_path_flagged, about_path_with, about_two_paths_with, about_word_perhaps, command_id, flag_rule, only, option_rule, path_rule, with_options, word_rule};

use crate::names::{
    CALLERS, CALLS, CAP, CHECK, COMMAND, CONVERT, COPIES, DUMP, INTO, KEYER, KEYER_NAME, LOAD,
    LONG, MANUAL, NEW, NUMBER, OPEN, PAIRS, PATH, PROGRAM, SAVE, SERVE, STORM, VERSION, WARDS,
};
use clap::{Arg, ArgAction, Command};
use std::alloc::{AllocError, Global};

/// The program's own, which says nothing of the formats'.
pub const PROGRAM_VERSION: &str = "0.1.0";

/// The parser of the words that name jobs: of all commands but the everyday ones.
pub(crate) fn parser<'a>(alloc: Global) -> Result<Command<'a>, AllocError>
    ensures { IfOk result (λ parser. ReadsJobs (app_of parser)) }
{
    let serving = with_command(bare_program(alloc)?, serve(alloc))?;
    let checking = with_command(serving, check(alloc))?;
    let dumping = with_command(checking, dump(alloc))?;
    let loading = with_command(dumping, load(alloc))?;
    let storming = with_command(loading, storm(alloc))?;
    let pairing = with_command(storming, pairs(alloc))?;
    let converting = with_command(pairing, convert(alloc))?;
    let telling = with_command(converting, version(alloc))?;
    with_command(telling, manual(alloc))
}

// A command with one more below it, if that was made. It takes both, so that where one isn't made its caller has nothing
// to drop.
fn with_command<'a>(
    program: Command<'a>,
    made: Result<Command<'a>, AllocError>,
) -> Result<Command<'a>, AllocError>
    requires { IfOk made HasOwnArgs }
    ensures { (command : Shape) → IfOk made.entry (λ one. app_of one ≡ only command) → IfOk result (λ whole. app_of whole ≡ with_subcommand (app_of program.entry) command) }
{
    program.subcommand(made?)
}

/// The program's own command, with none below it.
pub(crate) fn bare_program<'a>(alloc: Global) -> Result<Command<'a>, AllocError>
    ensures { IfOk result (λ command. app_of command ≡ bare_program) }
{
    Command::new(alloc, PROGRAM)
        .about(crate::program::ABOUT)
        .version(PROGRAM_VERSION)
        .after_help(crate::program::TEXT)
        .override_usage(crate::program::USAGE)
        .subcommand_required(true)
        .arg_required_else_help(true)
        .bin_name(PROGRAM)
}

/// The parser of `serve`.
pub(crate) fn serve<'a>(alloc: Global) -> Result<Command<'a>, AllocError>
    ensures own { IfOk result HasOwnArgs }
    ensures is { IfOk result (λ command. app_of command ≡ only (with_options (codes "serve") serve_names)) }
{
    bare_command(
        alloc,
        SERVE,
        crate::serve::ABOUT,
        crate::serve::USAGE,
        crate::serve::TEXT,
    )
    .arg(option(
        alloc,
        OPEN,
        PATH,
        "The page file that the script runs over, or a new one",
    ))?
    .arg(option(
        alloc,
        SAVE,
        PATH,
        "Where the pages are saved once the run is done",
    ))
}

/// The parser of `check`.
pub(crate) fn check<'a>(alloc: Global) -> Result<Command<'a>, AllocError>
    ensures own { IfOk result HasOwnArgs }
    ensures is { IfOk result (λ command. app_of command ≡ only (about_path (codes "check"))) }
{
    path_command(
        alloc,
        CHECK,
        crate::check::ABOUT,
        crate::check::USAGE,
        crate::check::TEXT,
    )
}

/// The parser of `dump`.
pub(crate) fn dump<'a>(alloc: Global) -> Result<Command<'a>, AllocError>
    ensures own { IfOk result HasOwnArgs }
    ensures is { IfOk result (λ command. app_of command ≡ only (about_path (codes "dump"))) }
{
    path_command(
        alloc,
        DUMP,
        crate::dump::ABOUT,
        crate::dump::USAGE,
        crate::dump::TEXT,
    )
}

/// The parser of `load`.
pub(crate) fn load<'a>(alloc: Global) -> Result<Command<'a>, AllocError>
    ensures own { IfOk result HasOwnArgs }
    ensures is { IfOk result (λ command. app_of command ≡ only (about_path_flagged (codes "load") load_flags)) }
{
    path_command(
        alloc,
        LOAD,
        crate::load::ABOUT,
        crate::load::USAGE,
        crate::load::TEXT,
    )?
    .arg(flag(alloc, LONG, "Takes a text of any length, line by line"))?
    .arg(flag(alloc, INTO, "The same, into the page file that is there"))
}

/// The parser of `storm`.
pub(crate) fn storm<'a>(alloc: Global) -> Result<Command<'a>, AllocError>
    ensures own { IfOk result HasOwnArgs }
    ensures is { IfOk result (λ command. app_of command ≡ only (with_options (codes "storm") storm_names)) }
{
    bare_command(
        alloc,
        STORM,
        crate::storm::ABOUT,
        crate::storm::USAGE,
        crate::storm::TEXT,
    )
    .arg(option(
        alloc,
        CALLERS,
        NUMBER,
        "How many callers there are, 1 to 16 [default: 2]",
    ))?
    .arg(option(
        alloc,
        CALLS,
        NUMBER,
        "How many calls each caller makes, 1 to 10000 [default: 100]",
    ))?
    .arg(option(
        alloc,
        CAP,
        NUMBER,
        "How many records a page may have, 1 to 16 [default: 2]",
    ))?
    .arg(option(alloc, WARDS, NUMBER, "0 to 4, for 2^N wards [default: 0]"))?
    .arg(option(
        alloc,
        COPIES,
        NUMBER,
        "How many copies the directory has, 1 to 8 [default: 2]",
    ))
}

/// The parser of `pairs`.
pub(crate) fn pairs<'a>(alloc: Global) -> Result<Command<'a>, AllocError>
    ensures own { IfOk result HasOwnArgs }
    ensures is { IfOk result (λ command. app_of command ≡ only (about_path_with (codes "pairs") pairs_names)) }
{
    path_command(
        alloc,
        PAIRS,
        crate::pairs::ABOUT,
        crate::pairs::USAGE,
        crate::pairs::TEXT,
    )?
    .arg(option(
        alloc,
        CAP,
        NUMBER,
        "The cap of the first line, 1 to 16 [default: the file's]",
    ))?
    .arg(option(
        alloc,
        WARDS,
        NUMBER,
        "Its wards, 0 to 4, for 2^N of them [default: the file's]",
    ))?
    .arg(option(
        alloc,
        KEYER,
        KEYER_NAME,
        "Its keyer, sha or plain [default: the file's]",
    ))
}

/// The parser of `convert`.
pub(crate) fn convert<'a>(alloc: Global) -> Result<Command<'a>, AllocError>
    ensures own { IfOk result HasOwnArgs }
    ensures is { IfOk result (λ command. app_of command ≡ only (about_two_paths_with (codes "convert") convert_names)) }
{
    path_command(
        alloc,
        CONVERT,
        crate::convert::ABOUT,
        crate::convert::USAGE,
        crate::convert::TEXT,
    )?
    .arg(word(alloc, NEW))?
    .arg(option(
        alloc,
        VERSION,
        NUMBER,
        "The version of the new page file, 2 or 3 [default: 3]",
    ))
}

/// The parser of `version`.
pub(crate) fn version<'a>(alloc: Global) -> Result<Command<'a>, AllocError>
    ensures own { IfOk result HasOwnArgs }
    ensures is { IfOk result (λ command. app_of command ≡ only (with_options (codes "version") [])) }
{
    Ok(bare_command(
        alloc,
        VERSION,
        crate::version::ABOUT,
        crate::version::USAGE,
        crate::version::TEXT,
    ))
}

/// The parser of `manual`.
pub(crate) fn manual<'a>(alloc: Global) -> Result<Command<'a>, AllocError>
    ensures own { IfOk result HasOwnArgs }
    ensures is { IfOk result (λ command. app_of command ≡ only (about_word_perhaps (codes "manual") command_id)) }
{
    bare_command(
        alloc,
        MANUAL,
        crate::manual::ABOUT,
        crate::manual::USAGE,
        crate::manual::TEXT,
    )
    .arg(word_perhaps(alloc, COMMAND))
}

// The parser of a command about the file of one path.
fn path_command<'a>(
    alloc: Global,
    name: &'a str,
    about: &'a str,
    usage: &'a str,
    more: &'a str,
) -> Result<Command<'a>, AllocError>
    ensures own { IfOk result HasOwnArgs }
    ensures is { IfOk result (λ command. app_of command ≡ only (about_path name.now)) }
{
    bare_command(alloc, name, about, usage, more).arg(path(alloc))
}

/// A command without arguments: what it does, how it is used, and what help says behind its options.
pub(crate) fn bare_command<'a>(
    alloc: Global,
    name: &'a str,
    about: &'a str,
    usage: &'a str,
    more: &'a str,
) -> Command<'a>
    ensures own { HasOwnArgs result }
    ensures is { app_of result ≡ new_app name.now }
{
    Command::new(alloc, name)
        .about(about)
        .override_usage(usage)
        .after_help(more)
}

// A path, which has to be there.
fn path<'a>(alloc: Global) -> Arg<'a>
    ensures rule { rule_of result ≡ path_rule }
    ensures own { result.global ≡ false }
{
    Arg::new(alloc, PATH).required(true)
}

// A word of this name, which has to be there.
fn word<'a>(alloc: Global, name: &'a str) -> Arg<'a>
    ensures rule { rule_of result ≡ word_rule name.now }
    ensures own { result.global ≡ false }
{
    Arg::new(alloc, name).required(true)
}

// A word of this name, which need not be there.
fn word_perhaps<'a>(alloc: Global, name: &'a str) -> Arg<'a>
    ensures rule { rule_of result ≡ new_rule name.now }
    ensures own { result.global ≡ false }
{
    Arg::new(alloc, name)
}

/// An option, what help calls its value, and what it tells.
pub(crate) fn option<'a>(alloc: Global, name: &'a str, value: &'a str, help: &'a str) -> Arg<'a>
    ensures rule { rule_of result ≡ option_rule name.now }
    ensures own { result.global ≡ false }
{
    Arg::new(alloc, name)
        .long(name)
        .value_name(value)
        .help(help)
}

/// A flag, and what it tells.
pub(crate) fn flag<'a>(alloc: Global, name: &'a str, help: &'a str) -> Arg<'a>
    ensures rule { rule_of result ≡ flag_rule name.now }
    ensures own { result.global ≡ false }
{
    Arg::new(alloc, name)
        .long(name)
        .action(ArgAction::SetTrue)
        .help(help)
}
