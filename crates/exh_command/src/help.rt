//! What help tells of the program and of each command, and the errors that show a usage.
ghost use Rattle.std.specs.Prelude.{◌≡◌, IfOk};
ghost use Rattle.clap.specs.Words.{kind_of};
ghost use Rattle.exh_command.specs.CommandFault.{IsWrong, TellsVersion};

use crate::fault::CliFault;
use crate::names::{
    ATOMIC, BACKUP, BARE, CAP, CHECK, COMPACT, CONVERT, CREATE, CREATE_FLAG, DEL, DUMP, EXPORT,
    FILE, FORMAT, FROM, GET, HEADER, HELP, HEX, IMPORT, JSON, KEY, KEYER, KEYER_NAME, LOAD, MANUAL,
    NAME, NEW_FLAG, NUMBER, PAIRS, PROGRAM, PUT, RAW, REJECTS, REPLACE, SALVAGE, SERVE, STATS,
    STORM, SWAP, VALUE, VERSION, WAIT, WARDS,
};
use crate::parser::{
    bare_command, bare_program, check, convert, dump, flag, load, manual, option, pairs, serve,
    storm, version,
};
use clap::error::{Error, ErrorKind};
use clap::{Arg, Command};
use std::alloc::{AllocError, Global};
use std::convert::AsStr;

/// What the manual says of the program, or of one of its commands: the text of this error, which is the help.
///
/// An `AllocError` where memory is refused.
pub fn manual_text(alloc: Global, command: Option<&str>) -> Result<Error, AllocError> {
    let told = match command {
        Some(name) => help_by(alloc, &[PROGRAM, name, HELP]),
        None => help_by(alloc, &[PROGRAM, HELP]),
    }?;
    match told.kind() {
        ErrorKind::OutOfMemory => Err(AllocError),
        _ => Ok(told),
    }
}

// What these words, which ask for help, are answered.
fn help_by(alloc: Global, words: &[&str]) -> Result<Error, AllocError> {
    match whole_program(alloc)?.try_get_matches_from(words) {
        Err(told) => Ok(told),
        Ok(_) => program_error(alloc, ErrorKind::DisplayHelp, ""),
    }
}

/// The fault of words that are wrong for this command, as the sentence says, with the command's usage. Of a command that
/// there isn't it shows the program's.
pub fn usage_error(alloc: Global, command: &str, sentence: &str) -> CliFault {
    match command_error(alloc, command, sentence) {
        Ok(error) => CliFault::from(error),
        Err(AllocError) => CliFault::Memory,
    }
}

// The error of this command's words.
fn command_error(alloc: Global, command: &str, sentence: &str) -> Result<Error, AllocError> {
    command_named(alloc, command)?.error(ErrorKind::ValueValidation, sentence)
}

// The command of this name, or the whole program where there is none.
fn command_named<'a>(alloc: Global, name: &str) -> Result<Command<'a>, AllocError> {
    match name {
        CREATE => create(alloc),
        GET => get(alloc),
        PUT => put(alloc),
        DEL => del(alloc),
        SWAP => swap(alloc),
        BACKUP => backup(alloc),
        IMPORT => import(alloc),
        EXPORT => export(alloc),
        COMPACT => compact(alloc),
        STATS => stats(alloc),
        SALVAGE => salvage(alloc),
        CHECK => check(alloc),
        DUMP => dump(alloc),
        PAIRS => pairs(alloc),
        LOAD => load(alloc),
        CONVERT => convert(alloc),
        SERVE => serve(alloc),
        STORM => storm(alloc),
        VERSION => version(alloc),
        MANUAL => manual(alloc),
        _ => whole_program(alloc),
    }
}

/// The error of a command line with a word that is not UTF-8.
pub fn not_text(alloc: Global) -> Result<Error, AllocError>
    ensures { IfOk result (λ error. kind_of error ≡ ErrorKind.InvalidValue) }
{
    program_error(
        alloc,
        ErrorKind::InvalidValue,
        "a word of the command line is not UTF-8",
    )
}

// An error as the whole program tells it.
fn program_error(alloc: Global, kind: ErrorKind, message: &str) -> Result<Error, AllocError>
    ensures { IfOk result (λ error. kind_of error ≡ kind) }
{
    whole_program(alloc)?.error(kind, message)
}

/// The fault of these words as the whole program tells it, which knows more commands than those of jobs. One that tells
/// the version stays, and so does that of words that the whole program takes.
pub(crate) fn told_by_program<S: AsStr>(alloc: Global, words: &[S], fault: CliFault) -> CliFault
    ensures wrong { IsWrong result → IsWrong fault }
    ensures version { TellsVersion fault → TellsVersion result }
{
    match fault {
        CliFault::Memory => CliFault::Memory,
        CliFault::Wrong(error) if error.kind() == ErrorKind::DisplayVersion => {
            CliFault::Wrong(error)
        }
        CliFault::Wrong(error) => match told(alloc, words) {
            Ok(Some(told)) => CliFault::from(told),
            Ok(None) => CliFault::Wrong(error),
            Err(AllocError) => CliFault::Memory,
        },
    }
}

// What the whole program says of words that it doesn't take.
fn told<S: AsStr>(alloc: Global, words: &[S]) -> Result<Option<Error>, AllocError> {
    Ok(whole_program(alloc)?.try_get_matches_from(words).err())
}

// The program with all its commands, the everyday ones first.
fn whole_program<'a>(alloc: Global) -> Result<Command<'a>, AllocError> {
    let program = everyday_program(alloc);
    let program = with(program, check(alloc));
    let program = with(program, dump(alloc));
    let program = with(program, pairs(alloc));
    let program = with(program, load(alloc));
    let program = with(program, convert(alloc));
    let program = with(program, serve(alloc));
    let program = with(program, storm(alloc));
    let program = with(program, version(alloc));
    with(program, manual(alloc))
}

// The program with the everyday commands alone.
fn everyday_program<'a>(alloc: Global) -> Result<Command<'a>, AllocError> {
    let program = with(bare_program(alloc), create(alloc));
    let program = with(program, get(alloc));
    let program = with(program, put(alloc));
    let program = with(program, del(alloc));
    let program = with(program, swap(alloc));
    let program = with(program, backup(alloc));
    let program = with(program, import(alloc));
    let program = with(program, export(alloc));
    let program = with(program, compact(alloc));
    let program = with(program, stats(alloc));
    with(program, salvage(alloc))
}

// A program with one command more, where both were made.
fn with<'a>(
    program: Result<Command<'a>, AllocError>,
    command: Result<Command<'a>, AllocError>,
) -> Result<Command<'a>, AllocError> {
    program?.subcommand(command?)
}

// What help tells of `create`.
fn create<'a>(alloc: Global) -> Result<Command<'a>, AllocError> {
    let command = bare_command(
        alloc,
        CREATE,
        crate::create::ABOUT,
        crate::create::USAGE,
        crate::create::TEXT,
    );
    with_new_settings(alloc, command)?.arg(wait(alloc))
}

// A command with the options that name the settings of a new file.
fn with_new_settings<'a>(alloc: Global, command: Command<'a>) -> Result<Command<'a>, AllocError> {
    command
        .arg(option(
            alloc,
            CAP,
            NUMBER,
            "How many records a page may have, 1 to 16 [default: 16]",
        ))?
        .arg(option(alloc, WARDS, NUMBER, "0 to 4, for 2^N wards [default: 0]"))?
        .arg(option(
            alloc,
            KEYER,
            KEYER_NAME,
            "The keyer, sha or plain [default: sha]",
        ))
}

// What help tells of `get`.
fn get<'a>(alloc: Global) -> Result<Command<'a>, AllocError> {
    bare_command(
        alloc,
        GET,
        crate::get::ABOUT,
        crate::get::USAGE,
        crate::get::TEXT,
    )
    .arg(from(alloc))?
    .arg(hex(alloc))?
    .arg(flag(alloc, RAW, "Prints the value of one key without a newline"))?
    .arg(wait(alloc))
}

// What help tells of `put`.
fn put<'a>(alloc: Global) -> Result<Command<'a>, AllocError> {
    bare_command(
        alloc,
        PUT,
        crate::put::ABOUT,
        crate::put::USAGE,
        crate::put::TEXT,
    )
    .arg(flag(alloc, NEW_FLAG, "Only where the key isn't there"))?
    .arg(flag(alloc, REPLACE, "Only where the key is there"))?
    .arg(hex(alloc))?
    .arg(flag(alloc, RAW, "Keeps the newline at the end of standard input"))?
    .arg(wait(alloc))
}

// What help tells of `del`.
fn del<'a>(alloc: Global) -> Result<Command<'a>, AllocError> {
    bare_command(
        alloc,
        DEL,
        crate::del::ABOUT,
        crate::del::USAGE,
        crate::del::TEXT,
    )
    .arg(from(alloc))?
    .arg(hex(alloc))?
    .arg(wait(alloc))
}

// What help tells of `swap`.
fn swap<'a>(alloc: Global) -> Result<Command<'a>, AllocError> {
    bare_command(
        alloc,
        SWAP,
        crate::swap::ABOUT,
        crate::swap::USAGE,
        crate::swap::TEXT,
    )
    .arg(hex(alloc))?
    .arg(wait(alloc))
}

// What help tells of `backup`.
fn backup<'a>(alloc: Global) -> Result<Command<'a>, AllocError> {
    bare_command(
        alloc,
        BACKUP,
        crate::backup::ABOUT,
        crate::backup::USAGE,
        crate::backup::TEXT,
    )
    .arg(wait(alloc))
}

// What help tells of `import`.
fn import<'a>(alloc: Global) -> Result<Command<'a>, AllocError> {
    let command = bare_command(
        alloc,
        IMPORT,
        crate::import::ABOUT,
        crate::import::USAGE,
        crate::import::TEXT,
    )
    .arg(format(alloc))?
    .arg(flag(alloc, HEADER, "The first record of csv names the columns"))?
    .arg(option(
        alloc,
        KEY,
        NAME,
        "The column, or field of jsonl, with the key",
    ))?
    .arg(option(alloc, VALUE, NAME, "The column or field with the value"))?
    .arg(hex(alloc))?
    .arg(flag(alloc, ATOMIC, "All pairs at once, or none"))?
    .arg(rejects(alloc))?
    .arg(flag(alloc, CREATE_FLAG, "Makes the file where nothing is"))?;
    with_new_settings(alloc, command)?.arg(wait(alloc))
}

// The option that names a file for lines that aren't put in.
fn rejects<'a>(alloc: Global) -> Arg<'a> {
    option(
        alloc,
        REJECTS,
        FILE,
        "A new file for lines that aren't put in",
    )
}

// What help tells of `export`.
fn export<'a>(alloc: Global) -> Result<Command<'a>, AllocError> {
    bare_command(
        alloc,
        EXPORT,
        crate::export::ABOUT,
        crate::export::USAGE,
        crate::export::TEXT,
    )
    .arg(format(alloc))?
    .arg(hex(alloc))?
    .arg(bare(alloc))?
    .arg(wait(alloc))
}

// What help tells of `compact`.
fn compact<'a>(alloc: Global) -> Result<Command<'a>, AllocError> {
    bare_command(
        alloc,
        COMPACT,
        crate::compact::ABOUT,
        crate::compact::USAGE,
        crate::compact::TEXT,
    )
    .arg(option(
        alloc,
        CAP,
        NUMBER,
        "How many records a page may have, 1 to 16 [default: the file's]",
    ))?
    .arg(option(
        alloc,
        WARDS,
        NUMBER,
        "0 to 4, for 2^N wards [default: the file's]",
    ))?
    .arg(option(
        alloc,
        KEYER,
        KEYER_NAME,
        "The keyer, sha or plain [default: the file's]",
    ))?
    .arg(wait(alloc))
}

// What help tells of `stats`.
fn stats<'a>(alloc: Global) -> Result<Command<'a>, AllocError> {
    bare_command(
        alloc,
        STATS,
        crate::stats::ABOUT,
        crate::stats::USAGE,
        crate::stats::TEXT,
    )
    .arg(flag(alloc, JSON, "One JSON object"))?
    .arg(wait(alloc))
}

// What help tells of `salvage`.
fn salvage<'a>(alloc: Global) -> Result<Command<'a>, AllocError> {
    bare_command(
        alloc,
        SALVAGE,
        crate::salvage::ABOUT,
        crate::salvage::USAGE,
        crate::salvage::TEXT,
    )
    .arg(format(alloc))?
    .arg(hex(alloc))?
    .arg(bare(alloc))
}

fn bare<'a>(alloc: Global) -> Arg<'a> {
    flag(alloc, BARE, "Leaves the first line and the last out")
}

fn wait<'a>(alloc: Global) -> Arg<'a> {
    option(
        alloc,
        WAIT,
        "SECONDS",
        "How long others are waited for, 0 to 86400 [default: 5]",
    )
}

fn hex<'a>(alloc: Global) -> Arg<'a> {
    flag(
        alloc,
        HEX,
        "Keys and values are hexadecimal, two digits a byte",
    )
}

fn format<'a>(alloc: Global) -> Arg<'a> {
    option(
        alloc,
        FORMAT,
        "words|tsv|jsonl|csv",
        "How pairs are written [default: words]",
    )
}

fn from<'a>(alloc: Global) -> Arg<'a> {
    option(
        alloc,
        FROM,
        "-",
        "The keys stand on standard input, one a line",
    )
}
