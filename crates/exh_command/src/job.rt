//! What a command line asks for.
ghost use Rattle.std.specs.Prelude.{◌≡◌, ◌<◌, ◌≤◌, ◌^◌, ℕ, Bool, List, Some, None, map, option_and_then, option_map, IfOk, IfErr, IfSome, IsSome};
ghost use Rattle.clap.specs.Words.{first_value, found_of, one_text};
ghost use Rattle.exh_command.specs.CommandFault.{IsWrong, TellsVersion};
ghost use Rattle.exh_command.specs.Job.{AskForVersion, Asked, Convert, IsWithinLimits, Load, Manual, Pairs, Storm, is_command_name, job_asked, job_named, keyer_given, keyer_name, named_of, number_given, number_of, pairing_of, storm_of, version_name, version_of, way_of};
ghost use Rattle.exh_command.specs.Parser.{HasFlags, IsJobMet, IsSomeJobMet, command_id, flag_text, new_id, pairs_texts_of, path_id, texts_of};
ghost use Rattle.exh_page.specs.StormConfig.{IsStormConfig};

use crate::fault::CliFault;
use crate::help::{told_by_program, usage_error};
use crate::load_way::LoadWay;
use crate::names::{
    BACKUP, CALLERS, CALLS, CAP, CHECK, COMMAND, COMPACT, CONVERT, COPIES, CREATE, DEL, DUMP,
    EXPORT, GET, IMPORT, INTO, KEYER, LOAD, LONG, MANUAL, NEW, OPEN, PAIRS, PATH, PUT, SALVAGE,
    SAVE, SERVE, STATS, STORM, SWAP, VERSION, WARDS,
};
use crate::page_file_version::PageFileVersion;
use crate::parser::parser;
use clap::ArgMatches;
use exh_keyer::AnyKeyer;
use exh_page::{CALLERS_LIMIT, CALLS_LIMIT, CAP_LIMIT, COPIES_LIMIT, StormConfig, keyer_named};
use exh_prefix::WARD_BITS_LIMIT;
use exh_text::parse_u32;
use std::alloc::Global;
use std::convert::AsStr;

/// A command of the program that is no everyday one, with its paths and numbers.
#[derive(Clone, Copy)]
pub enum Job<'w> {
    /// Answer the script on standard input, over the page file of a path where one is to be opened, and save the wards
    /// that it leaves where a path for them is named.
    Serve {
        open: Option<&'w str>,
        save: Option<&'w str>,
    },
    /// Say whether the file of a path is a legal page file.
    Check {
        path: &'w str,
    },
    /// Tell what a legal page file has.
    Dump {
        path: &'w str,
    },
    /// Save the pairs on standard input as the page file of a path, or into it.
    Load {
        path: &'w str,
        way: LoadWay,
    },
    /// Run callers, keepers and couriers at once over a new file.
    Storm {
        config: StormConfig,
    },
    /// Print the pairs of the page file of a path, behind a first line with these settings in place of the file's.
    Pairs {
        path: &'w str,
        cap: Option<u8>,
        ward_bits: Option<u8>,
        keyer: Option<AnyKeyer>,
    },
    /// Write the page file of a path at a new path, as one of this version.
    Convert {
        path: &'w str,
        new: &'w str,
        version: PageFileVersion,
    },
    /// Tell the program's version.
    Version,
    /// Tell what help says of the program, or of this command.
    Manual {
        command: Option<&'w str>,
    },
}

/// The job that the words of a command line name, of which the first is the program's name. Those of an everyday command
/// name none.
///
/// # Errors
///
/// `CliFault::Wrong` only where the words name no job, as in a call for help, or for the version,
/// which its text then tells; a number that is none, or out of range, a version that `convert` doesn't write, a command
/// that there isn't to tell of, and both flags of `load` are such words too.
/// `CliFault::Memory` may come at any words.
pub fn job_of<'w, S: AsStr>(alloc: Global, words: &'w [S]) -> Result<Job<'w>, CliFault>
    ensures named { IfOk result (λ job. job_named (map S.text words.now) ≡ Some (named_of job)) }
    ensures limits { IfOk result IsWithinLimits }
    ensures wrong { IfErr result (λ fault.
        IsWrong fault → job_named (map S.text words.now) ≡ None) }
    ensures version { IfErr result (λ fault.
        AskForVersion (map S.text words.now) → TellsVersion fault) }
{
    match job_read(alloc, words) {
        Ok(job) => Ok(job),
        Err(fault) => Err(told_by_program(alloc, words, fault)),
    }
}

// The same, with the faults that a program without the everyday commands tells.
fn job_read<'w, S: AsStr>(alloc: Global, words: &'w [S]) -> Result<Job<'w>, CliFault>
    ensures named { IfOk result (λ job. job_named (map S.text words.now) ≡ Some (named_of job)) }
    ensures limits { IfOk result IsWithinLimits }
    ensures wrong { IfErr result (λ fault.
        IsWrong fault → job_named (map S.text words.now) ≡ None) }
    ensures version { IfErr result (λ fault.
        AskForVersion (map S.text words.now) → TellsVersion fault) }
{
    let matches = parser(alloc)?.try_get_matches_from(words)?;
    job_met(alloc, &matches)
}

// The job of the command that a parse met.
fn job_met<'w>(alloc: Global, matches: &ArgMatches<'w>) -> Result<Job<'w>, CliFault>
    requires { IsSomeJobMet matches.now }
    ensures named { IfOk result (λ job. (asked : Asked) → IsJobMet matches.now asked → job_asked asked ≡ Some (named_of job)) }
    ensures limits { IfOk result IsWithinLimits }
    ensures wrong { IfErr result (λ fault. IsWrong fault → (asked : Asked) → IsJobMet matches.now asked → job_asked asked ≡ None) }
{
    let Some((command, own)) = matches.subcommand() else {
        unreachable!()
    };
    match command {
        SERVE => Ok(Job::Serve {
            open: own.get_str(OPEN),
            save: own.get_str(SAVE),
        }),
        CHECK => Ok(Job::Check { path: path_in(own) }),
        DUMP => Ok(Job::Dump { path: path_in(own) }),
        LOAD => load_job(alloc, own),
        STORM => storm_job(alloc, own),
        PAIRS => pairs_job(alloc, own),
        CONVERT => convert_job(alloc, own),
        VERSION => Ok(Job::Version),
        MANUAL => manual_job(alloc, own),
        _ => unreachable!(),
    }
}

// The path that a command about one was given.
fn path_in<'w>(own: &ArgMatches<'w>) -> &'w str
    requires { IsSome (first_value (found_of own.now) path_id) }
    ensures { Some result.now ≡ first_value (found_of own.now) path_id }
{
    let Some(path) = own.get_str(PATH) else {
        unreachable!()
    };
    path
}

// The load of the path that was given, in the way that the flags say.
fn load_job<'w>(alloc: Global, own: &ArgMatches<'w>) -> Result<Job<'w>, CliFault>
    requires path { IsSome (first_value (found_of own.now) path_id) }
    ensures named { IfOk result (λ job. (path : List ℕ) (long into : Bool) → Some path ≡ first_value (found_of own.now) path_id → HasFlags (found_of own.now) long into → job_asked (Load path long into) ≡ Some (named_of job)) }
    ensures limits { IfOk result IsWithinLimits }
    ensures wrong { IfErr result (λ fault. IsWrong fault → (path : List ℕ) (long into : Bool) → HasFlags (found_of own.now) long into → job_asked (Load path long into) ≡ None) }
{
    match way_in(own) {
        Some(way) => Ok(Job::Load {
            path: path_in(own),
            way,
        }),
        None => Err(usage_error(
            alloc,
            LOAD,
            "the argument '--long' cannot be used with '--into'",
        )),
    }
}

// The way that the flags of a load say.
fn way_in(own: &ArgMatches<'_>) -> Option<LoadWay>
    ensures { (long into : Bool) → HasFlags (found_of own.now) long into → result ≡ way_of long into }
{
    LoadWay::by_flags(flag_in(own, LONG), flag_in(own, INTO))
}

// Whether the flag of this name was there.
fn flag_in(own: &ArgMatches<'_>, name: &str) -> bool
    ensures { (is_there : Bool) → one_text (found_of own.now) name.now ≡ Some (flag_text is_there) → result ≡ is_there }
{
    own.get_flag(name)
}

// The pairs of the path, with the settings that were given.
fn pairs_job<'w>(alloc: Global, own: &ArgMatches<'w>) -> Result<Job<'w>, CliFault>
    requires path { IsSome (first_value (found_of own.now) path_id) }
    ensures named { IfOk result (λ job. (path : List ℕ) → Some path ≡ first_value (found_of own.now) path_id → job_asked (Pairs path (pairs_texts_of (found_of own.now))) ≡ Some (named_of job)) }
    ensures limits { IfOk result IsWithinLimits }
    ensures wrong { IfErr result (λ fault. IsWrong fault → (path : List ℕ) → job_asked (Pairs path (pairs_texts_of (found_of own.now))) ≡ None) }
{
    match pairs_in(own) {
        Some(job) => Ok(job),
        None => Err(usage_error(alloc, PAIRS, wrong_setting(own))),
    }
}

// The same, where each setting that was given is one.
fn pairs_in<'w>(own: &ArgMatches<'w>) -> Option<Job<'w>>
    requires path { IsSome (first_value (found_of own.now) path_id) }
    ensures pairs { (path : List ℕ) → Some path ≡ first_value (found_of own.now) path_id → option_map named_of result ≡ pairing_of path (pairs_texts_of (found_of own.now)) }
    ensures limits { IfSome result IsWithinLimits }
{
    Some(Job::Pairs {
        path: path_in(own),
        cap: given_number(own, CAP, 1, CAP_LIMIT as u8)?,
        ward_bits: given_number(own, WARDS, 0, WARD_BITS_LIMIT)?,
        keyer: given_keyer(own)?,
    })
}

// What the first setting of `pairs` that is none must be.
fn wrong_setting(own: &ArgMatches<'_>) -> &'static str {
    if given_number(own, CAP, 1, CAP_LIMIT as u8).is_none() {
        return "`pairs --cap` takes a number from 1 to 16";
    }
    if given_number(own, WARDS, 0, WARD_BITS_LIMIT).is_none() {
        return "`pairs --wards` takes a number from 0 to 4";
    }
    "`pairs --keyer` takes `sha` or `plain`"
}

// The number that an option was given, from the least to the greatest, if it was given one.
fn given_number(own: &ArgMatches<'_>, option: &str, least: u8, greatest: u8) -> Option<Option<u8>>
    ensures number { result ≡ number_given least greatest (first_value (found_of own.now) option.now) }
    ensures limits { IfSome result (λ number. IfSome number (λ n. (least ≤ n) × (n ≤ greatest))) }
{
    let Some(word) = own.get_str(option) else {
        return Some(None);
    };
    let number = parse_u32(word.as_bytes())?;
    if u32::from(least) <= number && number <= u32::from(greatest) {
        Some(Some(number as u8))
    } else {
        None
    }
}

// The keyer that was given, if one was.
fn given_keyer(own: &ArgMatches<'_>) -> Option<Option<AnyKeyer>>
    ensures { result ≡ keyer_given (first_value (found_of own.now) keyer_name) }
{
    let Some(word) = own.get_str(KEYER) else {
        return Some(None);
    };
    Some(Some(keyer_named(word.as_bytes())?))
}

// The conversion of the file of the path into one at the new path, of the version that was given.
fn convert_job<'w>(alloc: Global, own: &ArgMatches<'w>) -> Result<Job<'w>, CliFault>
    requires path { IsSome (first_value (found_of own.now) path_id) }
    requires new { IsSome (first_value (found_of own.now) new_id) }
    ensures named { IfOk result (λ job. (path new : List ℕ) → Some path ≡ first_value (found_of own.now) path_id → Some new ≡ first_value (found_of own.now) new_id
        → job_asked (Convert path new (first_value (found_of own.now) version_name)) ≡ Some (named_of job)) }
    ensures limits { IfOk result IsWithinLimits }
    ensures wrong { IfErr result (λ fault. IsWrong fault → (path new : List ℕ) → job_asked (Convert path new (first_value (found_of own.now) version_name)) ≡ None) }
{
    match version_in(own) {
        Some(version) => Ok(Job::Convert {
            path: path_in(own),
            new: new_path_in(own),
            version,
        }),
        None => Err(usage_error(alloc, CONVERT, "`convert --version` takes 2 or 3")),
    }
}

// The new path that `convert` was given.
fn new_path_in<'w>(own: &ArgMatches<'w>) -> &'w str
    requires { IsSome (first_value (found_of own.now) new_id) }
    ensures { Some result.now ≡ first_value (found_of own.now) new_id }
{
    let Some(path) = own.get_str(NEW) else {
        unreachable!()
    };
    path
}

// The version that was given, or the third, where none was.
fn version_in(own: &ArgMatches<'_>) -> Option<PageFileVersion>
    ensures { result ≡ version_of (first_value (found_of own.now) version_name) }
{
    let Some(word) = own.get_str(VERSION) else {
        return Some(PageFileVersion::Third);
    };
    PageFileVersion::numbered(parse_u32(word.as_bytes())?)
}

// The manual of the program, or of the command that was given.
fn manual_job<'w>(alloc: Global, own: &ArgMatches<'w>) -> Result<Job<'w>, CliFault>
    ensures named { IfOk result (λ job. job_asked (Manual (first_value (found_of own.now) command_id)) ≡ Some (named_of job)) }
    ensures limits { IfOk result IsWithinLimits }
    ensures wrong { IfErr result (λ fault. IsWrong fault → job_asked (Manual (first_value (found_of own.now) command_id)) ≡ None) }
{
    match own.get_str(COMMAND) {
        None => Ok(Job::Manual { command: None }),
        Some(word) if is_command(word) => Ok(Job::Manual {
            command: Some(word),
        }),
        Some(_) => Err(usage_error(
            alloc,
            MANUAL,
            "`manual` takes a command of `exhash`, as `exhash --help` lists them",
        )),
    }
}

// Whether a word is a command of the program.
fn is_command(word: &str) -> bool
    ensures { result ≡ is_command_name word.now }
{
    match word {
        SERVE
        | CHECK
        | DUMP
        | LOAD
        | STORM
        | GET
        | PUT
        | DEL
        | SWAP
        | PAIRS
        | CONVERT
        | CREATE
        | BACKUP
        | IMPORT
        | EXPORT
        | COMPACT
        | STATS
        | SALVAGE
        | VERSION
        | MANUAL => true,
        _ => false,
    }
}

// The storm of the settings that were given.
fn storm_job<'w>(alloc: Global, own: &ArgMatches<'w>) -> Result<Job<'w>, CliFault>
    ensures named { IfOk result (λ job. job_asked (Storm (texts_of (found_of own.now))) ≡ Some (named_of job)) }
    ensures limits { IfOk result IsWithinLimits }
    ensures wrong { IfErr result (λ fault. IsWrong fault → job_asked (Storm (texts_of (found_of own.now))) ≡ None) }
{
    match storm_in(own) {
        Some(config) => Ok(Job::Storm { config }),
        None => Err(usage_error(alloc, STORM, wrong_number(own))),
    }
}

// The settings that `storm` was given, and the usual ones for the others.
fn storm_in(own: &ArgMatches<'_>) -> Option<StormConfig>
    ensures storm { result ≡ storm_of (texts_of (found_of own.now)) }
    ensures limits { IfSome result IsStormConfig }
{
    Some(StormConfig {
        callers: number_in(own, CALLERS, 2, 1, u32::from(CALLERS_LIMIT))? as u8,
        calls: number_in(own, CALLS, 100, 1, CALLS_LIMIT)?,
        cap: number_in(own, CAP, 2, 1, CAP_LIMIT as u32)? as usize,
        ward_bits: number_in(own, WARDS, 0, 0, u32::from(WARD_BITS_LIMIT))? as u8,
        copies: number_in(own, COPIES, 2, 1, u32::from(COPIES_LIMIT))? as u8,
    })
}

// What the first number of `storm` that is none, or out of its range, must be.
fn wrong_number(own: &ArgMatches<'_>) -> &'static str {
    if number_in(own, CALLERS, 2, 1, u32::from(CALLERS_LIMIT)).is_none() {
        return "`storm --callers` takes a number from 1 to 16";
    }
    if number_in(own, CALLS, 100, 1, CALLS_LIMIT).is_none() {
        return "`storm --calls` takes a number from 1 to 10000";
    }
    if number_in(own, CAP, 2, 1, CAP_LIMIT as u32).is_none() {
        return "`storm --cap` takes a number from 1 to 16";
    }
    if number_in(own, WARDS, 0, 0, u32::from(WARD_BITS_LIMIT)).is_none() {
        return "`storm --wards` takes a number from 0 to 4";
    }
    "`storm --copies` takes a number from 1 to 8"
}

// The number that an option was given, from the least to the greatest; the usual one where it was given none.
fn number_in(
    own: &ArgMatches<'_>,
    option: &str,
    usual: u32,
    least: u32,
    greatest: u32,
) -> Option<u32>
    requires least { least ≤ usual }
    requires greatest { usual ≤ greatest }
    ensures number { result ≡ number_of usual least greatest (first_value (found_of own.now) option.now) }
    ensures least { IfSome result (λ number. least ≤ number) }
    ensures greatest { IfSome result (λ number. number ≤ greatest) }
{
    let Some(word) = own.get_str(option) else {
        return Some(usual);
    };
    let number = parse_u32(word.as_bytes())?;
    if least <= number && number <= greatest {
        Some(number)
    } else {
        None
    }
}
