//! Runs beside the program what no script asks for, and prints what each run came to. Its first word names a list of
//! runs, and the others say which of them, as that list has it:
//!
//! - `lines`, `rows`, `refusals`, `live`, `threads`: `[SEED ROUNDS [all|KIND [wrong]]]`, how many steps each run took, and
//!   how many of them differed from what was worked out by hand;
//! - `images`: `SIZE [storm CALLERS CALLS]`, what a script or a storm comes to over images behind caches of that size;
//! - `plain`: `[storm CALLERS CALLS]`, the same over plain pages.
//!
//! Without words the runs of each list of the first kind are made, at their usual length.
//!
//! Takes steps of directories and wards that no script can ask, beside what was worked out by hand, and prints for each
//! kind of run how many steps it took, and how many of them differed.
//!
//! Each growth that is refused is asked for once more, and a refused step is made once more: so it prints the same where
//! memory is refused once, wherever that is.
#![tactic(auto)]

use crate::stores::{run_images, run_plain};
use beside_live::{play_live, play_threads};
use beside_worlds::{run_lines, run_refusals};
use exh_fixtures::{Difference, Named, Run, RunKind, Status, named, own_words, run_kinds};
use std::process::ExitCode;
use std::sync::Wait;
use std::thread::Threads;
use std::time::Clock;

mod joins;
mod journals;
mod plain_ward;
mod stores;

/// A list of runs.
#[derive(Clone, Copy)]
enum RunList {
    Lines,
    Rows,
    Refusals,
    Live,
    Threads,
}

const LISTS: [RunList; 5] = [
    RunList::Lines,
    RunList::Rows,
    RunList::Refusals,
    RunList::Live,
    RunList::Threads,
];

impl Named for RunList {
    fn name(self) -> &'static str {
        match self {
            RunList::Lines => "lines",
            RunList::Rows => "rows",
            RunList::Refusals => "refusals",
            RunList::Live => "live",
            RunList::Threads => "threads",
        }
    }
}

fn main(rt: HostRuntime) -> ExitCode {
    match own_words(&rt) {
        Some(words) => run(&rt, &rt, words.as_slice()),
        None => ended(&rt, Status::WrongWords),
    }
}

// Makes the runs that words ask for.
fn run<R: Threads + Wait + Clock + Print + Eprint + AllocGlobal + Sync>(
    rt: &HostRuntime,
    threads: &R,
    words: &[String],
) -> ExitCode {
    match words {
        [] => ended(rt, run_all(threads)),
        [first, rest @ ..] if first.as_str() == "images" => run_images(rt, threads, rest),
        [first, rest @ ..] if first.as_str() == "plain" => run_plain(rt, threads, rest),
        [first, rest @ ..] => ended(rt, run_named(threads, first, rest)),
    }
}

// The program's end. Words that name no run are told of.
fn ended(rt: &impl Eprint, status: Status) -> ExitCode {
    if let Status::WrongWords = status {
        // Where the line can't be written, the status alone tells.
        let _ = eprintln!(rt;
            "usage: beside [lines|rows|refusals|live|threads [SEED ROUNDS [all|KIND [wrong]]]]"
        );
    }
    status.code()
}

// Makes the runs of the list of a name.
fn run_named<R: Threads + Wait + Clock + Print + Eprint + AllocGlobal + Sync>(
    rt: &R,
    name: &str,
    words: &[String],
) -> Status {
    match named(&LISTS, name) {
        Some([list, ..]) => run_list(rt, *list, words),
        Some([]) | None => Status::WrongWords,
    }
}

// Makes the runs of each list.
fn run_all<R: Threads + Wait + Clock + Print + Eprint + AllocGlobal + Sync>(rt: &R) -> Status {
    let mut has_differed = false;
    for list in LISTS {
        has_differed |= !matches!(run_list(rt, list, &[]), Status::Same);
    }
    Status::of_runs(has_differed)
}

fn run_list<R: Threads + Wait + Clock + Print + Eprint + AllocGlobal + Sync>(
    rt: &R,
    list: RunList,
    words: &[String],
) -> Status {
    match list {
        RunList::Lines => run_lines(rt, words),
        RunList::Rows => run_rows(rt, words),
        RunList::Refusals => run_refusals(rt, words),
        RunList::Live => play_live(rt, words),
        RunList::Threads => play_threads(rt, words),
    }
}

#[derive(Clone, Copy)]
enum Kind {
    /// Directories that no world has.
    Joins,
    /// Journals, strays and refusals.
    Journals,
}

const KINDS: [Kind; 2] = [Kind::Joins, Kind::Journals];

impl Named for Kind {
    fn name(self) -> &'static str {
        match self {
            Kind::Joins => "joins",
            Kind::Journals => "journals",
        }
    }
}

impl RunKind for Kind {
    fn take_steps(self, run: &mut Run) -> Result<(), Difference> {
        match self {
            Kind::Joins => joins::run(run),
            Kind::Journals => journals::run(run),
        }
    }
}

/// Makes the runs that words ask for, and prints what each came to.
pub fn run_rows(rt: &(impl Print + Eprint + AllocGlobal), words: &[String]) -> Status {
    run_kinds(rt, words, &KINDS)
}
