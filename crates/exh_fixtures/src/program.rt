//! The runs of a program, and its words.

use crate::job::Job;
use crate::status::Status;
use crate::{RunKind, Tally};
use std::alloc::Global;
use std::env::{self, Env};
use std::io;

/// The program's own words, without its name. `None` where they aren't text; where a growth is refused for them they are
/// asked for again.
pub fn own_words(rt: &(impl Env + AllocGlobal)) -> Option<Vec<String>> {
    let words = match words(rt) {
        Err(error) if error.kind() == io::ErrorKind::OutOfMemory => words(rt),
        words => words,
    };
    words.ok()
}

fn words(rt: &(impl Env + AllocGlobal)) -> io::Result<Vec<String>> {
    Ok(env::args(rt)?.skip(1).collect(rt.alloc())?)
}

/// Makes the runs that words ask for of these kinds, and prints what each came to.
pub fn run_kinds<K: RunKind>(
    rt: &(impl Print + Eprint + AllocGlobal),
    words: &[String],
    kinds: &[K],
) -> Status {
    let Some(job) = Job::of_words(words, kinds) else {
        return Status::WrongWords;
    };
    let mut has_differed = false;
    for kind in job.kinds {
        has_differed |= has_told_difference(rt, kind.name(), &run_kind(rt.alloc(), *kind, &job));
    }
    Status::of_runs(has_differed)
}

// Makes a run.
fn run_kind<K: RunKind>(alloc: Global, kind: K, job: &Job<'_, K>) -> Tally {
    let mut run = job.new_run(alloc);
    let outcome = kind.take_steps(&mut run);
    run.tally.check(outcome);
    run.tally
}

/// Prints what a run came to, and on standard error its first difference. Answers whether there is one;
/// a line that can't be written is one.
pub fn has_told_difference(rt: &(impl Print + Eprint), name: &str, tally: &Tally) -> bool {
    let printed = print(rt, name, tally);
    tally.has_differed() || printed.is_err()
}

fn print(rt: &(impl Print + Eprint), name: &str, tally: &Tally) -> io::Result<()> {
    println!(rt; "{name}: {tally}")?;
    match tally.first() {
        Some((steps, difference)) => eprintln!(rt; "{name}, step {steps}: {difference}"),
        None => Ok(()),
    }
}
