//! Answers the script on standard input over stores that the program doesn't have, and prints what `exhash serve` does,
//! the notes on standard error too; or runs a storm over such stores, and prints what `exhash storm` does. They are
//! stores of images, each behind a cache of as many decoded pages as a word says, or stores of plain pages.
ghost use Rattle.std.specs.Prelude.{IfSome};
ghost use Rattle.exh_page.specs.StormConfig.{IsStormConfig};

use beside_live::{NoWatch, OpenGate, storm_over};
use beside_worlds::{ServeFault, serve_over};
use exh_frames::{FramedMaker, FramedPages, Pages, PlainMaker, PlainPages, StoreMaker};
use exh_keyer::{AnyKeyer, ShaKeyer};
use exh_page::{CALLERS_LIMIT, CALLS_LIMIT, StormConfig};
use exh_stream::Output;
use exh_text::{Expect, Notes};
use std::io;
use std::process::ExitCode;
use std::sync::Wait;
use std::thread::Threads;

// The status where the script isn't answered to its end or the storm isn't settled, and where the words are wrong.
const REFUSED: u8 = 1;

const WRONG_WORDS: u8 = 2;

// The number of the refusal where memory ended the run.
const OUT_OF_MEMORY: u8 = 10;

// What words ask for: a storm, or none where a script is answered.
#[derive(Clone, Copy)]
struct Job {
    storm: Option<StormConfig>,
}

/// Runs over images what words ask for: `SIZE`, or `SIZE storm CALLERS CALLS`. Only a storm starts threads. The status is
/// 0, 1 where the script isn't answered to its end or the storm isn't settled, and 2 where the words ask for neither.
pub(crate) fn run_images(
    rt: &HostRuntime,
    threads: &(impl Threads + Wait + Sync),
    words: &[String],
) -> ExitCode {
    match words {
        [size, rest @ ..] => match (size.parse::<usize>(), job_of(rest)) {
            (Ok(size), Some(job)) => match FramedMaker::new(size) {
                Ok(maker) => {
                    run::<FramedPages<AnyKeyer>, FramedPages<ShaKeyer>, FramedMaker>(
                        rt, threads, &maker, job,
                    )
                }
                Err(fault) => refuse(rt, fault.number()),
            },
            _ => tell_usage(rt),
        },
        [] => tell_usage(rt),
    }
}

/// Runs over plain pages what words ask for: nothing more, or `storm CALLERS CALLS`. The status is that of `run_images`.
pub(crate) fn run_plain(
    rt: &HostRuntime,
    threads: &(impl Threads + Wait + Sync),
    words: &[String],
) -> ExitCode {
    match job_of(words) {
        Some(job) => run::<PlainPages, PlainPages, PlainMaker>(rt, threads, &PlainMaker, job),
        None => tell_usage(rt),
    }
}

// Says which words there are.
fn tell_usage(rt: &HostRuntime) -> ExitCode {
    // Where the line can't be written, the status alone tells.
    let _ = eprintln!(rt;
        "usage: beside images SIZE [storm CALLERS CALLS], beside plain [storm CALLERS CALLS]"
    );
    ExitCode::from(WRONG_WORDS)
}

// What words ask for.
fn job_of(words: &[String]) -> Option<Job>
    ensures { IfSome result (λ job. IfSome job.storm IsStormConfig) }
{
    match words {
        [] => Some(Job { storm: None }),
        [word, callers, calls] if word.as_str() == "storm" => Some(Job {
            storm: Some(storm_of(callers, calls)?),
        }),
        _ => None,
    }
}

// Answers the script, or runs the storm, over the maker's stores.
fn run<S: Pages + Drop, T: Pages + Drop + Send + Sync, M>(
    rt: &HostRuntime,
    threads: &(impl Threads + Wait + Sync),
    maker: &M,
    job: Job,
) -> ExitCode
where
    M: StoreMaker<S, AnyKeyer> + StoreMaker<T, ShaKeyer> + Sync,
    requires { IfSome job.storm IsStormConfig }
{
    match job.storm {
        Some(config) => run_storm::<T, M>(rt, threads, maker, &config),
        None => serve::<S, M>(rt, maker),
    }
}

// The storm of so many callers by so many calls, with the rest as `exhash storm` has it by itself. There is none of more
// than the limits.
fn storm_of(callers: &str, calls: &str) -> Option<StormConfig>
    ensures { IfSome result IsStormConfig }
{
    let callers = callers.parse::<u8>().ok()?;
    let calls = calls.parse::<u32>().ok()?;
    if callers == 0 || callers > CALLERS_LIMIT || calls == 0 || calls > CALLS_LIMIT {
        return None;
    }
    Some(StormConfig {
        callers,
        calls,
        cap: 2,
        ward_bits: 0,
        copies: 2,
    })
}

// Answers the script. Where memory ran out the last line is `refused 10`.
fn serve<S: Pages + Drop, M: StoreMaker<S, AnyKeyer>>(rt: &HostRuntime, maker: &M) -> ExitCode {
    let mut notes = Notes::new(rt.stderr(), Expect::Keyword);
    let served = serve_over(
        rt.alloc(),
        maker,
        None,
        &mut rt.reader(),
        &mut io::writer(rt),
        &mut notes,
    );
    notes.end();
    match served {
        Ok(Some(_)) => ExitCode::SUCCESS,
        Err(ServeFault::Memory) => refuse(rt, OUT_OF_MEMORY),
        Ok(None) | Err(ServeFault::Write | ServeFault::Page) => ExitCode::from(REFUSED),
    }
}

// Runs a storm whose workers no gate holds back, and prints what came of it.
fn run_storm<T: Pages + Drop + Send + Sync, M: StoreMaker<T, ShaKeyer>>(
    rt: &HostRuntime,
    threads: &(impl Threads + Wait + Sync),
    maker: &M,
    config: &StormConfig,
) -> ExitCode
    requires { IsStormConfig config.now }
{
    match storm_over(threads, rt.alloc(), maker, config, &OpenGate, &NoWatch) {
        Ok(answers) => match println!(rt; "settled {answers}") {
            Ok(()) => ExitCode::SUCCESS,
            Err(_) => ExitCode::from(REFUSED),
        },
        Err(fault) => refuse(rt, fault.number()),
    }
}

// Prints that the run was refused.
fn refuse(rt: &HostRuntime, number: u8) -> ExitCode {
    // Where the line can't be written, the status alone tells.
    let _ = println!(rt; "refused {number}");
    ExitCode::from(REFUSED)
}
