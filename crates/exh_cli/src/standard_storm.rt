//! The run of a storm over the program's standard streams.
ghost use Rattle.exh_page.specs.StormConfig.{IsStormConfig};

use crate::storm_run::tell_storm;
use crate::storm_watch::StormWatch;
use exh_everyday::{Status, console};
use exh_frames::MAKER;
use exh_live::{NoWatch, OpenGate, StormEnd, StormFault, Watch, storm_left};
use exh_page::StormConfig;
use exh_stream::{Console, Output, StormMeter};
use std::alloc::Global;
use std::io;
use std::io::Stderr;
use std::sync::Wait;
use std::thread::Threads;

/// Runs a storm whose workers no gate holds back, prints what came of it, and says with which status the program ends. A
/// terminal is told how far the storm is.
pub(crate) fn run_storm(
    rt: &HostRuntime,
    threads: &(impl Threads + Wait + Sync),
    config: &StormConfig,
) -> Status
    requires { IsStormConfig config.now }
{
    let outcome = match console(rt) {
        Some(console) => watched_storm(rt, threads, config, console),
        None => storm_of(threads, rt.alloc(), config, &NoWatch),
    };
    tell_storm(outcome, &mut Output::new(&mut io::writer(rt)))
}

// A storm that tells a terminal how far it is, until it is over.
fn watched_storm(
    rt: &HostRuntime,
    threads: &(impl Threads + Wait + Sync),
    config: &StormConfig,
    console: Console<'_, HostRuntime, Stderr>,
) -> Result<u64, StormFault>
    requires { IsStormConfig config.now }
{
    let mut meter = StormMeter::new(console);
    let watch = StormWatch { meter: &meter };
    let outcome = storm_of(threads, rt.alloc(), config, &watch);
    meter.clear();
    outcome
}

// How many answers a storm settled, or the first refusal of its workers.
fn storm_of<R: Threads + Wait + Sync, W: Watch + Sync>(
    threads: &R,
    alloc: Global,
    config: &StormConfig,
    watch: &W,
) -> Result<u64, StormFault>
    requires { IsStormConfig config.now }
{
    let StormEnd { left, .. } = storm_left(threads, alloc, &MAKER, config, &OpenGate, watch);
    match left {
        Ok(left) => Ok(left.answers),
        Err(fault) => Err(fault),
    }
}
