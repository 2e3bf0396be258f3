ghost use Rattle.std.specs.Prelude.{◌≡◌, ◌≢◌, ◌⊎◌, ◌*◌, ◌^◌, Ok, Some, length, All, IfOk, IfErr, OnOk};
ghost use Rattle.std.specs.FinMap as map;
ghost use Rattle.exh_keyer.specs.Pseudokey.{sha_pseudokey};
ghost use Rattle.exh_live.specs.Closing.{AreInOrder, answers_given, entries_made};
ghost use Rattle.exh_live.specs.declared.ledgers.TheConstants.{ANSWER_PARTS, ENTRY_PARTS};
ghost use Rattle.exh_calls.specs.Settled.{answer_count};
ghost use Rattle.exh_live.specs.Refusals.{AreAllDone, AreOfWorkers, HasCounted, IsEndOf, IsFaultBy, IsStormFault, IsUnsettled, first_of_workers};
ghost use Rattle.exh_live.specs.declared.fault.StormFault.TheVariants.{Memory, Mismatch as NotSettled};
ghost use Rattle.exh_live.specs.StormCalls.{AreServed, IsServed};
ghost use Rattle.exh_live.specs.StormLeft.{IsLeft};
ghost use Rattle.exh_page.specs.StormConfig.{IsStormConfig};

use crate::file::{StormEnd, StormFile, StormLeft, new_file, settled};
use crate::overseers::Overseers;
use crate::threads::{Ran, run_all};
use crate::workers::new_workers;
use crate::{
    ANSWER_PARTS, Closed, ENTRY_PARTS, Identity, NoWatch, Outcomes, Seat, StormFault, Watch,
};
use exh_copy::Start;
use exh_frames::MAKER;
use exh_keyer::ShaKeyer;
use exh_page::StormConfig;
use exh_stores::{Pages, StoreMaker};
use exh_walk::Gate;
use std::alloc::{AllocError, Global};
use std::marker::Brand;
use std::sync::Wait;
use std::sync::ledger::Blank;
use std::thread::Threads;

/// Runs a storm, as `storm_left`, over the program's stores, and answers how many answers were settled.
/// Refused as that.
pub fn storm<R: Threads + Wait + Sync, G: Gate + Sync>(
    rt: &R,
    alloc: Global,
    config: &StormConfig,
    gate: &G,
) -> Result<u64, StormFault>
    requires { IsStormConfig config.now }
    ensures count { IfOk result (λ count. count ≡ config.now.callers * config.now.calls) }
    ensures fault { IfErr result (IsStormFault ⊥ (G.may gate.now) config.now) }
    ensures reached { IfErr result (λ fault. fault ≢ StormFault.Page) }
{
    storm_over(rt, alloc, &MAKER, config, gate, &NoWatch)
}

/// Runs a storm, as `storm_left`, and answers how many answers were settled. Refused as that.
pub fn storm_over<
    R: Threads + Wait + Sync,
    P: Pages + Drop + Send + Sync,
    M: StoreMaker<P, ShaKeyer>,
    G: Gate + Sync,
    W: Watch + Sync,
>(
    rt: &R,
    alloc: Global,
    maker: &M,
    config: &StormConfig,
    gate: &G,
    watch: &W,
) -> Result<u64, StormFault>
    requires { IsStormConfig config.now }
    ensures count { IfOk result (λ count. count ≡ config.now.callers * config.now.calls) }
    ensures fault { IfErr result (IsStormFault (HasCounted P.failures) (G.may gate.now) config.now) }
    ensures counted { IfErr result (λ fault. fault ≡ StormFault.Page → HasCounted P.failures) }
    ensures seats { IfErr result (λ fault. fault ≢ StormFault.Seats) }
{
    let StormEnd { left, .. } = storm_left(rt, alloc, maker, config, gate, watch);
    match left {
        Ok(left) => Ok(left.answers),
        Err(fault) => Err(fault),
    }
}

/// Runs a storm over a new file, of keyer sha, over stores that the maker makes, and gives what its workers came to and what it
/// leaves: journals and diaries that are settled, and how many answers these have. Each caller makes its calls,
/// each keeper and each courier as many rounds, all at once, each on a thread of its own; the gate is asked by
/// each hop of a caller and before each round of a keeper and of a courier, and the watch is told of each answer
/// and after each round. All are joined, the file is closed, and diaries and journals are settled. Refused, with
/// the first refusal of these workers by caller, then keeper, then courier: `Memory`, also where a thread can't be
/// made, or a copy gets no reader, `Page`, `Held`; where none of them was refused, `Memory` of closing the file,
/// and `Mismatch`; never `Seats`. It may wait: for a gate that does, and for locks.
pub fn storm_left<
    R: Threads + Wait + Sync,
    P: Pages + Drop + Send + Sync,
    M: StoreMaker<P, ShaKeyer>,
    G: Gate + Sync,
    W: Watch + Sync,
>(rt: &R, alloc: Global, maker: &M, config: &StormConfig, gate: &G, watch: &W) -> StormEnd<P>
    requires { IsStormConfig config.now }
    ensures left { IfOk result.left (λ left. IsLeft config.now left.closed.wards.items left.closed.diaries.items left.answers) }
    ensures done { IfOk result.left (λ _. AreAllDone (HasCounted P.failures) (G.may gate.now) config.now result.outcomes) }
    ensures fault { IfErr result.left (IsFaultBy (HasCounted P.failures) (G.may gate.now) config.now result.outcomes) }
{
    let answers = Blank::new(ANSWER_PARTS);
    let entries = Blank::new(ENTRY_PARTS);
    let overseers = Overseers { gate, watch };
    let end = storm_of::<R, P, M, G, W, Brand, Brand>(
        rt, alloc, maker, config, overseers, answers, entries,
    );
    match end {
        Ok(end) => end,
        Err(_) => StormEnd {
            outcomes: None,
            left: Err(StormFault::Memory),
        },
    }
}

// A storm over a file and copies of these names. An `AllocError` where memory is refused before all workers are joined.
fn storm_of<
    R: Threads + Wait + Sync,
    P: Pages + Drop + Send + Sync,
    M: StoreMaker<P, ShaKeyer>,
    G: Gate + Sync,
    W: Watch + Sync,
    F: Identity + Send + Sync,
    S: Start + Send + Sync,
>(
    rt: &R,
    alloc: Global,
    maker: &M,
    config: &StormConfig,
    overseers: Overseers<'_, G, W>,
    answers: Blank,
    entries: Blank,
) -> Result<StormEnd<P>, AllocError>
    requires config { IsStormConfig config.now }
    requires answers { (answers.name ≡ F.answers) × (answers.parts ≡ ANSWER_PARTS) }
    requires entries { (entries.name ≡ F.entries) × (entries.parts ≡ ENTRY_PARTS) }
    requires hashed { F.hashing ≡ sha_pseudokey }
    requires bits { S.ward_bits ≡ config.now.ward_bits }
    requires table { S.table ≡ map.empty }
    ensures left { IfOk result (λ end. IfOk end.left (λ left. IsLeft config.now left.closed.wards.items left.closed.diaries.items left.answers)) }
    ensures done { IfOk result (λ end. IfOk end.left (λ _. AreAllDone (HasCounted P.failures) (G.may overseers.entry.gate.now) config.now end.outcomes)) }
    ensures fault { IfOk result (λ end. IfErr end.left (IsFaultBy (HasCounted P.failures) (G.may overseers.entry.gate.now) config.now end.outcomes)) }
{
    let mut file = new_file::<P, M, F>(alloc, maker, config, answers, entries)?;
    let Ran { seats, outcomes } = serve::<R, P, G, W, F, S>(
        rt, alloc, config, overseers, &mut file,
    )?;
    Ok(ended(config, file, seats, outcomes))
}

// Runs all workers over a file that has given no seat.
fn serve<
    R: Threads + Wait + Sync,
    P: Pages + Drop + Send + Sync,
    G: Gate + Sync,
    W: Watch + Sync,
    F: Identity + Send + Sync,
    S: Start + Send + Sync,
>(
    rt: &R,
    alloc: Global,
    config: &StormConfig,
    overseers: Overseers<'_, G, W>,
    file: &mut StormFile<P, F>,
) -> Result<Ran<F>, AllocError>
    requires config { IsStormConfig config.now }
    requires hashed { F.hashing ≡ sha_pseudokey }
    requires bits { S.ward_bits ≡ config.now.ward_bits }
    requires table { S.table ≡ map.empty }
    requires file { (file.old.ward_bits ≡ config.now.ward_bits) × (file.old.seats ≡ 0) }
    ensures bits { file.new.ward_bits ≡ config.now.ward_bits }
    ensures seats { OnOk result (file.new.seats ≡ config.now.callers) }
    ensures served { IfOk result (λ ran. All (IsServed config.now.calls) ran.seats.items) }
    ensures all { IfOk result (λ ran. first_of_workers ran.outcomes ≡ Ok tt → length ran.seats.items ≡ config.now.callers) }
    ensures outcomes { IfOk result (λ ran. AreOfWorkers (HasCounted P.failures) (G.may overseers.entry.gate.now) config.now ran.outcomes) }
{
    let workers = new_workers::<R, P, F, S>(rt, alloc, config, file)?;
    run_all(rt, alloc, file, workers, *config, overseers)
}

// The end of a storm whose workers came to this: their first refusal, or what the file leaves.
fn ended<P: Pages + Drop, F: Identity>(
    config: &StormConfig,
    file: StormFile<P, F>,
    seats: Vec<Seat<F>>,
    outcomes: Outcomes,
) -> StormEnd<P>
    requires config { IsStormConfig config.now }
    requires bits { file.ward_bits ≡ config.now.ward_bits }
    requires seats { file.seats ≡ config.now.callers }
    requires served { All (IsServed config.now.calls) seats.items }
    requires all { first_of_workers outcomes ≡ Ok tt → length seats.items ≡ config.now.callers }
    ensures outcomes { result.outcomes ≡ Some outcomes }
    ensures left { IfOk result.left (λ left. IsLeft config.now left.closed.wards.items left.closed.diaries.items left.answers) }
    ensures done { IfOk result.left (λ _. first_of_workers outcomes ≡ Ok tt) }
    ensures fault { IfErr result.left (IsEndOf config.now (first_of_workers outcomes)) }
{
    match outcomes.first_refusal() {
        Ok(()) => {
            let left = close(config, file, seats);
            StormEnd {
                outcomes: Some(outcomes),
                left,
            }
        }
        Err(fault) => StormEnd {
            outcomes: Some(outcomes),
            left: Err(fault),
        },
    }
}

// Closes the file, with the seats of all its callers, and settles what it leaves.
fn close<P: Pages + Drop, F: Identity>(
    config: &StormConfig,
    file: StormFile<P, F>,
    seats: Vec<Seat<F>>,
) -> Result<StormLeft<P>, StormFault>
    requires config { IsStormConfig config.now }
    requires bits { file.ward_bits ≡ config.now.ward_bits }
    requires seats { file.seats ≡ config.now.callers }
    requires served { All (IsServed config.now.calls) seats.items }
    requires all { length seats.items ≡ config.now.callers }
    ensures left { IfOk result (λ left. IsLeft config.now left.closed.wards.items left.closed.diaries.items left.answers) }
    ensures fault { IfErr result (λ fault. (fault ≡ Memory) ⊎ ((fault ≡ NotSettled) × IsUnsettled config.now)) }
{
    match file.close(seats) {
        Ok(closed) => left(config, closed),
        Err(back) => Err(back.fault.into()),
    }
}

// What a closed file leaves whose callers were answered all that they were to ask; else `Mismatch`.
fn left<P: Pages + Drop>(
    config: &StormConfig,
    closed: Closed<P, ShaKeyer>,
) -> Result<StormLeft<P>, StormFault>
    requires config { IsStormConfig config.now }
    requires all { answer_count closed.diaries.items ≡ config.now.callers * config.now.calls }
    requires served { AreServed config.now.calls closed.diaries.items }
    requires wards { (length closed.wards.items ≡ 2 ^ config.now.ward_bits) × AreInOrder closed.wards.items }
    requires callers { length closed.diaries.items ≡ config.now.callers }
    requires equally_many { entries_made closed.wards.items ≡ answers_given closed.diaries.items }
    ensures left { IfOk result (λ left. IsLeft config.now left.closed.wards.items left.closed.diaries.items left.answers) }
    ensures fault { IfErr result (λ fault. (fault ≡ NotSettled) × IsUnsettled config.now) }
{
    let wards = closed.wards.as_slice();
    let diaries = closed.diaries.as_slice();
    match settled(config, wards, diaries) {
        Ok(answers) => Ok(StormLeft { closed, answers }),
        Err(fault) => Err(fault),
    }
}
