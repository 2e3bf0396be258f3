//! All workers of a storm at once, each on a thread of its own.
ghost use Rattle.std.specs.Prelude.{◌≡◌, ◌+◌, ◌^◌, ◌≤◌, Ok, Err, length, All, IfOk, IfErr, MatchResult};
ghost use Rattle.std.specs.FinMap as map;
ghost use Rattle.exh_keyer.specs.Pseudokey.{sha_pseudokey};
ghost use Rattle.exh_prefix.specs.declared.prefix.TheConstants.{WARD_BITS_LIMIT};
ghost use Rattle.exh_live.specs.CursorPlaceLemmas.{AreFirst};
ghost use Rattle.exh_live.specs.Refusals.{AreOfWorkers, HasCounted, IsRefusedCaller, IsRefusedCourier, IsRefusedKeeper, first_of_workers, first_refusal};
ghost use Rattle.exh_live.specs.StormCalls.{IsServed};
ghost use Rattle.exh_live.specs.StormRounds.{IsCourierFault};
ghost use Rattle.exh_live.specs.declared.courier.TheConstants.{COURIER_CLIENT};
ghost use Rattle.exh_live.specs.declared.fault.StormFault.TheVariants.{Memory};

use crate::file::StormFile;
use crate::overseers::Overseers;
use crate::workers::Workers;
use crate::{Caller, Courier, Identity, Keeper, Outcome, Outcomes, Seat, StormFault, Watch};
use exh_copy::Start;
use exh_page::StormConfig;
use exh_stores::Pages;
use exh_walk::Gate;
use std::alloc::{AllocError, Global};
use std::marker::PhantomData;
use std::snapshot::Snapshot;
use std::sync::Wait;
use std::thread::{self, Promise, PromisedHandle, Scope, Threads};

// Which worker of a storm a thread is: its number, as a caller, of its ward or of its copy, the storm's settings, the
// gate that it asks, and of which kind the stores are. What it promises goes by what the thread gives.
#[derive(Drop)]
struct Worker<P, G> {
    number: u32,
    config: StormConfig,
    gate: Snapshot<G>,
    stores: PhantomData<P>,
}

// A caller's thread gives its seat, which was answered its calls, or is refused as that caller may be.
impl<P: Pages + Drop, G: Gate, F: Identity> Promise<Result<Seat<F>, StormFault>> for Worker<P, G> {
    ghost use Rattle.std.specs.Prelude.{IfOk, IfErr};
    ghost use Rattle.exh_live.specs.Refusals.{HasCounted, IsRefusedCaller};
    ghost use Rattle.exh_live.specs.StormCalls.{IsServed};

    ghost kept_by = { λ worker result. IfOk result (IsServed worker.config.calls) × IfErr result (IsRefusedCaller (HasCounted P.failures) worker.config.ward_bits (G.may worker.gate.value) worker.config.calls worker.number) };
}

// A keeper's thread is refused, if it is, as the keeper of its ward may be.
impl<P: Pages + Drop, G: Gate> Promise<Outcome> for Worker<P, G> {
    ghost use Rattle.std.specs.Prelude.{IfErr};
    ghost use Rattle.exh_live.specs.Refusals.{HasCounted, IsRefusedKeeper};

    ghost kept_by = { λ worker result. IfErr result (IsRefusedKeeper (HasCounted P.failures) (G.may worker.gate.value) worker.config.calls worker.number) };
}

// A courier's thread gives the courier back, and is refused, if it is, as the courier to its copy may be.
impl<'a, P: Pages + Drop, G: Gate, R: Wait, S: Start> Promise<(Courier<'a, R, S>, Outcome)>
    for Worker<P, G> {
    ghost use Rattle.std.specs.Prelude.{IfErr};
    ghost use Rattle.exh_live.specs.Refusals.{IsRefusedCourier};

    ghost kept_by = { λ worker result. IfErr result.1 (IsRefusedCourier (G.may worker.gate.value) worker.config.calls worker.number) };
}

// A worker's thread, or `Memory` where it can't be made.
type Thread<T, P, G> = Result<PromisedHandle<T, Worker<P, G>>, StormFault>;

// What a caller's thread gives.
type Called<F> = Result<Seat<F>, StormFault>;

// What a courier's thread gives.
type Carried<'a, R, S> = (Courier<'a, R, S>, Outcome);

/// What the workers of a storm leave: the seats of the callers that weren't refused, in order, and what all came to.
#[derive(Drop)]
pub(crate) struct Ran<F: Identity> {
    pub(crate) seats: Vec<Seat<F>>,
    pub(crate) outcomes: Outcomes,
}

/// Runs all workers at once, a keeper for each ward among them, each for as many rounds as a caller makes calls, and joins
/// them. A thread that can't be made is `Memory` of its worker. An `AllocError` where there is no memory for what they came
/// to.
pub(crate) fn run_all<
    R: Threads + Wait + Sync,
    P: Pages + Drop + Send + Sync,
    F: Identity + Send + Sync,
    S: Start + Send + Sync,
    G: Gate + Sync,
    W: Watch + Sync,
>(
    rt: &R,
    alloc: Global,
    file: &StormFile<P, F>,
    workers: Workers<'_, R, F, S>,
    config: StormConfig,
    overseers: Overseers<'_, G, W>,
) -> Result<Ran<F>, AllocError>
    requires limit { config.ward_bits ≤ WARD_BITS_LIMIT }
    requires bits { config.ward_bits ≡ file.now.ward_bits }
    requires hashed { F.hashing ≡ sha_pseudokey }
    requires copies { (S.ward_bits ≡ config.ward_bits) × (S.table ≡ map.empty) }
    requires callers { AreFirst (λ place caller. caller.seat.client ≡ place + 1) config.callers workers.callers.items }
    requires couriers { AreFirst (λ place courier. courier.number ≡ place + 1) config.copies workers.couriers.items }
    ensures served { IfOk result (λ ran. All (IsServed config.calls) ran.seats.items) }
    ensures all { IfOk result (λ ran. first_of_workers ran.outcomes ≡ Ok tt → length ran.seats.items ≡ config.callers) }
    ensures outcomes { IfOk result (λ ran. AreOfWorkers (HasCounted P.failures) (G.may overseers.entry.gate.now) config ran.outcomes) }
{
    thread::scope(
        thread::scope_env(),
        rt,
        move |scope| -> Result<Ran<F>, AllocError>
            requires limit { config.ward_bits ≤ WARD_BITS_LIMIT }
            requires bits { config.ward_bits ≡ file.now.ward_bits }
            requires hashed { F.hashing ≡ sha_pseudokey }
            requires copies { (S.ward_bits ≡ config.ward_bits) × (S.table ≡ map.empty) }
            requires callers { AreFirst (λ place caller. caller.seat.client ≡ place + 1) config.callers workers.callers.items }
            requires couriers { AreFirst (λ place courier. courier.number ≡ place + 1) config.copies workers.couriers.items }
            ensures served { IfOk result (λ ran. All (IsServed config.calls) ran.seats.items) }
            ensures all { IfOk result (λ ran. first_of_workers ran.outcomes ≡ Ok tt → length ran.seats.items ≡ config.callers) }
            ensures outcomes { IfOk result (λ ran. AreOfWorkers (HasCounted P.failures) (G.may overseers.entry.gate.now) config ran.outcomes) }
        { run_in(scope, rt, alloc, file, workers, config, overseers) },
    )
}

// The same, in a scope.
fn run_in<
    's,
    E,
    R: Threads + Wait + Sync,
    P: Pages + Drop + Send + Sync + 's,
    F: Identity + Send + Sync + 's,
    S: Start + Send + Sync + 's,
    G: Gate + Sync,
    W: Watch + Sync,
>(
    scope: &Scope<'s, E>,
    rt: &'s R,
    alloc: Global,
    file: &'s StormFile<P, F>,
    workers: Workers<'s, R, F, S>,
    config: StormConfig,
    overseers: Overseers<'s, G, W>,
) -> Result<Ran<F>, AllocError>
    requires limit { config.ward_bits ≤ WARD_BITS_LIMIT }
    requires bits { config.ward_bits ≡ file.now.ward_bits }
    requires hashed { F.hashing ≡ sha_pseudokey }
    requires copies { (S.ward_bits ≡ config.ward_bits) × (S.table ≡ map.empty) }
    requires callers { AreFirst (λ place caller. caller.seat.client ≡ place + 1) config.callers workers.callers.items }
    requires couriers { AreFirst (λ place courier. courier.number ≡ place + 1) config.copies workers.couriers.items }
    ensures served { IfOk result (λ ran. All (IsServed config.calls) ran.seats.items) }
    ensures all { IfOk result (λ ran. first_of_workers ran.outcomes ≡ Ok tt → length ran.seats.items ≡ config.callers) }
    ensures outcomes { IfOk result (λ ran. AreOfWorkers (HasCounted P.failures) (G.may overseers.entry.gate.now) config ran.outcomes) }
{
    let Workers { callers, couriers } = workers;
    let calling = start_callers(scope, rt, alloc, file, callers, config, overseers)?;
    let keeping = start_keepers(scope, rt, alloc, file, config, overseers)?;
    let carrying = start_couriers(scope, alloc, file, couriers, config, overseers)?;
    let (seats, callers) = join_callers(rt, alloc, calling, config, overseers.gate)?;
    let keepers = join_keepers(rt, alloc, keeping, config, overseers.gate)?;
    let couriers = join_couriers(rt, alloc, carrying, config, overseers.gate)?;
    let outcomes = Outcomes {
        callers,
        keepers,
        couriers,
    };
    Ok(Ran { seats, outcomes })
}

// What a thread that can't be made comes to. What was to run on it, which comes back with the refusal, is let
// go here, where it is one value and not all that a worker owns.
fn unmade<X: Drop>(_: X) -> StormFault
    ensures { result ≡ Memory }
{
    StormFault::Memory
}

// Starts the callers.
fn start_callers<
    's,
    E,
    R: Threads + Wait + Sync,
    P: Pages + Drop + Send + Sync + 's,
    F: Identity + Send + Sync + 's,
    S: Start + Send + Sync + 's,
    G: Gate + Sync,
    W: Watch + Sync,
>(
    scope: &Scope<'s, E>,
    rt: &'s R,
    alloc: Global,
    file: &'s StormFile<P, F>,
    callers: Vec<Caller<F, S>>,
    config: StormConfig,
    overseers: Overseers<'s, G, W>,
) -> Result<Vec<Thread<Called<F>, P, G>>, AllocError>
    requires hashed { F.hashing ≡ sha_pseudokey }
    requires copies { (S.ward_bits ≡ config.ward_bits) × (S.table ≡ map.empty) }
    requires callers { AreFirst (λ place caller. caller.seat.client ≡ place + 1) config.callers callers.items }
    ensures { IfOk result (λ threads. AreFirst (λ place thread. MatchResult thread (λ handle. (handle.promise.number ≡ place + 1) × (handle.promise.config ≡ config) × (handle.promise.gate.value ≡ overseers.entry.gate.now)) (λ fault. fault ≡ Memory)) config.callers threads.items) }
{
    let calls = config.calls;
    let Overseers { gate, watch } = overseers;
    let mut threads = Vec::with_capacity(alloc, callers.len())?;
    for caller in callers {
        let worker = Worker {
            number: caller.seat.diary().client(),
            config,
            gate: Snapshot::of(gate),
            stores: PhantomData,
        };
        let spawned = scope.spawn_with(worker, move || caller.run(rt, file, calls, gate, watch));
        threads.push(match spawned {
            Ok(handle) => Ok(handle),
            Err(refused) => Err(unmade(refused)),
        })?;
    }
    Ok(threads)
}

// Starts a keeper for each ward.
fn start_keepers<
    's,
    E,
    R: Threads + Wait + Sync,
    P: Pages + Drop + Send + Sync + 's,
    F: Identity + Send + Sync + 's,
    G: Gate + Sync,
    W: Watch + Sync,
>(
    scope: &Scope<'s, E>,
    rt: &'s R,
    alloc: Global,
    file: &'s StormFile<P, F>,
    config: StormConfig,
    overseers: Overseers<'s, G, W>,
) -> Result<Vec<Thread<Outcome, P, G>>, AllocError>
    requires limit { config.ward_bits ≤ WARD_BITS_LIMIT }
    requires bits { config.ward_bits ≡ file.now.ward_bits }
    ensures { IfOk result (λ threads. AreFirst (λ place thread. MatchResult thread (λ handle. (handle.promise.number ≡ place) × (handle.promise.config ≡ config) × (handle.promise.gate.value ≡ overseers.entry.gate.now)) (λ fault. fault ≡ Memory)) (2 ^ config.ward_bits) threads.items) }
{
    let rounds = config.calls;
    let Overseers { gate, watch } = overseers;
    let mut threads = Vec::with_capacity(alloc, 1 << config.ward_bits)?;
    for ward in 0..1u8 << config.ward_bits {
        let keeper = Keeper { ward };
        let worker = Worker {
            number: u32::from(ward),
            config,
            gate: Snapshot::of(gate),
            stores: PhantomData,
        };
        let spawned = scope.spawn_with(worker, move || keeper.run(rt, file, rounds, gate, watch));
        threads.push(match spawned {
            Ok(handle) => Ok(handle),
            Err(refused) => Err(unmade(refused)),
        })?;
    }
    Ok(threads)
}

// Starts the couriers.
fn start_couriers<
    's,
    E,
    R: Threads + Wait + Sync,
    P: Pages + Drop + Send + Sync + 's,
    F: Identity + Send + Sync + 's,
    S: Start + Send + Sync + 's,
    G: Gate + Sync,
    W: Watch + Sync,
>(
    scope: &Scope<'s, E>,
    alloc: Global,
    file: &'s StormFile<P, F>,
    couriers: Vec<Courier<'s, R, S>>,
    config: StormConfig,
    overseers: Overseers<'s, G, W>,
) -> Result<Vec<Thread<Carried<'s, R, S>, P, G>>, AllocError>
    requires limit { config.ward_bits ≤ WARD_BITS_LIMIT }
    requires bits { config.ward_bits ≡ file.now.ward_bits }
    requires couriers { AreFirst (λ place courier. courier.number ≡ place + 1) config.copies couriers.items }
    ensures { IfOk result (λ threads. AreFirst (λ place thread. MatchResult thread (λ handle. (handle.promise.number ≡ place + 1) × (handle.promise.config ≡ config) × (handle.promise.gate.value ≡ overseers.entry.gate.now)) (λ fault. fault ≡ Memory)) config.copies threads.items) }
{
    let gate = overseers.gate;
    let mut threads = Vec::with_capacity(alloc, couriers.len())?;
    for courier in couriers {
        let worker = Worker {
            number: u32::from(courier.number),
            config,
            gate: Snapshot::of(gate),
            stores: PhantomData,
        };
        let spawned = scope.spawn_with(
            worker,
            move || carry(courier, alloc, file, config, overseers),
        );
        threads.push(match spawned {
            Ok(handle) => Ok(handle),
            Err(refused) => Err(unmade(refused)),
        })?;
    }
    Ok(threads)
}

// A courier's rounds.
fn carry<'a, R: Wait, P: Pages + Drop, F: Identity, S: Start, G: Gate, W: Watch>(
    courier: Courier<'a, R, S>,
    alloc: Global,
    file: &StormFile<P, F>,
    config: StormConfig,
    overseers: Overseers<'_, G, W>,
) -> Carried<'a, R, S>
    requires limit { config.ward_bits ≤ WARD_BITS_LIMIT }
    requires bits { config.ward_bits ≡ file.now.ward_bits }
    ensures { IfErr result.1 (IsCourierFault (G.may overseers.entry.gate.now (COURIER_CLIENT + courier.entry.number)) config.calls) }
{
    let mut courier = courier;
    let Overseers { gate, watch } = overseers;
    let outcome = courier.run(alloc, file, config.ward_bits, config.calls, gate, watch);
    (courier, outcome)
}

// Joins the callers, and gives the seats of those that weren't refused, and what came of all.
fn join_callers<R: Threads, P: Pages + Drop, F: Identity, G: Gate>(
    rt: &R,
    alloc: Global,
    threads: Vec<Thread<Called<F>, P, G>>,
    config: StormConfig,
    gate: &G,
) -> Result<(Vec<Seat<F>>, Vec<Outcome>), AllocError>
    requires { AreFirst (λ place thread. MatchResult thread (λ handle. (handle.promise.number ≡ place + 1) × (handle.promise.config ≡ config) × (handle.promise.gate.value ≡ gate.now)) (λ fault. fault ≡ Memory)) config.callers threads.items }
    ensures served { IfOk result (λ joined. All (IsServed config.calls) joined.0.items) }
    ensures outcomes { IfOk result (λ joined. AreFirst (λ place outcome. IfErr outcome (IsRefusedCaller (HasCounted P.failures) config.ward_bits (G.may gate.now) config.calls (place + 1))) config.callers joined.1.items) }
    ensures all { IfOk result (λ joined. first_refusal joined.1.items ≡ Ok tt → length joined.0.items ≡ config.callers) }
{
    let mut seats = Vec::with_capacity(alloc, threads.len())?;
    let mut outcomes = Vec::with_capacity(alloc, threads.len())?;
    for thread in threads {
        match join_caller(rt, thread) {
            Ok(seat) => {
                seats.push(seat)?;
                outcomes.push(Ok(()))?;
            }
            Err(fault) => outcomes.push(Err(fault))?,
        }
    }
    Ok((seats, outcomes))
}

// Joins a caller.
fn join_caller<R: Threads, P: Pages + Drop, F: Identity, G: Gate>(
    rt: &R,
    thread: Thread<Called<F>, P, G>,
) -> Called<F>
    ensures served { IfOk result (λ seat. MatchResult thread (λ handle. IsServed handle.promise.config.calls seat) (λ fault. ⊥)) }
    ensures fault { MatchResult thread (λ handle. IfErr result (IsRefusedCaller (HasCounted P.failures) handle.promise.config.ward_bits (G.may handle.promise.gate.value) handle.promise.config.calls handle.promise.number)) (λ fault. result ≡ Err fault) }
{
    match thread {
        Ok(handle) => handle.join(rt),
        Err(fault) => Err(fault),
    }
}

// Joins the keepers, and gives what came of them.
fn join_keepers<R: Threads, P: Pages + Drop, G: Gate>(
    rt: &R,
    alloc: Global,
    threads: Vec<Thread<Outcome, P, G>>,
    config: StormConfig,
    gate: &G,
) -> Result<Vec<Outcome>, AllocError>
    requires { AreFirst (λ place thread. MatchResult thread (λ handle. (handle.promise.number ≡ place) × (handle.promise.config ≡ config) × (handle.promise.gate.value ≡ gate.now)) (λ fault. fault ≡ Memory)) (2 ^ config.ward_bits) threads.items }
    ensures { IfOk result (λ outcomes. AreFirst (λ place outcome. IfErr outcome (IsRefusedKeeper (HasCounted P.failures) (G.may gate.now) config.calls place)) (2 ^ config.ward_bits) outcomes.items) }
{
    let mut outcomes = Vec::with_capacity(alloc, threads.len())?;
    for thread in threads {
        outcomes.push(join_keeper(rt, thread))?;
    }
    Ok(outcomes)
}

// Joins a keeper.
fn join_keeper<R: Threads, P: Pages + Drop, G: Gate>(
    rt: &R,
    thread: Thread<Outcome, P, G>,
) -> Outcome
    ensures { MatchResult thread (λ handle. IfErr result (IsRefusedKeeper (HasCounted P.failures) (G.may handle.promise.gate.value) handle.promise.config.calls handle.promise.number)) (λ fault. result ≡ Err fault) }
{
    match thread {
        Ok(handle) => handle.join(rt),
        Err(fault) => Err(fault),
    }
}

// Joins the couriers, closes their copies, and gives what came of them.
fn join_couriers<R: Threads + Wait, P: Pages + Drop, S: Start, G: Gate>(
    rt: &R,
    alloc: Global,
    threads: Vec<Thread<Carried<'_, R, S>, P, G>>,
    config: StormConfig,
    gate: &G,
) -> Result<Vec<Outcome>, AllocError>
    requires { AreFirst (λ place thread. MatchResult thread (λ handle. (handle.promise.number ≡ place + 1) × (handle.promise.config ≡ config) × (handle.promise.gate.value ≡ gate.now)) (λ fault. fault ≡ Memory)) config.copies threads.items }
    ensures { IfOk result (λ outcomes. AreFirst (λ place outcome. IfErr outcome (IsRefusedCourier (G.may gate.now) config.calls (place + 1))) config.copies outcomes.items) }
{
    let mut outcomes = Vec::with_capacity(alloc, threads.len())?;
    for thread in threads {
        outcomes.push(join_courier(rt, thread))?;
    }
    Ok(outcomes)
}

// Joins a courier, and closes its copy.
fn join_courier<R: Threads + Wait, P: Pages + Drop, S: Start, G: Gate>(
    rt: &R,
    thread: Thread<Carried<'_, R, S>, P, G>,
) -> Outcome
    ensures { MatchResult thread.entry (λ handle. IfErr result (IsRefusedCourier (G.may handle.promise.gate.value) handle.promise.config.calls handle.promise.number)) (λ fault. result ≡ Err fault) }
{
    match thread {
        Ok(handle) => handle.join(rt).1,
        Err(fault) => Err(fault),
    }
}
