//! Storms under gates, and what each comes to.
ghost use Rattle.exh_page.specs.StormConfig.{IsStormConfig};

use exh_fakes::{Conductor, Count, Rule, Then, Who};
use exh_fixtures::{Part, Run, again, same};
use exh_frames::PlainMaker;
use exh_live::{COURIER_CLIENT, StormFault, storm_over};
use exh_page::StormConfig;
use std::alloc::Global;
use std::sync::Wait;
use std::thread::Threads;
use std::time::Clock;

/// The stories.
#[derive(Clone, Copy)]
pub(crate) enum Storms {
    /// A caller is held until another one has made two calls.
    HeldCaller,
    /// A caller is held until keeper and couriers have begun, and these until it has.
    Company,
    /// Storms that nobody holds.
    Open,
    /// Gates that say no.
    Closed,
    /// Storms of whose threads one isn't made.
    Unmade,
    /// The smallest storm.
    Small,
    /// What a watch is told.
    Told,
    /// Which copy each caller looks at.
    Looks,
}

// Caller 1 waits at turn 1 until caller 2 has passed turn 1 twice.
const HELD: [Rule; 2] = [
    Rule(Who::Client(1), Some(1), Then::Wait(Count::First, 2)),
    Rule(Who::Client(2), Some(1), Then::Raise(Count::First)),
];

// Caller 1 waits at turn 1 until a keeper and two couriers have passed turn 1, and these wait at turn 2
// until caller 1 has passed turn 1.
const COMPANY: [Rule; 4] = [
    Rule(Who::Company, Some(1), Then::Raise(Count::First)),
    Rule(Who::Company, Some(2), Then::Wait(Count::Second, 1)),
    Rule(Who::Client(1), Some(1), Then::Wait(Count::First, 3)),
    Rule(Who::Client(1), Some(1), Then::Raise(Count::Second)),
];

// The keeper waits until 100 calls are answered, and the courier until it has made as many rounds.
const ORDER: [Rule; 2] = [
    Rule(Who::Keepers, None, Then::Wait(Count::Calls, 100)),
    Rule(Who::Couriers, None, Then::Wait(Count::Rounds, 100)),
];

// The same of the keepers of eight wards, each of which makes as many.
const ORDER_OF_EIGHT: [Rule; 2] = [
    Rule(Who::Keepers, None, Then::Wait(Count::Calls, 100)),
    Rule(Who::Couriers, None, Then::Wait(Count::Rounds, 800)),
];

// To whom a gate says no, at which turn, and what a storm of few calls comes to then: a caller, the keeper
// or a courier, at the first turn or at the last round; the turn after that; and clients that aren't there.
const NOES: [(u32, u32, Result<u64, u8>); 16] = [
    (1, 1, Err(50)),
    (2, 1, Err(50)),
    (65_536, 1, Err(50)),
    (65_601, 1, Err(50)),
    (65_602, 1, Err(50)),
    (65_536, 10, Err(50)),
    (65_536, 11, Ok(20)),
    (65_601, 10, Err(50)),
    (65_601, 11, Ok(20)),
    (65_602, 10, Err(50)),
    (65_602, 11, Ok(20)),
    (0, 1, Ok(20)),
    (3, 1, Ok(20)),
    (65_537, 1, Ok(20)),
    (65_600, 1, Ok(20)),
    (65_603, 1, Ok(20)),
];

// The same of a storm over sixteen wards and eight copies: the last caller, the keepers of the wards 1 and
// 15, the couriers to the first copy and the last one, and the numbers after these.
const NOES_OF_MANY: [(u32, u32, Result<u64, u8>); 9] = [
    (16, 1, Err(50)),
    (17, 1, Ok(800)),
    (65_537, 50, Err(50)),
    (65_551, 50, Err(50)),
    (65_552, 1, Ok(800)),
    (65_600, 1, Ok(800)),
    (65_601, 50, Err(50)),
    (65_608, 50, Err(50)),
    (65_609, 1, Ok(800)),
];

// The same of a storm of 2,000 calls: the keeper and the courier, at the last round and behind it.
const NOES_OF_LONG: [(u32, u32, Result<u64, u8>); 4] = [
    (65_536, 2_000, Err(50)),
    (65_536, 2_001, Ok(2_000)),
    (65_601, 2_000, Err(50)),
    (65_601, 2_001, Ok(2_000)),
];

// Two storms of whose threads one that is no caller's isn't made: in the first a caller is held, and comes
// first; in the second the second courier, and what can't be made comes before it.
const UNMADE: [(u32, Result<u64, u8>); 2] = [(1, Err(50)), (65_602, Err(10))];

// Three callers make their ten calls one after the other: the leader; another one, who goes on once the copy of this
// number is told of the leader's splits, of which there are so many; and the last one. Both have looked for their
// first call before the leader begins, and nothing more is told or merged until all is answered. For how many of
// their calls each of the two takes a second turn is counted.
fn in_order(leader: u8, other: u8, last: u8, told: u8, splits: u64) -> [Rule; 11] {
    let leader = Who::Client(u32::from(leader));
    let other = Who::Client(u32::from(other));
    let last = Who::Client(u32::from(last));
    let untold = Who::Client(COURIER_CLIENT + if told == 1 { 2 } else { 1 });
    let told = Who::Client(COURIER_CLIENT + u32::from(told));
    [
        Rule(leader, Some(1), Then::Wait(Count::Third, 2)),
        Rule(other, Some(1), Then::Raise(Count::Third)),
        Rule(last, Some(1), Then::Raise(Count::Third)),
        Rule(told, Some(1), Then::Wait(Count::Calls, 10)),
        Rule(other, Some(1), Then::Wait(Count::Notices, splits)),
        Rule(last, Some(1), Then::Wait(Count::Calls, 20)),
        Rule(told, Some(2), Then::Wait(Count::Calls, 30)),
        Rule(untold, None, Then::Wait(Count::Calls, 30)),
        Rule(Who::Keepers, None, Then::Wait(Count::Calls, 30)),
        Rule(other, Some(2), Then::Raise(Count::First)),
        Rule(last, Some(2), Then::Raise(Count::Second)),
    ]
}

/// How large a storm is.
#[derive(Clone, Copy)]
enum Size {
    /// One caller, one call.
    Small,
    /// Few calls of two callers.
    Few,
    /// Four callers over one ward.
    Four,
    /// One caller, and one copy. By the pseudokeys of its keys the caller splits pages 15 times, and two of
    /// these splits can be merged when all is answered.
    Alone,
    /// The same over eight wards, of one record a page: it splits pages 37 times, in all wards but ward 1. Two of
    /// these splits can be merged in ward 2 then, and one in ward 5.
    Eight,
    /// As many callers, wards and copies as there may be.
    Most,
    /// Many calls of one caller.
    Long,
    /// More copies than callers.
    Unseen,
    /// Three callers over two copies and one ward, of one record a page.
    Three,
}

impl Size {
    fn config(self) -> StormConfig
        ensures { IsStormConfig result }
    {
        let (callers, calls, cap, ward_bits, copies) = match self {
            Size::Small => (1, 1, 1, 0, 1),
            Size::Few => (2, 10, 2, 0, 2),
            Size::Four => (4, 100, 2, 0, 2),
            Size::Alone => (1, 100, 2, 0, 1),
            Size::Eight => (1, 100, 1, 3, 1),
            Size::Most => (16, 50, 16, 4, 8),
            Size::Long => (1, 2_000, 2, 0, 1),
            Size::Unseen => (2, 10, 2, 1, 5),
            Size::Three => (3, 10, 1, 0, 2),
        };
        StormConfig {
            callers,
            calls,
            cap,
            ward_bits,
            copies,
        }
    }
}

// What a storm came to, or its refusal's number; how many calls, merges and notices its watch was told; and two counts of
// its gate.
type Told = (Result<u64, u8>, [u64; 3], [u64; 2]);

/// Plays a story.
pub(crate) fn play<R: Threads + Wait + Clock + Sync>(rt: &R, story: Storms, run: &mut Run) {
    match story {
        Storms::HeldCaller => step(rt, run, Size::Few, &HELD, Ok(20)),
        Storms::Company => step(rt, run, Size::Few, &COMPANY, Ok(20)),
        Storms::Open => {
            step(rt, run, Size::Four, &[], Ok(400));
            step(rt, run, Size::Most, &[], Ok(800));
            step(rt, run, Size::Unseen, &[], Ok(20));
        }
        Storms::Closed => {
            play_closed(rt, run, Size::Few, &NOES);
            play_closed(rt, run, Size::Most, &NOES_OF_MANY);
            play_closed(rt, run, Size::Long, &NOES_OF_LONG);
        }
        Storms::Unmade => play_unmade(rt, run),
        Storms::Small => step(rt, run, Size::Small, &[], Ok(1)),
        Storms::Told => play_told(rt, run),
        Storms::Looks => play_looks(rt, run),
    }
}

// Runs a storm of this size for each of these, to whom its gate says no.
fn play_closed<R: Threads + Wait + Clock + Sync>(
    rt: &R,
    run: &mut Run,
    size: Size,
    noes: &[(u32, u32, Result<u64, u8>)],
) {
    for (client, turn, want) in noes {
        let no = Rule(Who::Client(*client), Some(*turn), Then::No);
        step(rt, run, size, &[no], *want);
    }
}

// Runs a storm, which comes to this.
fn step<R: Threads + Wait + Clock + Sync>(
    rt: &R,
    run: &mut Run,
    size: Size,
    rules: &[Rule],
    want: Result<u64, u8>,
) {
    let outcome = match told(rt, run.alloc, size, rules) {
        (Ok(count), ..) if run.lie.is_due() => Ok(count.wrapping_add(1)),
        (outcome, ..) => outcome,
    };
    run.tally.step(same(outcome == want, Part::Run));
}

// Storms whose watch's counts are looked at. In two of them the keepers run after the caller, and the courier after
// both; in the last one of two callers is held at its first call.
fn play_told<R: Threads + Wait + Clock + Sync>(rt: &R, run: &mut Run) {
    let (outcome, counts, _) = told(rt, run.alloc, Size::Alone, &ORDER);
    let is_told = outcome == Ok(100) && counts == [100, 2, 17];
    let is_told = is_told != run.lie.is_due();
    run.tally.step(same(is_told, Part::Run));
    let (outcome, counts, _) = told(rt, run.alloc, Size::Eight, &ORDER_OF_EIGHT);
    run.tally.step(same(outcome == Ok(100) && counts == [100, 3, 40], Part::Run));
    let no = Rule(Who::Client(1), Some(1), Then::No);
    let (outcome, [calls, ..], _) = told(rt, run.alloc, Size::Few, &[no]);
    run.tally
        .step(same(outcome == Err(50) && calls == 10, Part::Run));
}

// Two storms in which callers that look at a copy that is told of splits need fewer second turns than the others. In the
// first caller 2 looks at the second copy, and caller 3 at the first one; in the second the callers 1 and 3 look at the first.
fn play_looks<R: Threads + Wait + Clock + Sync>(rt: &R, run: &mut Run) {
    let (outcome, _, turns) = told(rt, run.alloc, Size::Three, &in_order(1, 2, 3, 2, 3));
    let is_told = outcome == Ok(30) && turns == [6, 8];
    let is_told = is_told != run.lie.is_due();
    run.tally.step(same(is_told, Part::Run));
    let (outcome, _, turns) = told(rt, run.alloc, Size::Three, &in_order(2, 1, 3, 1, 5));
    run.tally
        .step(same(outcome == Ok(30) && turns == [3, 5], Part::Run));
}

// A storm that nobody holds; and where it is refused 10, since a thread isn't made, two that are refused for
// more than that.
fn play_unmade<R: Threads + Wait + Clock + Sync>(rt: &R, run: &mut Run) {
    let (outcome, ..) = told(rt, run.alloc, Size::Few, &[]);
    let is_unmade = outcome == Err(10);
    let is_right = (is_unmade || outcome == Ok(20)) != run.lie.is_due();
    run.tally.step(same(is_right, Part::Run));
    if is_unmade {
        for (client, want) in UNMADE {
            let no = Rule(Who::Client(client), Some(1), Then::No);
            step(rt, run, Size::Few, &[no], want);
        }
    }
}

// Runs a storm under these rules, once more where memory was refused.
fn told<R: Threads + Wait + Clock + Sync>(
    rt: &R,
    alloc: Global,
    size: Size,
    rules: &[Rule],
) -> Told {
    match again!(Err(StormFault::Memory) => told_once(rt, alloc, size, rules)) {
        Ok(told) => told,
        Err(fault) => (Err(fault.number()), [0; 3], [0; 2]),
    }
}

fn told_once<R: Threads + Wait + Clock + Sync>(
    rt: &R,
    alloc: Global,
    size: Size,
    rules: &[Rule],
) -> Result<Told, StormFault> {
    let conductor = Conductor::new(rt, rules);
    let outcome = match storm_over(
        rt,
        alloc,
        &PlainMaker,
        &size.config(),
        &conductor,
        &conductor,
    ) {
        Ok(count) => Ok(count),
        Err(StormFault::Memory) => return Err(StormFault::Memory),
        Err(fault) => Err(fault.number()),
    };
    let told = [Count::Calls, Count::Merges, Count::Notices];
    let told = told.map(|count| conductor.count(count));
    let counted = [Count::First, Count::Second];
    let counted = counted.map(|count| conductor.count(count));
    Ok((outcome, told, counted))
}
