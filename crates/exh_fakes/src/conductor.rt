//! A gate and a watch over counts that threads raise and wait for.
ghost use Rattle.std.specs.Prelude.{⊤};

use crate::rule::{Rule, Then};
use exh_live::Watch;
use exh_walk::Gate;
use std::sync::atomic::{AtomicU64, Ordering};
use std::thread;
use std::time::{Clock, Duration};

// How often a wait looks.
const TURNS: u32 = 100_000;

/// What threads count, and wait for.
#[derive(Clone, Copy)]
pub enum Count {
    /// What a story means by it, as the next two.
    First,
    Second,
    Third,
    /// Answered calls, rounds of keepers, merges and notices, as a storm tells them.
    Calls,
    Rounds,
    Merges,
    Notices,
}

/// Counts what threads do, as a watch and by the rules of a gate, and lets them wait for one another.
#[derive(Drop)]
pub struct Conductor<'a, R: Clock> {
    clock: &'a R,
    rules: &'a [Rule],
    first: AtomicU64,
    second: AtomicU64,
    third: AtomicU64,
    calls: AtomicU64,
    rounds: AtomicU64,
    merges: AtomicU64,
    notices: AtomicU64,
}

impl<'a, R: Clock> Conductor<'a, R> {
    /// Counts of none.
    pub fn new(clock: &'a R, rules: &'a [Rule]) -> Conductor<'a, R> {
        Conductor {
            clock,
            rules,
            first: AtomicU64::new(0),
            second: AtomicU64::new(0),
            third: AtomicU64::new(0),
            calls: AtomicU64::new(0),
            rounds: AtomicU64::new(0),
            merges: AtomicU64::new(0),
            notices: AtomicU64::new(0),
        }
    }

    /// Counts so many more.
    pub fn raise(&self, count: Count, by: u64) {
        self.cell(count).fetch_add(by, Ordering::SeqCst);
    }

    /// How many were counted.
    pub fn count(&self, count: Count) -> u64 {
        self.cell(count).load(Ordering::SeqCst)
    }

    /// Waits until so many were counted, and lets other threads run meanwhile. Answers whether they were; it
    /// gives up after 100,000 turns.
    pub fn wait_for(&self, count: Count, least: u64) -> bool {
        for _ in 0..TURNS {
            if self.count(count) >= least {
                return true;
            }
            self.rest();
        }
        false
    }

    /// Lets other threads run for ten microseconds or more.
    pub fn rest(&self) {
        thread::sleep(self.clock, Duration::from_micros(10));
    }

    fn cell(&self, count: Count) -> &AtomicU64 {
        match count {
            Count::First => &self.first,
            Count::Second => &self.second,
            Count::Third => &self.third,
            Count::Calls => &self.calls,
            Count::Rounds => &self.rounds,
            Count::Merges => &self.merges,
            Count::Notices => &self.notices,
        }
    }

    // Does what a rule says. Answers whether one may go on.
    fn obey(&self, then: Then) -> bool {
        match then {
            Then::Raise(count) => {
                self.raise(count, 1);
                true
            }
            Then::Wait(count, least) => self.wait_for(count, least),
            Then::No => false,
        }
    }
}

impl<R: Clock> Gate for Conductor<'_, R> {
    ghost may = { λ _ _ _ _. ⊤ };

    fn pass(&self, client: u32, turn: u32) -> bool {
        for rule in self.rules {
            if rule.is_for(client, turn) && !self.obey(rule.2) {
                return false;
            }
        }
        true
    }
}

impl<R: Clock> Watch for Conductor<'_, R> {
    fn answered(&self) {
        self.raise(Count::Calls, 1);
    }

    fn merged(&self, merges: u32) {
        self.raise(Count::Merges, u64::from(merges));
        self.raise(Count::Rounds, 1);
    }

    fn carried(&self, notices: u64) {
        self.raise(Count::Notices, notices);
    }
}
