//! Walks over hops that were planned: their hops, splits and questions to the gate are counted, and the page of the last
//! hop is seen.

ghost use Rattle.std.specs.Prelude.{⊤};

use exh_calls::{Call, Reply};
use exh_fixtures::split;
use exh_notice::Notice;
use exh_page::Key;
use exh_prefix::{PageNo, Prefix};
use exh_walk::{AskFault, Gate, Steps, walk_steps};
use exh_ward::{Hop, WardFault};
use std::sync::atomic::{AtomicU32, Ordering};
use std::test::*;

// What a hop is planned to come to.
#[derive(Clone, Copy)]
enum Plan {
    Moves(PageNo),
    Strays,
    Splits,
    Answers,
}

// Hops as planned, and then moves for ever. Each split is refused so, or is that of the root, with page 3 as the right half.
#[derive(Drop)]
struct Planned {
    plan: &'static [Plan],
    pseudokey: u64,
    refusal: Option<WardFault>,
    hops: u32,
    splits: u32,
    last_page: PageNo,
}

impl Steps for Planned {
    ghost step = { λ _ _ _. ⊤ };

    ghost serves = { λ _ _ _. ⊤ };

    ghost walked = { λ _ _ _ _ _ _ _. ⊤ };

    fn pseudokey(&self, _call: &Call) -> u64 {
        self.pseudokey
    }

    fn hop_hashed(
        &mut self,
        at: PageNo,
        _client: u32,
        _call: &Call,
        _pseudokey: u64,
    ) -> Result<Hop, WardFault> {
        let planned = self.plan.get(self.hops as usize);
        self.hops = self.hops.wrapping_add(1);
        self.last_page = at;
        Ok(match planned {
            Some(Plan::Moves(page)) => Hop::Moved(*page),
            Some(Plan::Strays) => Hop::Stray,
            Some(Plan::Splits) => Hop::MustSplit,
            Some(Plan::Answers) => Hop::Done(Reply::New),
            None => Hop::Moved(at.wrapping_add(1)),
        })
    }

    fn split(&mut self, _at: PageNo) -> Result<Notice, WardFault> {
        self.splits = self.splits.wrapping_add(1);
        match self.refusal {
            Some(fault) => Err(fault),
            None => Ok(split(1, Prefix::of_number(0, 0), 1, 3)),
        }
    }

    fn walks_are_walked<G: Gate>(&self, _gate: &G) {}
}

// Says yes, and counts how often it was asked and what the last turn was.
#[derive(Drop)]
struct CountingGate {
    asked: AtomicU32,
    last: AtomicU32,
}

impl Gate for CountingGate {
    ghost may = { λ _ _ _ _. ⊤ };

    fn pass(&self, _client: u32, turn: u32) -> bool {
        self.asked.fetch_add(1, Ordering::SeqCst);
        self.last.store(turn, Ordering::SeqCst);
        true
    }
}

// What a planned walk comes to: whether it is answered, its hops, its splits, how often the gate was asked, which is also
// the last turn, and the page of the last hop.
type Walked = (Result<(), AskFault>, u32, u32, u32, PageNo);

// The hops that are planned, the pseudokey, how a split is refused, and what the walk comes to.
type Walk = (&'static [Plan], u64, Option<WardFault>, Walked);

// Three moves, a split, and the answer.
const PLAN: [Plan; 5] = [
    Plan::Moves(4),
    Plan::Moves(2),
    Plan::Moves(7),
    Plan::Splits,
    Plan::Answers,
];

const WALKS: [Walk; 7] = [
    // A split that isn't needed any more.
    (&PLAN, 0, Some(WardFault::NotFull), (Ok(()), 5, 1, 5, 7)),
    // A split that wants memory, or a page out of reach, isn't tried again.
    (
        &PLAN,
        0,
        Some(WardFault::Memory),
        (Err(AskFault::Memory), 4, 1, 4, 7),
    ),
    (
        &PLAN,
        0,
        Some(WardFault::Page),
        (Err(AskFault::Page), 4, 1, 4, 7),
    ),
    // After its own split a walk goes on at the half of its pseudokey.
    (
        &[Plan::Splits, Plan::Answers],
        0,
        None,
        (Ok(()), 2, 1, 2, 0),
    ),
    (
        &[Plan::Splits, Plan::Answers],
        1 << 63,
        None,
        (Ok(()), 2, 1, 2, 3),
    ),
    // A walk that strayed goes on at page 0.
    (
        &[Plan::Moves(4), Plan::Strays, Plan::Answers],
        0,
        None,
        (Ok(()), 3, 0, 3, 0),
    ),
    // A walk that always moves is held after its last turn.
    (
        &[],
        0,
        None,
        (Err(AskFault::Held), 1_000_000, 0, 1_000_000, 999_999),
    ),
];

// What a walk comes to; none where the gate was asked out of turn.
fn walked(plan: &'static [Plan], pseudokey: u64, refusal: Option<WardFault>) -> Option<Walked> {
    let key = Key::from_bytes(b"k").ok()?;
    let mut steps = Planned {
        plan,
        pseudokey,
        refusal,
        hops: 0,
        splits: 0,
        last_page: 0,
    };
    let gate = CountingGate {
        asked: AtomicU32::new(0),
        last: AtomicU32::new(0),
    };
    let answer = match walk_steps(&mut steps, &gate, 0, 7, &Call::Get { key }) {
        Ok(Reply::New) => Ok(()),
        Ok(_) => return None,
        Err(fault) => Err(fault),
    };
    let asked = gate.asked.load(Ordering::SeqCst);
    let is_in_turn = gate.last.load(Ordering::SeqCst) == asked;
    is_in_turn.then_some((answer, steps.hops, steps.splits, asked, steps.last_page))
}

#[test]
fn takes_one_hop_a_turn(rt: HostRuntime) {
    for (plan, pseudokey, refusal, want) in WALKS {
        assert!(rt; walked(plan, pseudokey, refusal) == Some(want));
    }
}
