//! Walks and hops over a ward by itself, and a storm, as `exh_live` and `exh_ward` hand them out. By hand: `#80` has page 0,
//! the only one of a new ward.

use exh_fixtures::Said;
use exh_frames::{PlainMaker, PlainPages};
use exh_keyer::PlainKeyer;
use exh_live::{OpenGate, Steps, StormConfig, storm, walk_steps};
use exh_page::FileSettings;
use exh_ward::{Call, Hop, Reply, Ward, new_wards};
use std::alloc::Global;
use std::test::*;

type PlainWard = Ward<PlainPages, PlainKeyer>;

// The pseudokey `#80`.
const HALF: u64 = 0x8000_0000_0000_0000;

const SETTINGS: FileSettings<PlainKeyer> = FileSettings {
    cap: 2,
    ward_bits: 0,
    keyer: PlainKeyer,
};

// A call with its reply.
fn line(said: Said<'_>) -> Option<(Call, Reply)> {
    Some((said.asked().call().ok()?, said.reply().ok()?))
}

// By a walk.
fn walks(ward: &mut PlainWard, call: &Call, reply: Reply) -> bool {
    if !ward.covers(HALF) || ward.pseudokey(call.key()) != HALF {
        return false;
    }
    walk_steps(ward, &OpenGate, 0, 7, call) == Ok(reply)
}

// By the ward's own hop.
fn hops(ward: &mut PlainWard, call: &Call, reply: Reply) -> bool {
    if !ward.covers(HALF) || ward.pseudokey(call.key()) != HALF {
        return false;
    }
    ward.hop(0, 7, call) == Ok(Hop::Done(reply))
}

// By that of a walk.
fn steps(ward: &mut PlainWard, call: &Call, reply: Reply) -> bool {
    if !ward.covers(HALF) || ward.pseudokey(call.key()) != HALF {
        return false;
    }
    Steps::hop(ward, 0, 7, call) == Ok(Hop::Done(reply))
}

// Who owns wards has few exits, for the prover's sake: each drops them.
fn are_answered(ward: &mut PlainWard) -> Option<bool> {
    let (put, new) = line(Said::New(b"\x80", b"b"))?;
    let (swap, swapped) = line(Said::Swapped(b"\x80", b"b", b"c"))?;
    let (get, is_c) = line(Said::Is(b"\x80", b"c"))?;
    Some(
        walks(ward, &put, new)
            && hops(ward, &swap, swapped)
            && steps(ward, &get, is_c)
            && ward.journal().len() == 3,
    )
}

fn answered(alloc: Global) -> Option<bool> {
    let mut wards: Vec<PlainWard> = new_wards(alloc, &PlainMaker, SETTINGS).ok()?;
    match wards.first_mut() {
        Some(ward) => are_answered(ward),
        None => None,
    }
}

// Each answer is one entry of the journal.
#[test]
fn a_walk(rt: HostRuntime) {
    assert!(rt; answered(rt.alloc()) == Some(true));
}

const STORM: StormConfig = StormConfig {
    callers: 2,
    calls: 10,
    cap: 2,
    ward_bits: 0,
    copies: 2,
};

#[test]
fn a_storm(rt: HostRuntime) {
    assert!(rt; storm(&rt, rt.alloc(), &STORM, &OpenGate).ok() == Some(20));
}
