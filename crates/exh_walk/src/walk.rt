ghost use Rattle.std.specs.Prelude.{◌≡◌};
ghost use Rattle.exh_walk.specs.Turn.{IsTurn, IsSplitTurn};
ghost use Rattle.exh_walk.specs.CallerWalk.{IsCallWalked, IsWalked, MayBeAsked, ServesOn, half_of, right_begins};

use crate::{AskFault, Gate, Steps};
use exh_calls::{Call, Reply};
use exh_notice::{Kind, Notice};
use exh_prefix::{PageNo, Prefix};
use exh_ward::{Hop, WardFault};

/// The greatest turn of a walk: the gate is asked at no later one, which counts as a no.
pub const TURN_LIMIT: u32 = 1_000_000;

// Where a ward's requests begin that know of no other page.
const FIRST_PAGE: PageNo = 0;

// What a turn of a walk comes to.
enum Turn {
    // The call is answered.
    Answered(Reply),
    // The next hop is at this page.
    At(PageNo),
}

/// Walks a client's call from the page of number `at` to its answer: hops, before each of which the gate is
/// asked; after `MustSplit` a split of that page and a hop at the half of the call's pseudokey, or there
/// again where it wasn't split; after `Stray` a hop at page 0. Refused: `Held` where the gate says no, or
/// after 1,000,000 turns; at any point `Memory` and `Page`. The call has then changed nothing; splits made
/// on the way stay.
pub fn walk_steps<S: Steps, G: Gate>(
    steps: &mut S,
    gate: &G,
    at: PageNo,
    client: u32,
    call: &Call,
) -> Result<Reply, AskFault>
    requires { MayBeAsked S.serves steps.old call.now }
    ensures walk { IsCallWalked S.step S.serves (G.may gate.now client) steps.old at client call.now result steps.new }
    ensures walked { S.walked steps.old (G.may gate.now client) at client call.now result steps.new }
    ensures serves { ServesOn S.serves steps.old steps.new }
{
    steps.walks_are_walked(gate);
    let pseudokey = steps.pseudokey(call);
    walk_hashed(steps, gate, at, client, call, pseudokey)
}

// The walk of a call whose key has this pseudokey.
fn walk_hashed<S: Steps, G: Gate>(
    steps: &mut S,
    gate: &G,
    at: PageNo,
    client: u32,
    call: &Call,
    pseudokey: u64,
) -> Result<Reply, AskFault>
    requires { S.serves steps.old call.now pseudokey }
    ensures walk { IsWalked S.step (G.may gate.now client) steps.old at client call.now pseudokey result steps.new }
    ensures serves { ServesOn S.serves steps.old steps.new }
{
    let mut page = at;
    for turns in 0..TURN_LIMIT {
        if !gate.pass(client, turns + 1) {
            return Err(AskFault::Held);
        }
        match take_turn(steps, page, client, call, pseudokey) {
            Ok(Turn::Answered(reply)) => return Ok(reply),
            Ok(Turn::At(next)) => page = next,
            Err(fault) => return Err(fault),
        }
    }
    Err(AskFault::Held)
}

// One hop, and the split that it asks for.
fn take_turn<S: Steps>(
    steps: &mut S,
    page: PageNo,
    client: u32,
    call: &Call,
    pseudokey: u64,
) -> Result<Turn, AskFault>
    requires { S.serves steps.old call.now pseudokey }
    ensures turn { IsTurn S.step steps.old page client call.now pseudokey result steps.new }
    ensures serves { ServesOn S.serves steps.old steps.new }
{
    match steps.hop_hashed(page, client, call, pseudokey) {
        Ok(Hop::Done(reply)) => Ok(Turn::Answered(reply)),
        Ok(Hop::Moved(next)) => Ok(Turn::At(next)),
        Ok(Hop::MustSplit) => split_full(steps, page, pseudokey),
        Ok(Hop::Stray) => Ok(Turn::At(FIRST_PAGE)),
        Err(fault) => Err(AskFault::of_hop(fault)),
    }
}

// Splits a page that was full for a call of this pseudokey, which then hops at its half, or there again where
// another has changed the page since.
fn split_full<S: Steps>(steps: &mut S, page: PageNo, pseudokey: u64) -> Result<Turn, AskFault>
    ensures turn { IsSplitTurn S.step steps.old page pseudokey result steps.new }
    ensures serves { ServesOn S.serves steps.old steps.new }
{
    match steps.split(page) {
        Ok(notice) => Ok(Turn::At(half_of(pseudokey, page, &notice))),
        Err(WardFault::Memory) => Err(AskFault::Memory),
        Err(WardFault::Page) => Err(AskFault::Page),
        Err(_) => Ok(Turn::At(page)),
    }
}

// Of a page that was split, as this notice tells, the half of a pseudokey.
fn half_of(pseudokey: u64, page: PageNo, notice: &Notice) -> PageNo
    ensures { result ≡ half_of pseudokey page notice.now }
{
    match notice.kind {
        Kind::Split { right } => {
            if right_begins(notice.prefix, pseudokey) {
                right
            } else {
                page
            }
        }
        Kind::Merge => page,
    }
}

// Whether the right child of a prefix, which one of `LIMIT` bits hasn't, begins a pseudokey.
fn right_begins(prefix: Prefix, pseudokey: u64) -> bool
    ensures { result ≡ right_begins prefix pseudokey }
{
    match prefix.child(true) {
        Some(child) => child.begins(pseudokey),
        None => false,
    }
}
