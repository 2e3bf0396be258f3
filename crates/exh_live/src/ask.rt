ghost use Rattle.std.specs.Prelude.{◌≡◌, ◌+◌, [], ◌∷◌, ◌++◌, IfOk, IfErr, OnErr};
ghost use Rattle.exh_calls.specs.Call.{key_of};
ghost use Rattle.exh_copy.specs.Additions.{BeginsWith};
ghost use Rattle.exh_live.specs.Locked.{IsAsked, IsFirstPage, IsLockedWalk};
ghost use Rattle.exh_live.specs.Refused.{IsSomeWardsFault};
ghost use Rattle.exh_live.specs.Units.{units_of};
ghost use Rattle.exh_walk.specs.declared.ask_fault.AskFault.TheVariants.{Page};
ghost use Rattle.exh_ward.specs.declared.ward_fault.WardFault.TheVariants.{Page as OutOfReach};

use crate::ledgers::Answers;
use crate::locked_ward::LockedWard;
use crate::{Identity, LiveFile, Seat};
use exh_calls::{Call, Reply};
use exh_copy::{CopyReader, Start};
use exh_keyer::Keyer;
use exh_prefix::{PageNo, ward_number};
use exh_stores::Pages;
use exh_walk::{AskFault, Gate, walk_steps};
use std::mem::replace;
use std::sync::Wait;
use std::sync::ledger::Share;

// Where a walk begins that is told of no other page.
const FIRST_PAGE: PageNo = 0;

impl<P: Pages + Drop, K: Keyer, F: Identity> LiveFile<P, K, F> {
    /// Answers a call of a seat of this file: a look at a copy of the directory, then the caller's walk from the page
    /// that it names (page 0 where it names none), over the ward of the call's key behind its lock. The answer is
    /// written down in the seat's diary, in which there was room before the first hop. Refused: `Held` where the gate
    /// says no, or after 1,000,000 turns; at any point `Memory`, and `Page`, where a store of the wards' kind has counted
    /// a failure in that turn of a lock. The seat and the map are then as before; splits made on the way stay. It may
    /// wait for other callers.
    pub fn ask<R: Wait, S: Start, G: Gate>(
        &self,
        rt: &R,
        seat: &mut Seat<F>,
        copy: &mut CopyReader<S>,
        call: &Call,
        gate: &G,
    ) -> Result<Reply, AskFault>
        ensures ok { IfOk result (λ reply. seat.new ≡ record seat.old { entries = seat.old.entries ++ record { call = call.now; reply = reply } ∷ [] }) }
        ensures err { OnErr result (seat.new ≡ seat.old) }
        ensures walk { IsAsked K.pseudokey_of F.hashing (IsFirstPage S.table S.ward_bits copy.old copy.new) (G.may gate.now seat.old.client) seat.old.client call.now result }
        ensures counted { IfErr result (λ fault. fault ≡ Page → IsSomeWardsFault P.failures K.pseudokey_of OutOfReach) }
        ensures copy { (copy.new.name ≡ copy.old.name) × BeginsWith copy.new.additions copy.old.additions }
    {
        if seat.diary.reserve().is_err() {
            return Err(AskFault::Memory);
        }
        let pseudokey = self.settings.keyer.pseudo(call.key().as_bytes());
        let at = copy.look(pseudokey).unwrap_or(FIRST_PAGE);
        let client = seat.diary.client();
        let none = seat.answers.empty();
        let answers = replace(&mut seat.answers, none);
        let (answers, result) = self.walk(rt, answers, pseudokey, at, client, call, gate);
        seat.answers.merge(answers);
        let reply = result?;
        seat.diary.push_reserved(call, &reply);
        Ok(reply)
    }

    // The walk of a call, with the caller's share of the answers, which grows by a unit where it is
    // answered.
    fn walk<R: Wait, G: Gate>(
        &self,
        rt: &R,
        answers: Share<Answers<F>>,
        pseudokey: u64,
        at: PageNo,
        client: u32,
        call: &Call,
        gate: &G,
    ) -> (Share<Answers<F>>, Result<Reply, AskFault>)
        requires part { answers.parts ≡ 1 }
        requires hashed { pseudokey ≡ K.pseudokey_of self.now.keyer (key_of call.now) }
        ensures part { result.0.parts ≡ 1 }
        ensures walk { IsLockedWalk K.pseudokey_of (G.may gate.now client) at client call.now pseudokey result.1 }
        ensures counted { IfErr result.1 (λ fault. fault ≡ Page → IsSomeWardsFault P.failures K.pseudokey_of OutOfReach) }
        ensures units { result.0.amount ≡ answers.amount + units_of result.1 }
    {
        let number = ward_number(self.settings.ward_bits, pseudokey);
        let mut ward = LockedWard {
            rt,
            ward: &self.wards[usize::from(number)],
            tally: &self.tally,
            answers,
            pseudokey,
        };
        let result = walk_steps(&mut ward, gate, at, client, call);
        (ward.answers, result)
    }
}
