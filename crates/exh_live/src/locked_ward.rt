ghost use Rattle.std.specs.Prelude.{◌≡◌, ⊤, ◌+◌, ◌<◌, length};
ghost use Rattle.exh_calls.specs.Call.{key_of};
ghost use Rattle.exh_walk.specs.WardRun.{answer_of};
ghost use Rattle.exh_live.specs.Locked.{IsSomeWardsStep};
ghost use Rattle.exh_live.specs.Refused.{IsRefusedSo};

use crate::Identity;
use crate::ledgers::Answers;
use crate::lock::lock_soon;
use crate::tallied_ward::WardLock;
use crate::tally::TallyLock;
use exh_calls::Call;
use exh_keyer::Keyer;
use exh_notice::Notice;
use exh_prefix::PageNo;
use exh_stores::Pages;
use exh_walk::{Gate, Steps};
use exh_ward::{Hop, WardFault};
use std::sync::Wait;
use std::sync::ledger::Share;

/// A ward behind its lock, for one call of one caller, whose share of the answers it has meanwhile.
/// The lock is taken once for each hop and each split.
#[derive(Drop)]
pub(crate) struct LockedWard<'a, P: Pages + Drop, K: Keyer, F: Identity, R: Wait> {
    pub(crate) rt: &'a R,
    pub(crate) ward: &'a WardLock<P, K, F>,
    pub(crate) tally: &'a TallyLock<F>,
    pub(crate) answers: Share<Answers<F>>,
    // That of the call's key.
    pub(crate) pseudokey: u64,
    ghost one_part: { answers.parts ≡ 1 },
}

// An answer is one unit more, and nothing else is any; a refusal is one of some ward, whose store has counted it.
impl<'a, P: Pages + Drop, K: Keyer, F: Identity, R: Wait> Steps for LockedWard<'a, P, K, F, R> {
    ghost step = { λ old event new. (new.answers.amount ≡ old.answers.amount + length (answer_of event)) × IsSomeWardsStep K.pseudokey_of event × IsRefusedSo P.failures K.pseudokey_of event };

    ghost serves = { λ ward call pseudokey. (pseudokey ≡ ward.pseudokey) × (pseudokey ≡ F.hashing (key_of call)) };

    ghost walked = { λ _ _ _ _ _ _ _. ⊤ };

    fn pseudokey(&self, _call: &Call) -> u64 {
        self.pseudokey
    }

    // `Stray` for a key that the ward doesn't cover, which its lock can't tell.
    fn hop_hashed(
        &mut self,
        at: PageNo,
        client: u32,
        call: &Call,
        pseudokey: u64,
    ) -> Result<Hop, WardFault> {
        let mut ward = lock_soon(self.ward, self.rt);
        if !ward.covers(pseudokey) {
            return Ok(Hop::Stray);
        }
        ward.hop_counted(
            self.rt,
            self.tally,
            &mut self.answers,
            at,
            client,
            call,
            pseudokey,
        )
    }

    fn split(&mut self, at: PageNo) -> Result<Notice, WardFault> {
        lock_soon(self.ward, self.rt).split(at)
    }

    fn walks_are_walked<G: Gate>(&self, _gate: &G) {}
}
