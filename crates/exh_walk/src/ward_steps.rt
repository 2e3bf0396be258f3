ghost use Rattle.std.specs.Prelude.{◌≡◌};
ghost use Rattle.exh_prefix.specs.Prefix.{Begins};
ghost use Rattle.exh_calls.specs.Call.{key_of};
ghost use Rattle.exh_walk.specs.WardStep.{IsWardStep};
ghost use Rattle.exh_walk.specs.WardWalk.{IsWalkOfWard};
ghost use Rattle.exh_ward.specs.WardState.{own_prefix};

use crate::{Gate, Steps, gets_go_home, one_distance};
use exh_calls::Call;
use exh_keyer::Keyer;
use exh_notice::Notice;
use exh_prefix::PageNo;
use exh_ward::{Hop, Pages, Ward, WardFault, one_hop};

/// A ward by itself: nothing steps between. An answer of a walk adds one entry to the journal, the
/// caller's call with the reply, and else there are only splits; a refusal adds none. A call that gives
/// no new key, begun at a page whose low bound isn't beyond its pseudokey, is held only where the gate
/// may say no at one of the turns from 1 to the distance and one, and answered only where it may say yes
/// at each of them.
impl<P: Pages + Drop, K: Keyer> Steps for Ward<P, K> {
    ghost step = { IsWardStep K.pseudokey_of };

    ghost serves = { λ ward call pseudokey. (pseudokey ≡ K.pseudokey_of ward.keyer (key_of call)) × Begins (own_prefix ward) pseudokey };

    ghost walked = { IsWalkOfWard K.pseudokey_of };

    fn pseudokey(&self, call: &Call) -> u64 {
        Ward::pseudokey(self, call.key())
    }

    fn hop_hashed(
        &mut self,
        at: PageNo,
        client: u32,
        call: &Call,
        pseudokey: u64,
    ) -> Result<Hop, WardFault> {
        Ward::hop_hashed(self, at, client, call, pseudokey)
    }

    fn split(&mut self, at: PageNo) -> Result<Notice, WardFault> {
        Ward::split(self, at)
    }

    fn walks_are_walked<G: Gate>(&self, _gate: &G) {
        gets_go_home();
        one_distance();
        one_hop();
        // By whose contract the ward is sound.
        self.journal();
    }
}
