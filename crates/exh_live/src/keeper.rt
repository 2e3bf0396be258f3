ghost use Rattle.std.specs.Prelude.{◌+◌, ◌^◌, ◌<◌, IfOk, IfErr};
ghost use Rattle.exh_live.specs.Refused.{IsSomeWardsFault};
ghost use Rattle.exh_ward.specs.declared.ward_fault.WardFault.TheVariants.{Page as OutOfReach};
ghost use Rattle.exh_live.specs.StormRounds.{AreKeeperRounds, IsKeeperFault};
ghost use Rattle.exh_live.specs.declared.keeper.TheConstants.{KEEPER_CLIENT};

use crate::{Identity, LiveFile, StormFault, Watch};
use exh_keyer::Keyer;
use exh_stores::Pages;
use exh_walk::Gate;
use std::sync::Wait;

/// As which client the keeper of ward 0 asks the gate; that of ward n asks n further on.
pub const KEEPER_CLIENT: u32 = 65_536;

/// A keeper of a storm, which merges the sparse pages of one ward.
#[derive(Clone, Copy)]
pub struct Keeper {
    pub ward: u8,
}

impl Keeper {
    /// Makes so many rounds over its ward, which is one of the file. Before each it asks the gate, as the
    /// client of its ward, at turns 1, 2, ..; after each it tells the watch its merges. Refused, with the
    /// merges made kept: `Held` where the gate says no; at any point `Memory`; and `Page`, where a store of the
    /// wards' kind has counted a failure. It may wait for other workers.
    pub fn run<R: Wait, P: Pages + Drop, K: Keyer, F: Identity, G: Gate, W: Watch>(
        self,
        rt: &R,
        file: &LiveFile<P, K, F>,
        rounds: u32,
        gate: &G,
        watch: &W,
    ) -> Result<(), StormFault>
        requires { self.ward < 2 ^ file.now.ward_bits }
        ensures rounds { IfOk result (λ _. AreKeeperRounds K.pseudokey_of self.ward (G.may gate.now (KEEPER_CLIENT + self.ward)) rounds) }
        ensures fault { IfErr result (IsKeeperFault (IsSomeWardsFault P.failures K.pseudokey_of OutOfReach) (G.may gate.now (KEEPER_CLIENT + self.ward)) rounds) }
    {
        for done in 0..rounds {
            if !gate.pass(KEEPER_CLIENT + u32::from(self.ward), done + 1) {
                return Err(StormFault::Held);
            }
            match file.keeper_round(rt, self.ward) {
                Ok(merges) => watch.merged(merges),
                Err(fault) => return Err(StormFault::of_round(fault)),
            }
        }
        Ok(())
    }
}
