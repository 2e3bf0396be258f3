ghost use Rattle.std.specs.Prelude.{◌≡◌, [], IfOk, IfErr};
ghost use Rattle.exh_live.specs.Refused.{IsSomeWardsFault};
ghost use Rattle.exh_ward.specs.declared.ward_fault.WardFault.TheVariants.{Page as OutOfReach};
ghost use Rattle.exh_live.specs.StormCalls.{IsServed};
ghost use Rattle.exh_live.specs.StormRounds.{IsCallerFault};

use crate::{Identity, LiveFile, Seat, StormFault, Watch, storm_call};
use exh_copy::{CopyReader, Start};
use exh_keyer::Keyer;
use exh_stores::Pages;
use exh_walk::Gate;
use std::sync::Wait;

/// A caller of a storm: its seat, which was answered nothing, and the copy of the directory that it
/// looks at.
#[derive(Drop)]
pub struct Caller<F: Identity, S: Start> {
    pub seat: Seat<F>,
    pub copy: CopyReader<S>,
    ghost fresh: { seat.entries ≡ [] },
}

impl<F: Identity, S: Start> Caller<F, S> {
    /// Makes the caller's first so many calls, one after the other, and gives its seat back. The file is
    /// that of the seat, and the watch is told of each answer. It ends with the first call that is
    /// refused, as `ask` may be: `Held`, `Memory`, and `Page`, where a store of the wards' kind has counted a failure.
    /// It may wait for other workers.
    pub fn run<R: Wait, P: Pages + Drop, K: Keyer, G: Gate, W: Watch>(
        self,
        rt: &R,
        file: &LiveFile<P, K, F>,
        calls: u32,
        gate: &G,
        watch: &W,
    ) -> Result<Seat<F>, StormFault>
        ensures served { IfOk result (IsServed calls) }
        ensures client { IfOk result (λ seat. seat.client ≡ self.seat.client) }
        ensures fault { IfErr result (IsCallerFault (IsSomeWardsFault P.failures K.pseudokey_of OutOfReach) K.pseudokey_of F.hashing S.table S.ward_bits (G.may gate.now self.seat.client) self.seat.client calls) }
    {
        let Caller { mut seat, mut copy } = self;
        let client = seat.diary().client();
        for done in 0..calls {
            let call = storm_call(client, done + 1);
            file.ask(rt, &mut seat, &mut copy, &call, gate)?;
            watch.answered();
        }
        Ok(seat)
    }
}
