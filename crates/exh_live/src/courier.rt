ghost use Rattle.std.specs.Prelude.{◌≡◌, ◌+◌, ◌≤◌, ◌^◌, ℕ, List, IfOk, IfErr};
ghost use Rattle.std.specs.FinMap as map;
ghost use Rattle.exh_prefix.specs.declared.prefix.TheConstants.{WARD_BITS_LIMIT};
ghost use Rattle.exh_live.specs.Rounds.{AreFirstCursors};
ghost use Rattle.exh_live.specs.StormRounds.{AreCourierRounds, IsCourierFault};
ghost use Rattle.exh_live.specs.declared.courier.TheConstants.{COURIER_CLIENT};

use crate::{Cursors, Identity, LiveFile, OpenCopy, StormFault, Watch};
use exh_copy::Start;
use exh_keyer::Keyer;
use exh_stores::Pages;
use exh_table::Table;
use exh_walk::Gate;
use std::alloc::Global;
use std::sync::Wait;

/// As which client the courier to a copy asks the gate: this and the copy's number, from 1 on.
pub const COURIER_CLIENT: u32 = 65_600;

/// A courier of a storm, which carries the notices of all wards to one copy of the directory, by the
/// copy's number. The copy is that of a new file.
#[derive(Drop)]
pub struct Courier<'a, R: Wait, S: Start> {
    pub number: u8,
    pub copy: OpenCopy<'a, R, S>,
}

impl<R: Wait, S: Start> Courier<'_, R, S> {
    /// Makes so many rounds to its copy, from a new file's cursors on. The file has 2^`ward_bits` wards.
    /// Before each round it asks the gate, as the client of its copy, at turns 1, 2, ..; after each it
    /// tells the watch how many notices it carried. Refused: `Held` where the gate says no, `Memory`. It
    /// may wait for other workers.
    pub fn run<P: Pages + Drop, K: Keyer, F: Identity, G: Gate, W: Watch>(
        &mut self,
        alloc: Global,
        file: &LiveFile<P, K, F>,
        ward_bits: u8,
        rounds: u32,
        gate: &G,
        watch: &W,
    ) -> Result<(), StormFault>
        requires limit { ward_bits ≤ WARD_BITS_LIMIT }
        requires bits { ward_bits ≡ file.now.ward_bits }
        ensures number { self.new.number ≡ self.old.number }
        ensures name { self.new.copy.writer.name ≡ self.old.copy.writer.name }
        ensures rounds { IfOk result (λ _. (cursors lasts : List ℕ) × AreFirstCursors ward_bits map.empty cursors × AreCourierRounds K.pseudokey_of (G.may gate.now (COURIER_CLIENT + self.old.number)) rounds self.old.copy.writer cursors self.new.copy.writer lasts) }
        ensures fault { IfErr result (IsCourierFault (G.may gate.now (COURIER_CLIENT + self.old.number)) rounds) }
    {
        let mut cursors = Cursors::new(alloc, ward_bits, &Table::new(alloc))?;
        for done in 0..rounds {
            if !gate.pass(COURIER_CLIENT + u32::from(self.number), done + 1) {
                return Err(StormFault::Held);
            }
            let notices = file.courier_round(self.copy.rt, &mut self.copy.writer, &mut cursors)?;
            watch.carried(notices);
        }
        Ok(())
    }
}
