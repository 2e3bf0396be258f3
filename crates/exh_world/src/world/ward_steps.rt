ghost use Rattle.exh_world.specs.Sound.{IsSoundWorld};
ghost use Rattle.exh_world.specs.Step.{Step};
ghost use Rattle.exh_walk.specs.declared.event.Event.TheVariants.{Merge, Split};

use super::World;
use crate::laws::steps_keep_worlds_sound;
use exh_keyer::Keyer;
use exh_prefix::PageNo;
use exh_stores::Pages;
use exh_walk::{Outcome, StepFault};

impl<P: Pages + Drop, K: Keyer> World<P, K> {
    /// Splits a page of a ward, and issues the notice (Fagin et al. 1979; the notice is exhash's
    /// own). Refused in this order: `NoWard`, then as the ward refuses: `NoPage`, `NotLive`,
    /// `NotFull`, `AtLimit`; at any point `StepFault::Ward(Memory)` and `StepFault::Ward(Page)`. Then
    /// the world is as before, but that at `Page` the ward has counted it.
    pub fn split(&mut self, ward: u32, page: PageNo) -> Result<Outcome, StepFault>
        ensures step { Step K.pseudokey_of self.old (Split ward page) result self.new }
        ensures sound { IsSoundWorld K.pseudokey_of self.new }
    {
        steps_keep_worlds_sound::<K>();
        let Some(found) = self.wards.get_mut(ward as usize) else {
            return Err(StepFault::NoWard);
        };
        let notice = found.split(page)?;
        Ok(Outcome::Changed(notice))
    }

    /// Merges a live page of a ward with its right buddy, and issues the notice (Fagin et al. 1979;
    /// the notice is exhash's own). Refused in this order: `NoWard`, then as the ward refuses:
    /// `NoPage`, `NotLive`, `NoBuddy`, `BuddySplit`, `TooMany`, `Worn`; at any point
    /// `StepFault::Ward(Memory)` and `StepFault::Ward(Page)`. Then the world is as before, but that at
    /// `Page` the ward has counted it.
    pub fn merge(&mut self, ward: u32, page: PageNo) -> Result<Outcome, StepFault>
        ensures step { Step K.pseudokey_of self.old (Merge ward page) result self.new }
        ensures sound { IsSoundWorld K.pseudokey_of self.new }
    {
        steps_keep_worlds_sound::<K>();
        let Some(found) = self.wards.get_mut(ward as usize) else {
            return Err(StepFault::NoWard);
        };
        let notice = found.merge(page)?;
        Ok(Outcome::Changed(notice))
    }
}
