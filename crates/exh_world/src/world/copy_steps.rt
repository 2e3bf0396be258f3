ghost use Rattle.exh_world.specs.Sound.{IsSoundWorld};
ghost use Rattle.exh_world.specs.Step.{Step};
ghost use Rattle.exh_walk.specs.declared.event.Event.TheVariants.{Deliver, Send, Combine, Restart};

use super::World;
use super::notice_of::notice_of;
use super::place::place_of;
use crate::laws::steps_keep_worlds_sound;
use exh_keyer::Keyer;
use exh_stores::Pages;
use exh_walk::{Outcome, StepFault};
use exh_ward::WardFault;

impl<P: Pages + Drop, K: Keyer> World<P, K> {
    /// A copy takes the notice that a ward issued under an index. Refused in this order: `NoCopy`,
    /// `NoWard`, `NoNotice`; at any point `StepFault::Ward(Memory)`. Then the world is as before.
    pub fn deliver(&mut self, copy: u32, ward: u32, index: u64) -> Result<Outcome, StepFault>
        ensures step { Step K.pseudokey_of self.old (Deliver copy ward index) result self.new }
        ensures sound { IsSoundWorld K.pseudokey_of self.new }
    {
        steps_keep_worlds_sound::<K>();
        let Some(at) = place_of(self.copies.count(), copy) else {
            return Err(StepFault::NoCopy);
        };
        let Some(teller) = self.wards.get(ward as usize) else {
            return Err(StepFault::NoWard);
        };
        let Some(notice) = notice_of(teller.notices_after(0), index) else {
            return Err(StepFault::NoNotice);
        };
        self.copies.take(at, &notice)?;
        Ok(Outcome::Taken(notice))
    }

    /// A copy's table is kept for good, under the next number. Refused: `NoCopy`; at any point
    /// `StepFault::Ward(Memory)`, also where 4,294,967,295 tables were sent. Then the world is as
    /// before.
    pub fn send(&mut self, copy: u32) -> Result<Outcome, StepFault>
        ensures step { Step K.pseudokey_of self.old (Send copy) result self.new }
        ensures sound { IsSoundWorld K.pseudokey_of self.new }
    {
        steps_keep_worlds_sound::<K>();
        let Some(at) = place_of(self.copies.count(), copy) else {
            return Err(StepFault::NoCopy);
        };
        let Ok(number) = u32::try_from(self.copies.sent_count() + 1) else {
            return Err(StepFault::Ward(WardFault::Memory));
        };
        self.copies.send(at)?;
        Ok(Outcome::Sent(number))
    }

    /// A copy joins the table that was sent under a number. Refused in this order: `NoCopy`,
    /// `NoTable`; at any point `StepFault::Ward(Memory)`. Then the world is as before.
    pub fn combine(&mut self, copy: u32, table: u32) -> Result<Outcome, StepFault>
        ensures step { Step K.pseudokey_of self.old (Combine copy table) result self.new }
        ensures sound { IsSoundWorld K.pseudokey_of self.new }
    {
        steps_keep_worlds_sound::<K>();
        let Some(at) = place_of(self.copies.count(), copy) else {
            return Err(StepFault::NoCopy);
        };
        let Some(other) = place_of(self.copies.sent_count(), table) else {
            return Err(StepFault::NoTable);
        };
        self.copies.combine(at, other)?;
        Ok(Outcome::Joined)
    }

    /// Restarts a copy: its table is the start table again. Refused: `NoCopy`; at any point
    /// `StepFault::Ward(Memory)`. Then the world is as before.
    pub fn restart(&mut self, copy: u32) -> Result<Outcome, StepFault>
        ensures step { Step K.pseudokey_of self.old (Restart copy) result self.new }
        ensures sound { IsSoundWorld K.pseudokey_of self.new }
    {
        steps_keep_worlds_sound::<K>();
        let Some(at) = place_of(self.copies.count(), copy) else {
            return Err(StepFault::NoCopy);
        };
        self.copies.restart(at)?;
        Ok(Outcome::Restarted)
    }
}
