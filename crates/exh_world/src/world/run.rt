ghost use Rattle.std.specs.Prelude.{◌≡◌, map, IfOk, OnErr};
ghost use Rattle.exh_world.specs.Alike.{HasOthers};
ghost use Rattle.exh_world.specs.Counted.{CountsMoves};
ghost use Rattle.exh_world.specs.Headline.{AreEqualCopies, IsHeadline};
ghost use Rattle.exh_world.specs.RequestMoves.{HasBoundedAnswers};
ghost use Rattle.exh_world.specs.Parts.{HasCountedMoves, HasCurrentCopies};
ghost use Rattle.exh_world.specs.Sound.{IsSoundWorld};
ghost use Rattle.exh_world.specs.Step.{Step};

use super::World;
use crate::laws::{refused_turns_leave_the_others, runs_carry_the_headline};
use crate::move_laws::{current_copies_look_once, moves_are_counted};
use exh_keyer::Keyer;
use exh_stores::Pages;
use exh_walk::{Event, Outcome, StepFault, Turn};
use std::alloc::AllocError;

impl<P: Pages + Drop, K: Keyer> World<P, K> {
    /// Does what an event asks, as the event's own method says. Where that refuses it, the world is
    /// as before, but that a ward whose page was out of reach has counted that.
    pub fn step(&mut self, event: &Event) -> Result<Outcome, StepFault>
        ensures step { Step K.pseudokey_of self.old event.now result self.new }
        ensures moves { CountsMoves self.old event.now result self.new }
        ensures sound { IsSoundWorld K.pseudokey_of self.new }
    {
        moves_are_counted::<K>();
        let _ = &self.alloc;
        match event {
            Event::Begin {
                name,
                client,
                copy,
                call,
            } => self.begin(*name, *client, *copy, call),
            Event::Hop { name } => self.hop(*name),
            Event::Split { ward, page } => self.split(*ward, *page),
            Event::Merge { ward, page } => self.merge(*ward, *page),
            Event::Deliver { copy, ward, index } => self.deliver(*copy, *ward, *index),
            Event::Send { copy } => self.send(*copy),
            Event::Combine { copy, table } => self.combine(*copy, *table),
            Event::Restart { copy } => self.restart(*copy),
        }
    }

    /// Does what a list of events asks, one turn an event; a refused event is a turn with its
    /// refusal. Over every list of requests, hops, splits, merges, restarts and deliveries, late,
    /// lost or repeated, copies that took the same notices are equal, and combining two is their
    /// least upper bound; a request begun at any copy is answered only at the page that the current
    /// directory names (Fagin et al. 1979); and the replies, in the order of the answering hops, are
    /// one map's. Each answer comes with the moves that its request made, at most its distance when
    /// begun and the changes in its ward since; so from any moment on; and one begun at a copy that
    /// took all changes of its ward doesn't move before the next. Without any of the refused turns the
    /// others are a run, too. Room for all answers is made first: an `AllocError` where memory for it
    /// is refused, and then nothing has happened.
    pub fn run(&mut self, events: &[Event]) -> Result<Vec<Turn>, AllocError>
        ensures turns { IfOk result (λ turns. map (λ turn. turn.event) turns.items ≡ events.now) }
        ensures headline { IfOk result (λ turns. IsHeadline K.pseudokey_of self.old turns.items self.new) }
        ensures bounded { IfOk result (λ turns. HasBoundedAnswers K.pseudokey_of self.old turns.items self.new) }
        ensures moves { IfOk result (λ turns. HasCountedMoves K.pseudokey_of self.old turns.items self.new) }
        ensures current { IfOk result (λ turns. HasCurrentCopies K.pseudokey_of self.old turns.items self.new) }
        ensures others { IfOk result (λ turns. HasOthers K.pseudokey_of self.old turns.items self.new) }
        ensures equal { IfOk result (λ turns. AreEqualCopies self.old turns.items self.new) }
        ensures err { OnErr result (self.new ≡ self.old) }
        ensures sound { IsSoundWorld K.pseudokey_of self.new }
    {
        runs_carry_the_headline::<K>();
        moves_are_counted::<K>();
        current_copies_look_once::<K>();
        refused_turns_leave_the_others::<K>();
        let mut turns: Vec<Turn> = Vec::with_capacity(self.alloc, events.len())?;
        for event in events {
            let result = self.step(event);
            turns.push_reserved(Turn {
                event: *event,
                result,
            });
        }
        Ok(turns)
    }
}
