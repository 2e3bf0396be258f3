ghost use Rattle.exh_world.specs.Sound.{IsSoundWorld};
ghost use Rattle.exh_world.specs.Step.{Step};
ghost use Rattle.exh_walk.specs.declared.event.Event.TheVariants.{Begin, Hop as HopOn};

use super::World;
use super::changes::changes_since;
use super::place::place_of;
use crate::Request;
use crate::laws::steps_keep_worlds_sound;
use exh_calls::Call;
use exh_keyer::Keyer;
use exh_prefix::ward_number;
use exh_stores::Pages;
use exh_walk::{Outcome, StepFault, moves_come_nearer};

impl<P: Pages + Drop, K: Keyer> World<P, K> {
    /// Begins a request of a name that no request in flight has: it stands at the page that the
    /// copy's table names for the call's key (Fagin et al. 1979). It reads the pages on the way from
    /// there to the answer, whose distance it keeps. Refused in this order: `NameTaken`, `NoCopy`; at
    /// any point `StepFault::Ward(Memory)` or `StepFault::Ward(Page)`. Then the world is as before, but
    /// that at `Page` the ward has counted it.
    pub fn begin(
        &mut self,
        name: u32,
        client: u32,
        copy: u32,
        call: &Call,
    ) -> Result<Outcome, StepFault>
        ensures step { Step K.pseudokey_of self.old (Begin name client copy call.now) result self.new }
        ensures sound { IsSoundWorld K.pseudokey_of self.new }
    {
        if self.in_flight.get(name).is_some() {
            return Err(StepFault::NameTaken);
        }
        let Some(at) = place_of(self.copies.count(), copy) else {
            return Err(StepFault::NoCopy);
        };
        let pseudokey = self.keyer.pseudo(call.key().as_bytes());
        let ward = ward_number(self.ward_bits, pseudokey);
        let page = self.copies.copy(at).walk(pseudokey);
        let state = &mut self.wards[usize::from(ward)];
        let distance = state.distance(page, pseudokey)?;
        let changes = changes_since(state, self.noticed[usize::from(ward)]);
        let request = Request {
            client,
            call: *call,
            pseudokey,
            ward,
            page,
            distance,
            moves: 0,
            changes,
        };
        self.in_flight.begin(name, request)?;
        Ok(Outcome::Begun { ward, page })
    }

    /// One hop of a request: what it comes to is the hop table's. An answered request
    /// is no longer in flight, and a moved one stands at the page that it was led to, after one move more.
    /// An answer comes with the request's moves and their bound. Refused:
    /// `NoRequest`; at any point `StepFault::Ward(Memory)` or `StepFault::Ward(Page)`. Then the world
    /// is as before, but that at `Page` the ward has counted it.
    pub fn hop(&mut self, name: u32) -> Result<Outcome, StepFault>
        ensures step { Step K.pseudokey_of self.old (HopOn name) result self.new }
        ensures sound { IsSoundWorld K.pseudokey_of self.new }
    {
        steps_keep_worlds_sound::<K>();
        moves_come_nearer();
        let Some(request) = self.in_flight.get(name) else {
            return Err(StepFault::NoRequest);
        };
        let (number, moves) = (request.ward, request.moves);
        let ward = &mut self.wards[usize::from(number)];
        let changes = changes_since(ward, self.noticed[usize::from(number)]);
        let bound = u64::from(request.distance) + (changes - request.changes);
        let hop = ward.hop_hashed(
            request.page,
            request.client,
            &request.call,
            request.pseudokey,
        )?;
        self.in_flight.note_hop(name, &hop);
        Ok(Outcome::of_hop(number, &hop, moves, bound))
    }
}
