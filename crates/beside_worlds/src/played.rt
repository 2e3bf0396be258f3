//! Lists of events that were played, at once or one by one.

use crate::alike::are_alike;
use crate::lists::List;
use exh_fixtures::{Difference, Part, again, same};
use exh_frames::{Pages, PlainPages};
use exh_keyer::AnyKeyer;
use exh_page::Config;
use exh_ward::{Ward, WardFault};
use exh_world::{Event, StepFault, Turn, World};
use std::alloc::{AllocError, Global};

/// The refusal of a growth.
pub(crate) const OUT_OF_MEMORY: StepFault = StepFault::Ward(WardFault::Memory);

/// The refusal of a page that is out of reach.
pub(crate) const OUT_OF_REACH: StepFault = StepFault::Ward(WardFault::Page);

/// A file of one ward, of pages of two records, with two copies.
pub(crate) const CONFIG: Config<AnyKeyer> = Config {
    cap: 2,
    ward_bits: 0,
    copies: 2,
    keyer: AnyKeyer::Plain,
};

/// What each event came to, and the wards that they left.
#[derive(Drop)]
pub(crate) struct Played<P: Pages + Drop> {
    pub(crate) turns: Vec<Turn>,
    pub(crate) wards: Vec<Ward<P, AnyKeyer>>,
}

impl<P: Pages + Drop> Played<P> {
    /// The first turn of this refusal.
    pub(crate) fn refused_at(&self, fault: StepFault) -> Option<usize> {
        self.turns.iter().position(|turn| turn.result == Err(fault))
    }

    /// An `AllocError` where a growth was refused in a turn.
    pub(crate) fn is_with_memory(&self) -> Result<(), AllocError> {
        match self.refused_at(OUT_OF_MEMORY) {
            Some(_) => Err(AllocError),
            None => Ok(()),
        }
    }

    /// Whether the turns are these.
    pub(crate) fn has_turns(&self, turns: &[Turn]) -> bool {
        self.turns
            .iter()
            .map(|turn| turn.result)
            .eq(turns.iter().map(|turn| turn.result))
    }

    /// The wards are as those that others left.
    pub(crate) fn leaves_as<Q: Pages + Drop>(
        &mut self,
        other: &mut Played<Q>,
    ) -> Result<(), Difference> {
        for (ward, its_ward) in self.wards.iter_mut().zip(other.wards.iter_mut()) {
            are_alike(ward, its_ward)?;
        }
        same(self.wards.len() == other.wards.len(), Part::Healed)
    }

    /// The turns but the one at a place, and the wards, are those of the list without its event.
    pub(crate) fn is_without(&mut self, alloc: Global, place: usize) -> Result<(), Difference> {
        let mut rest = self.turns.clone()?;
        if place >= rest.len() {
            return Err(Difference::Apart(Part::Run));
        }
        rest.remove(place);
        let mut others = play(new_world(alloc)?, &events_of(alloc, &rest)?)?;
        others.is_with_memory()?;
        same(others.has_turns(&rest), Part::Outcome)?;
        self.leaves_as(&mut others)
    }
}

/// The turns that a list's rows tell.
pub(crate) fn turns_of(alloc: Global, list: List) -> Result<Vec<Turn>, Difference> {
    let mut turns = Vec::new(alloc);
    let [common, own] = list.rows;
    for row in common.iter().chain(own) {
        row.push_turn(&mut turns)?;
    }
    Ok(turns)
}

/// The events of turns.
pub(crate) fn events_of(alloc: Global, turns: &[Turn]) -> Result<Vec<Event>, AllocError> {
    let mut events = Vec::new(alloc);
    for turn in turns {
        events.reserve(1)?;
        events.push_reserved(turn.event);
    }
    Ok(events)
}

/// The world of a new file, in memory.
pub(crate) fn new_world(alloc: Global) -> Result<World<PlainPages, AnyKeyer>, AllocError> {
    World::new(alloc, CONFIG)
}

/// Has a world do what events ask, at once. A list that was refused in whole has done nothing, and is played once more.
pub(crate) fn play<P: Pages + Drop>(
    world: World<P, AnyKeyer>,
    events: &[Event],
) -> Result<Played<P>, AllocError> {
    let mut world = world;
    match again!(Err(AllocError) => world.run(events)) {
        Ok(turns) => Ok(Played {
            turns,
            wards: world.into_wards(),
        }),
        Err(error) => Err(error),
    }
}
