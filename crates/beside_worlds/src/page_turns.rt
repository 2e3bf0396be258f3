//! Lists of events that a world does, over a store of which one call fails, the first, the second, and so on, up to one
//! that isn't made. The refused turn changes nothing: at once, the other turns and what they leave are those of the list
//! without its event; one by one, the event is asked once more, and all is as without the refusal.

use crate::failing_maker::FailingMaker;
use crate::listed_pages::{ListedMaker, ListedPages};
use crate::lists::{LISTS, List};
use crate::played::{CONFIG, OUT_OF_REACH, Played, events_of, new_world, play, turns_of};
use exh_fixtures::{Difference, Part, Run, again, same};
use exh_frames::{
    CACHE_SIZE_LIMIT, CacheFault, FailingPages, FramedMaker, FramedPages, Pages, PlainMaker,
    PlainPages, StoreMaker,
};
use exh_keyer::AnyKeyer;
use exh_ward::WardFault;
use exh_world::{StepFault, Turn, World};
use std::alloc::{AllocError, Global};

// More calls than a list makes.
const MOST: u64 = 1000;

// How many decoded pages there are beside images: of the pages of a list one, and all.
const CACHE_SIZES: [usize; 2] = [1, CACHE_SIZE_LIMIT];

/// Plays each list over pages in memory.
pub(crate) fn run(run: &mut Run) -> Result<(), Difference> {
    run_over::<PlainPages, PlainMaker>(run, PlainMaker)
}

/// Plays each list over a store that writes only what `Pages` has no body for.
pub(crate) fn run_over_lists(run: &mut Run) -> Result<(), Difference> {
    run_over::<ListedPages, ListedMaker>(run, ListedMaker)
}

/// Plays each list over pages that stand as images.
pub(crate) fn run_over_images(run: &mut Run) -> Result<(), Difference> {
    for size in CACHE_SIZES {
        let maker = FramedMaker::new(size).map_err(not_made)?;
        run_over::<FramedPages<AnyKeyer>, FramedMaker>(run, maker)?;
    }
    Ok(())
}

fn not_made(fault: CacheFault) -> Difference {
    Difference::Refused(fault.number())
}

fn run_over<P: Pages + Drop, M: StoreMaker<P, AnyKeyer> + Copy>(
    run: &mut Run,
    maker: M,
) -> Result<(), Difference> {
    for list in LISTS {
        take_list::<P, M>(run, maker, list)?;
    }
    Ok(())
}

// Each event is refused at least as often as it must reach a page, and those that reach none never.
fn take_list<P: Pages + Drop, M: StoreMaker<P, AnyKeyer> + Copy>(
    run: &mut Run,
    maker: M,
    list: List,
) -> Result<(), Difference> {
    let turns = turns_of(run.alloc, list)?;
    let mut refusals = Vec::new(run.alloc);
    refusals.resize(turns.len(), 0)?;
    let count = refuse_each_call::<P, M>(run.alloc, maker, &turns, &mut refusals)?;
    run.tally.check(same(count >= list.least, Part::Fault));
    let [common, own] = list.rows;
    for (row, times) in common.iter().chain(own).zip(&refusals) {
        let least = row.least_calls();
        let is_met = if least == 0 {
            *times == 0
        } else {
            *times >= least
        };
        run.tally
            .step(same(is_met != run.lie.is_due(), Part::Fault));
    }
    Ok(())
}

// Counts how often each event was refused. Answers how many calls there are.
fn refuse_each_call<P: Pages + Drop, M: StoreMaker<P, AnyKeyer> + Copy>(
    alloc: Global,
    inner: M,
    turns: &[Turn],
    refusals: &mut [u32],
) -> Result<u64, Difference> {
    let mut unhurt = play(new_world(alloc)?, &events_of(alloc, turns)?)?;
    is_as_wanted(&unhurt, turns)?;
    for at in 1..MOST {
        let maker = FailingMaker { inner, at };
        let met = refuse_call::<FailingPages<P>, FailingMaker<M>>(
            alloc,
            &maker,
            turns,
            &mut unhurt,
        )?;
        match met {
            Some(place) => count_at(refusals, place),
            None => return Ok(at - 1),
        }
    }
    Err(Difference::Apart(Part::Healed))
}

fn count_at(refusals: &mut [u32], place: usize) {
    if let Some(count) = refusals.get_mut(place) {
        *count = count.saturating_add(1);
    }
}

// The place of the event in which the call of this number is refused, if there is such a call.
fn refuse_call<P: Pages + Drop, M: StoreMaker<P, AnyKeyer>>(
    alloc: Global,
    maker: &M,
    turns: &[Turn],
    unhurt: &mut Played<PlainPages>,
) -> Result<Option<usize>, Difference> {
    let mut played = play::<P>(new_over::<P, M>(alloc, maker)?, &events_of(alloc, turns)?)?;
    played.is_with_memory()?;
    let Some(place) = played.refused_at(OUT_OF_REACH) else {
        is_as_wanted(&played, turns)?;
        return Ok(None);
    };
    played.is_without(alloc, place)?;
    let mut again = play_each::<P>(new_over::<P, M>(alloc, maker)?, alloc, turns)?;
    is_as_wanted(&again, turns)?;
    again.leaves_as(unhurt)?;
    Ok(Some(place))
}

fn is_as_wanted<P: Pages + Drop>(played: &Played<P>, turns: &[Turn]) -> Result<(), Difference> {
    played.is_with_memory()?;
    same(played.has_turns(turns), Part::Outcome)
}

fn new_over<P: Pages + Drop, M: StoreMaker<P, AnyKeyer>>(
    alloc: Global,
    maker: &M,
) -> Result<World<P, AnyKeyer>, AllocError> {
    World::new_over(alloc, maker, CONFIG)
}

// Has a world do what each event asks, once more where a page was out of reach.
fn play_each<P: Pages + Drop>(
    world: World<P, AnyKeyer>,
    alloc: Global,
    turns: &[Turn],
) -> Result<Played<P>, AllocError> {
    let mut world = world;
    match take_each(&mut world, alloc, turns) {
        Ok(turns) => Ok(Played {
            turns,
            wards: world.into_wards(),
        }),
        Err(error) => Err(error),
    }
}

fn take_each<P: Pages + Drop>(
    world: &mut World<P, AnyKeyer>,
    alloc: Global,
    turns: &[Turn],
) -> Result<Vec<Turn>, AllocError> {
    let mut taken = Vec::new(alloc);
    for turn in turns {
        taken.reserve(1)?;
        let event = turn.event;
        let result = again!(Err(StepFault::Ward(WardFault::Page)) => world.step(&event));
        taken.push_reserved(Turn { event, result });
    }
    Ok(taken)
}
