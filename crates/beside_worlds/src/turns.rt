//! Lists of events that a world does at once. Where a growth is refused in one of them, its turn says so, and the others
//! and what they leave are those of the list without it; standard error says in which list that was.

use crate::lists::{LISTS, List};
use crate::played::{OUT_OF_MEMORY, Played, events_of, new_world, play, turns_of};
use exh_fixtures::{Difference, Part, Run, same};
use exh_frames::PlainPages;
use exh_world::Turn;

/// Plays each list.
pub(crate) fn run<R: Eprint>(rt: &R, run: &mut Run) -> Result<(), Difference> {
    for list in LISTS {
        if is_refused_in(run, list)? {
            // Where the line can't be written, a case that waits for it fails.
            let _ = eprintln!(rt; "turns: refused 10 in {}", list.name);
        }
    }
    Ok(())
}

// Plays a list. Whether a growth was refused in an event of it.
fn is_refused_in(run: &mut Run, list: List) -> Result<bool, Difference> {
    let turns = turns_of(run.alloc, list)?;
    let events = events_of(run.alloc, &turns)?;
    let mut played = play(new_world(run.alloc)?, &events)?;
    compare(run, &mut played, &turns)?;
    Ok(played.refused_at(OUT_OF_MEMORY).is_some())
}

fn compare(
    run: &mut Run,
    played: &mut Played<PlainPages>,
    turns: &[Turn],
) -> Result<(), Difference> {
    same(played.turns.len() == turns.len(), Part::Run)?;
    let refused = played.refused_at(OUT_OF_MEMORY);
    let others = match refused {
        Some(place) => played.is_without(run.alloc, place),
        None => Ok(()),
    };
    for (turn, want) in played.turns.iter().zip(turns) {
        let is_right = refused.is_some() || turn.result == want.result;
        let outcome = same(is_right != run.lie.is_due(), Part::Outcome);
        run.tally.step(outcome.and(others));
    }
    Ok(())
}
