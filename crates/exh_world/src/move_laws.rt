//! How many moves requests make. Each function does nothing.

ghost use Rattle.exh_world.specs.Begun.{RequestsBeginNear};
ghost use Rattle.exh_world.specs.Counted.{AnswersAreCounted, RequestsGoOn, StepsCountMoves};
ghost use Rattle.exh_world.specs.Current.{CurrentCopiesBeginHome, CurrentCopiesLookOnce};
ghost use Rattle.exh_world.specs.RequestMoves.{AnswersAreBounded};
ghost use Rattle.exh_world.specs.Parts.{RunsCountMoves, RunsHaveCurrentCopies};
ghost use Rattle.exh_world.specs.Taken.{TakersAreCurrent, TakersBeginHome, TakersLookOnce};

use crate::laws::{runs_carry_the_headline, steps_keep_worlds_sound};
use exh_keyer::Keyer;
use exh_walk::{
    distances_are_few, late_tables_are_near, moves_come_nearer, one_distance,
    runs_keep_wards_sound_and_one_map, steps_add_changes, whole_tables_name_homes,
};

/// Over every list of requests, hops, splits, merges, restarts and deliveries: a request keeps at
/// begin the distance of its page, an answer tells the moves that its request made, and they are at
/// most that distance and the changes in its ward since; the same counted from any world on.
pub fn moves_are_counted<K: Keyer>()
    ensures near { RequestsBeginNear K.pseudokey_of }
    ensures bounded { AnswersAreBounded K.pseudokey_of }
    ensures go_on { RequestsGoOn K.pseudokey_of }
    ensures answers { AnswersAreCounted K.pseudokey_of }
    ensures steps { StepsCountMoves K.pseudokey_of }
    ensures runs { RunsCountMoves K.pseudokey_of }
{
    steps_keep_worlds_sound::<K>();
    runs_keep_wards_sound_and_one_map::<K>();
    moves_come_nearer();
    steps_add_changes::<K>();
    distances_are_few();
    late_tables_are_near();
    one_distance();
}

/// A request begun at a copy that is current in its ward, as one is that took all of the ward's
/// changes, is at the distance 0, and doesn't move before the ward changes: its first hop answers, or
/// says that the page must split (the two accesses of Fagin et al. 1979, one of the directory and one
/// of a page).
pub fn current_copies_look_once<K: Keyer>()
    ensures current { CurrentCopiesLookOnce K.pseudokey_of }
    ensures current_begin { CurrentCopiesBeginHome K.pseudokey_of }
    ensures takers { TakersAreCurrent K.pseudokey_of }
    ensures takers_begin { TakersBeginHome K.pseudokey_of }
    ensures once { TakersLookOnce K.pseudokey_of }
    ensures runs { RunsHaveCurrentCopies K.pseudokey_of }
{
    moves_are_counted::<K>();
    steps_keep_worlds_sound::<K>();
    runs_keep_wards_sound_and_one_map::<K>();
    runs_carry_the_headline::<K>();
    moves_come_nearer();
    whole_tables_name_homes();
    one_distance();
}
