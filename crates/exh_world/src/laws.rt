//! What holds of every step and every run of a world. Each function does nothing.

ghost use Rattle.exh_world.specs.Alike.{RefusedTurnsLeaveTheOthers, StepFunctionGoesAlike, StepsGoAlike};
ghost use Rattle.exh_world.specs.WorldLaws.{NewWorldsAreSound, PageFaultsAreCounted, RunsCarryTheHeadline, StepsAreComputed, StepsHaveOutcomes, StepsKeepWorldsSound, WorldsOfWardsAreSound};

use exh_calls::sharers_begin;
use exh_keyer::Keyer;
use exh_legal::{lone_pages_are_legal, right_links_lead_on, targets_lead_on, walks_name_homes};
use exh_table::{
    members_decide, one_notice_more_is_taken, own_entries_give_the_table, union_is_join,
};
use exh_walk::{distances_are_computed, gets_go_home, moves_come_nearer, steps_add_changes};
use exh_ward::{
    answers_keep_legal, hops_are_computed, hops_have_outcomes, merges_are_computed,
    merges_have_outcomes, splits_are_computed, splits_have_outcomes,
};

/// A step leaves a sound world sound, as far as the ward that it changes is.
pub fn steps_keep_worlds_sound<K: Keyer>()
    ensures { StepsKeepWorldsSound K.pseudokey_of }
{
    right_links_lead_on();
    targets_lead_on();
    moves_come_nearer();
    steps_add_changes::<K>();
}

/// A step answers that a page is out of reach only where the ward that its event reaches into counts it;
/// only hops, splits and merges reach into one. No other step changes a ward's count.
pub fn page_faults_are_counted<K: Keyer>()
    ensures { PageFaultsAreCounted K.pseudokey_of }
{}

/// A step of a sound world, as a function, gives what it is as a relation, unless it is refused for want
/// of memory, or of a page, which its ward has counted.
pub fn steps_are_computed<K: Keyer>()
    ensures { StepsAreComputed K.pseudokey_of }
{
    hops_are_computed();
    splits_are_computed::<K>();
    merges_are_computed::<K>();
    distances_are_computed();
}

/// An event of a sound world comes to what the function gives.
pub fn steps_have_outcomes<K: Keyer>()
    ensures { StepsHaveOutcomes K.pseudokey_of }
{
    hops_have_outcomes();
    answers_keep_legal();
    splits_have_outcomes::<K>();
    merges_have_outcomes::<K>();
    distances_are_computed();
    gets_go_home();
}

/// Over every list of requests, hops, splits, merges, restarts and deliveries, late, lost or repeated,
/// copies that took the same notices are equal, and combining two is their least upper bound; a
/// request begun at any copy is answered only at the page that the current directory names (Fagin et
/// al. 1979); and the replies, in the order of the answering hops, are one map's.
pub fn runs_carry_the_headline<K: Keyer>()
    ensures { RunsCarryTheHeadline K.pseudokey_of }
{
    steps_keep_worlds_sound::<K>();
    own_entries_give_the_table();
    one_notice_more_is_taken();
    union_is_join();
    members_decide();
    sharers_begin();
}

/// The world of a new file is sound.
pub fn new_worlds_are_sound<K: Keyer>()
    ensures { NewWorldsAreSound K.pseudokey_of }
{
    lone_pages_are_legal();
}

/// The world of sound wards, one for each number, is sound.
pub fn worlds_of_wards_are_sound<K: Keyer>()
    ensures { WorldsOfWardsAreSound K.pseudokey_of }
{
    walks_name_homes();
}

/// A step of a world is one of each world that is equal to it but for the wards' counts of page faults,
/// as a relation and as a function, and leaves worlds that are equal but for these.
pub fn steps_go_alike<K: Keyer>()
    ensures steps { StepsGoAlike K.pseudokey_of }
    ensures function { StepFunctionGoesAlike K.pseudokey_of }
{}

/// Of every run, without any of the turns that were refused, as for want of memory or by a page fault,
/// the others are a run, between worlds that are equal but for the wards' counts of page faults.
pub fn refused_turns_leave_the_others<K: Keyer>()
    ensures { RefusedTurnsLeaveTheOthers K.pseudokey_of }
{
    steps_go_alike::<K>();
}
