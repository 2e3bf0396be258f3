//! What the headline of a run says, each part in other words. Each function does nothing.

ghost use Rattle.exh_world.specs.HeadlineLaws.{AnswersComeFromTheOneLeaf, CombinesJoin, CopiesTakeNotices, HopsLeadOn, OnlyAnswersChangeTheMap, RepliesFollowTheAnswersBefore, RunsGoStepByStep, SameNoticesSameTables};

use exh_keyer::Keyer;
use exh_table::{members_decide, one_notice_more_is_taken, own_entries_give_the_table};

/// A run goes from its start to its end by one step a turn: of two neighbouring worlds the second is a
/// step from the first.
pub fn runs_go_step_by_step<K: Keyer>()
    ensures { RunsGoStepByStep K.pseudokey_of }
{}

/// A copy's table is the one that it had at the start, or the start table where it restarted, with each
/// notice that it took since; so the table of a copy that took none is that one.
pub fn copies_take_notices<K: Keyer>()
    ensures { CopiesTakeNotices K.pseudokey_of }
{
    own_entries_give_the_table();
    one_notice_more_is_taken();
    members_decide();
}

/// Two copies that took the same notices, in any order, however often, show equal tables.
pub fn same_notices_give_same_tables<K: Keyer>()
    ensures { SameNoticesSameTables K.pseudokey_of }
{}

/// A combine leaves the copy with the greater of both entries at each prefix.
pub fn combines_give_the_join<K: Keyer>()
    ensures { CombinesJoin K.pseudokey_of }
{}

/// An answering hop's page is live, and its prefix is the one leaf of the ward's leaves at that moment
/// that begins the call's pseudokey (Fagin et al. 1979).
pub fn answers_come_from_the_one_leaf<K: Keyer>()
    ensures { AnswersComeFromTheOneLeaf K.pseudokey_of }
{}

/// Each hop answers, moves on, or waits for a split.
pub fn hops_lead_on<K: Keyer>()
    ensures { HopsLeadOn K.pseudokey_of }
{}

/// Where no hop answers, the map at the end is that at the start.
pub fn only_answers_change_the_map<K: Keyer>()
    ensures { OnlyAnswersChangeTheMap K.pseudokey_of }
{}

/// An answer is the map machine's, over the map that the answers before it leave.
pub fn replies_follow_the_answers_before<K: Keyer>()
    ensures { RepliesFollowTheAnswersBefore K.pseudokey_of }
{}
