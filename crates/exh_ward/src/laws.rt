//! What holds of the hop table, and of splits and merges, for the proofs of callers. Each function does
//! nothing.

ghost use Rattle.exh_ward.specs.WardLaws.{OneHop, HopsAreComputed, HopsHaveOutcomes, SplitsAreComputed, SplitsHaveOutcomes, MergesAreComputed, MergesHaveOutcomes, AnswersKeepLegal};

use exh_keyer::Keyer;
use exh_legal::{live_pages_split, merges_keep_legal, right_links_lead_on, splits_keep_legal};

/// A call at a page comes to one outcome at most, for any list of pages.
pub fn one_hop()
    ensures { OneHop }
{}

/// The hop table as a function gives what it says as a relation, for any list of pages.
pub fn hops_are_computed()
    ensures { HopsAreComputed }
{}

/// In legal pages a call of a key of the ward has an outcome at each page: the one that the function
/// gives.
pub fn hops_have_outcomes()
    ensures { HopsHaveOutcomes }
{
    right_links_lead_on();
}

/// A split of a sound ward's page, as a function, gives what it is as a relation, unless memory is
/// wanting or a page is out of reach.
pub fn splits_are_computed<K: Keyer>()
    ensures { SplitsAreComputed K.pseudokey_of }
{}

/// A split of a sound ward's page comes to what the function gives.
pub fn splits_have_outcomes<K: Keyer>()
    ensures { SplitsHaveOutcomes K.pseudokey_of }
{
    live_pages_split();
    splits_keep_legal();
}

/// A merge of a sound ward's page, as a function, gives what it is as a relation, unless memory is
/// wanting or a page is out of reach.
pub fn merges_are_computed<K: Keyer>()
    ensures { MergesAreComputed K.pseudokey_of }
{}

/// A merge of a sound ward's page comes to what the function gives.
pub fn merges_have_outcomes<K: Keyer>()
    ensures { MergesHaveOutcomes K.pseudokey_of }
{
    merges_keep_legal();
}

/// An answer at legal pages leaves them legal, with the map machine's map.
pub fn answers_keep_legal()
    ensures { AnswersKeepLegal }
{}
