//! What holds of every list of hops, splits and merges of one ward, and of the ways through it. Each function does
//! nothing.

ghost use Rattle.exh_walk.specs.RouteLaws.{PagesStay, NamedPagesStay, RunsAreOneMaps, RunsKeepWardsSound, GetsGoHome, CallsGoHome, MovesAreOfPseudokeys, MovesComeNearer, OneDistance, DistancesAreFew, DistancesAreComputed};

use exh_calls::histories_go_on;
use exh_keyer::Keyer;
use exh_legal::{merges_keep_legal, right_links_lead_on, splits_keep_legal};
use exh_ward::{answers_keep_legal, one_hop};

/// Over every list of hops, splits and merges of a ward, it is legal for its start table and all
/// changes; the replies are one map's, from the map at the start; and a split or merge leaves the map
/// as it was.
pub fn runs_keep_wards_sound_and_one_map<K: Keyer>()
    ensures one_map { RunsAreOneMaps K.pseudokey_of }
    ensures sound { RunsKeepWardsSound K.pseudokey_of }
{
    splits_keep_legal();
    merges_keep_legal();
    answers_keep_legal();
    histories_go_on();
}

/// Over every list of hops, splits and merges of a ward, each page keeps its number and its low
/// bound: where a request stands at a page that isn't beyond its key, it still does.
pub fn pages_stay<K: Keyer>()
    ensures { PagesStay K.pseudokey_of }
{}

/// Over every list of hops, splits and merges of a ward, each page number that one of them names, as
/// where a hop moves on to or as a split's right page, is from then on that of a page of one low
/// bound.
pub fn named_pages_stay<K: Keyer>()
    ensures { NamedPagesStay K.pseudokey_of }
{
    splits_keep_legal();
    merges_keep_legal();
    answers_keep_legal();
    histories_go_on();
}

/// From every page that isn't beyond a key of the ward, the hops of a Get end at the live page whose
/// prefix begins the key's pseudokey, after as many moves as the distance says: the forwarding pages
/// to the first live page, and the live pages whose low bound is above that one's and at most the
/// pseudokey. No other moves end in an answer. The same holds of any call, but that a new key's Put
/// is answered `MustSplit` at a full page; the moves are the same for all calls of a pseudokey.
pub fn gets_go_home()
    ensures gets { GetsGoHome }
    ensures calls { CallsGoHome }
    ensures same { MovesAreOfPseudokeys }
{
    right_links_lead_on();
    one_hop();
}

/// Each move lowers the distance by exactly one.
pub fn moves_come_nearer()
    ensures { MovesComeNearer }
{
    right_links_lead_on();
    one_hop();
}

/// A page has one distance at most, for any list of pages.
pub fn one_distance()
    ensures { OneDistance }
{}

/// In the pages of a legal ward a distance is at most `LIMIT` more than the live pages.
pub fn distances_are_few()
    ensures { DistancesAreFew }
{}

/// In the pages of a legal ward a distance is what the function gives.
pub fn distances_are_computed()
    ensures { DistancesAreComputed }
{}
