//! What holds of legal page files of version 3 that change, for the proofs of callers. Each function changes nothing.

ghost use Rattle.exh_change.specs.StepLaws.{AnswersKeepLegal, MergesKeepLegal, PagesStandApart, SplitsKeepLegal, StampsKeepLegal};

use exh_cells::{matched_tables_are_told, slots_are_entries};
use exh_legal::{
    fitting_tables_begin_wards, live_left_children_merge, live_pages_split, pages_are_few,
};

/// No two pages of a legal file have one low bound, and no pseudokey has two homes. It takes no memory.
pub fn pages_stand_apart()
    ensures { PagesStandApart }
{}

/// With other stamps a file is legal still, and has the same map. It takes no memory.
pub fn stamps_keep_legal()
    ensures { StampsKeepLegal }
{}

/// The answer of a call at the home of its key is the map machine's, over the map of all pages, and so is the map that it
/// leaves; the file is legal still. It takes no memory.
pub fn answers_keep_legal()
    ensures { AnswersKeepLegal }
{
    fitting_tables_begin_wards();
    exh_ward::answers_keep_legal();
}

/// A full page that is shorter than `LIMIT` can be split as the slot of its cell says, which leaves the file legal and its
/// map as it was. It takes no memory.
pub fn splits_keep_legal()
    ensures { SplitsKeepLegal }
{
    slots_are_entries();
    matched_tables_are_told();
    fitting_tables_begin_wards();
    exh_legal::splits_keep_legal();
    live_pages_split();
    pages_are_few();
}

/// A live left half can be merged with its buddy, the page that the slot of its cell names, where that is live and both have
/// no more than cap records, which leaves the file legal and its map as it was. It takes no memory.
pub fn merges_keep_legal()
    ensures { MergesKeepLegal }
{
    slots_are_entries();
    matched_tables_are_told();
    fitting_tables_begin_wards();
    exh_legal::merges_keep_legal();
    live_left_children_merge();
}
