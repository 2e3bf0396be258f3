//! Histories of wards, which begin anew before they outgrow the pages.
ghost use Rattle.std.specs.Prelude.{◌≡◌, ◌⊎◌};
ghost use Rattle.exh_ward.specs.WardState.{IsUnchanged, history_begun};

use exh_keyer::Keyer;
use exh_stores::Pages;
use exh_ward::Ward;

// The fewest entries of a journal with which a history begins anew.
const HISTORY_LEN: usize = 1024;

/// Begins the history of a ward anew where its journal has outgrown its pages. A refusal is passed over: the history goes on,
/// and the next try comes when the journal is twice as long.
pub(crate) fn renew<P: Pages + Drop, K: Keyer>(ward: &mut Ward<P, K>)
    ensures { (ward.new ≡ history_begun ward.old) ⊎ IsUnchanged ward.old ward.new }
{
    if !has_outgrown(ward) {
        return;
    }
    let _ = ward.begin_history();
}

// Whether the journal's length is a power of two, and it has eight entries or more for each page.
fn has_outgrown<P: Pages + Drop, K: Keyer>(ward: &Ward<P, K>) -> bool {
    let entries = ward.journal().len();
    let pages = u64::from(ward.page_count());
    entries.is_power_of_two() && entries >= HISTORY_LEN && entries as u64 / 8 >= pages
}
