ghost use Rattle.std.specs.Prelude.{◌≡◌, ◌+◌, ◌-◌, ◌<◌, ◌≤◌, ◌∷◌, ◌++◌, length, take, drop};
ghost use Rattle.exh_page.specs.declared.page.TheConstants.{CAP_LIMIT};
ghost use Rattle.exh_page.specs.Page.{records_of};
ghost use Rattle.exh_frames.specs.InPlace.{AreKeyed};

use exh_page::{CAP_LIMIT, Page, Records};

/// The pseudokeys of a page's records, in their order, and zeros behind them.
pub(crate) fn pseudokeys_of(page: &Page) -> [u64; CAP_LIMIT]
    requires { length (records_of page.now) ≤ CAP_LIMIT }
    ensures { AreKeyed (records_of page.now) result }
{
    match page {
        Page::Live { records, .. } => of_records(records),
        Page::Forward { .. } => [0; CAP_LIMIT],
    }
}

// The pseudokeys of records, and zeros behind them.
fn of_records(records: &Records) -> [u64; CAP_LIMIT]
    requires { length records.now ≤ CAP_LIMIT }
    ensures { AreKeyed records.now result }
{
    let mut pseudokeys = [0; CAP_LIMIT];
    let mut index = 0;
    for item in records.iter() {
        pseudokeys[index] = item.pseudokey;
        index += 1;
    }
    pseudokeys
}

/// Puts a pseudokey before the one of an index among so many.
pub(crate) fn insert_pseudokey(
    pseudokeys: &mut [u64; CAP_LIMIT],
    count: usize,
    index: usize,
    pseudokey: u64,
)
    requires within { index ≤ count }
    requires room { count < CAP_LIMIT }
    ensures { pseudokeys.new ≡ take index pseudokeys.old ++ pseudokey ∷ (take (count - index) (drop index pseudokeys.old) ++ drop (count + 1) pseudokeys.old) }
{
    pseudokeys.copy_within(index..count, index + 1);
    pseudokeys[index] = pseudokey;
}

/// Takes the pseudokey of an index out of so many.
pub(crate) fn remove_pseudokey(pseudokeys: &mut [u64; CAP_LIMIT], count: usize, index: usize)
    requires within { index < count }
    requires few { count ≤ CAP_LIMIT }
    ensures { pseudokeys.new ≡ take index pseudokeys.old ++ (take (count - (index + 1)) (drop (index + 1) pseudokeys.old) ++ drop (count - 1) pseudokeys.old) }
{
    pseudokeys.copy_within(index + 1..count, index);
}

/// The pseudokeys from an index on, of so many. What stands behind them says nothing.
pub(crate) fn pseudokeys_from(
    pseudokeys: &[u64; CAP_LIMIT],
    count: usize,
    index: usize,
) -> [u64; CAP_LIMIT]
    requires within { index ≤ count }
    requires few { count ≤ CAP_LIMIT }
    ensures { result ≡ take (count - index) (drop index pseudokeys.now) ++ drop (count - index) pseudokeys.now }
{
    let mut others = *pseudokeys;
    others.copy_within(index..count, 0);
    others
}

/// Puts so many pseudokeys of another image behind the first ones.
pub(crate) fn append_pseudokeys(
    pseudokeys: &mut [u64; CAP_LIMIT],
    count: usize,
    others: &[u64; CAP_LIMIT],
    more: usize,
)
    requires { count + more ≤ CAP_LIMIT }
    ensures { pseudokeys.new ≡ take count pseudokeys.old ++ (take more others.now ++ drop (count + more) pseudokeys.old) }
{
    pseudokeys[count..count + more].copy_from_slice(&others[..more]);
}
