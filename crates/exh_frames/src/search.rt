ghost use Rattle.std.specs.Prelude.{◌≡◌, ℕ, List};
ghost use Rattle.exh_page.specs.declared.page.Page.{Page as PageType};
ghost use Rattle.exh_page.specs.Page.{records_of};
ghost use Rattle.exh_frames.specs.InPlace.{AreHashed, AreStarts, HasContent, IsPlaceIn, IsSoughtKey};

use crate::cell::{COUNT_AT, STARTS_LEN, cell_at};
use exh_codec::{BLOCK_LEN, HEAD_LEN};
use exh_page::{CAP_LIMIT, Key, LentValue, Spot};
use std::cmp::Ordering;

/// Where the record of a key stands in the image of a live page, and its value where it lies, or
/// `None` where there is none. The keys' bytes are compared, and none is hashed.
pub(crate) fn find_key<'a>(block: &'a [u8; BLOCK_LEN], key: &Key) -> Option<(Spot, LentValue<'a>)>
    requires { (page : PageType) × HasContent block.now page }
    ensures { (page : PageType) → HasContent block.now page → IsSoughtKey key.now (records_of page) result }
{
    let sought = key.as_bytes();
    let mut start = HEAD_LEN;
    for index in 0..usize::from(block[COUNT_AT]) {
        let cell = cell_at(block, start);
        if cell.key == sought {
            let start = start - HEAD_LEN - 2 * index;
            return Some((Spot { index, start }, LentValue::of(cell.value)));
        }
        start = cell.end;
    }
    None
}

/// How many records of an image, of which these are the pseudokeys, stand before the place of a
/// pseudokey and the bytes of a key.
pub(crate) fn index_of_place(
    block: &[u8; BLOCK_LEN],
    pseudokeys: &[u64; CAP_LIMIT],
    starts: &[usize; STARTS_LEN],
    pseudokey: u64,
    key: &[u8],
) -> usize
    requires { (page : PageType) × HasContent block.now page × AreStarts (records_of page) starts.now × AreHashed pseudokeys.now (records_of page) }
    ensures { (page : PageType) → HasContent block.now page → AreStarts (records_of page) starts.now → AreHashed pseudokeys.now (records_of page)
        → IsPlaceIn (pseudokey, key.now) (records_of page) result }
{
    let mut low = 0;
    let mut high = usize::from(block[COUNT_AT]);
    while low < high {
        let middle = low + (high - low) / 2;
        let stood = cell_at(block, starts[middle]).key;
        match pseudokeys[middle].cmp(&pseudokey).then(stood.cmp(&key)) {
            Ordering::Less => low = middle + 1,
            Ordering::Equal | Ordering::Greater => high = middle,
        }
    }
    low
}
