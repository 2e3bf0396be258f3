ghost use Rattle.std.specs.Prelude.{◌≡◌, ◌≤◌, ℕ, List, ◌++◌, length, drop};
ghost use Rattle.exh_page.specs.declared.page.Page.{Page as PageType};
ghost use Rattle.exh_page.specs.Page.{records_of};
ghost use Rattle.exh_codec.specs.Cells.{Pair, pair_image};
ghost use Rattle.exh_frames.specs.InPlace.{AreStarts, HasContent, IsCellOf};

use exh_codec::{BLOCK_LEN, HEAD_LEN};
use exh_page::{CAP_LIMIT, Key, Value};

/// Where the number of its records stands in an image.
pub(crate) const COUNT_AT: usize = 2;

/// The greatest length of a record in an image, in bytes.
pub(crate) const RECORD_LEN: usize = 194;

/// How many places the starts of an image's records may be: one for each, and one behind them.
pub(crate) const STARTS_LEN: usize = CAP_LIMIT + 1;

/// A record where it stands in an image.
#[derive(Clone, Copy)]
pub(crate) struct Cell<'a> {
    pub(crate) key: &'a [u8],
    pub(crate) value: &'a [u8],
    /// Where it ends.
    pub(crate) end: usize,
}

/// The record that begins here in an image.
pub(crate) fn cell_at(block: &[u8; BLOCK_LEN], start: usize) -> Cell<'_>
    requires { (pair : Pair) × (rest : List ℕ) × (drop start block.now ≡ pair_image pair ++ rest) }
    ensures { (pair : Pair) (rest : List ℕ) → drop start block.now ≡ pair_image pair ++ rest → IsCellOf start pair result }
{
    let key_start = start + 2;
    let key_end = key_start + usize::from(block[start]);
    let end = key_end + usize::from(block[start + 1]);
    Cell {
        key: &block[key_start..key_end],
        value: &block[key_end..end],
        end,
    }
}

/// Where each record of an image begins, and after these where the last one ends.
pub(crate) fn starts_of(block: &[u8; BLOCK_LEN]) -> [usize; STARTS_LEN]
    requires { (page : PageType) × HasContent block.now page }
    ensures { (page : PageType) → HasContent block.now page → AreStarts (records_of page) result }
{
    let mut starts = [HEAD_LEN; STARTS_LEN];
    for index in 0..usize::from(block[COUNT_AT]) {
        starts[index + 1] = cell_at(block, starts[index]).end;
    }
    starts
}

/// How many bytes a record of a key and a value takes in an image.
pub(crate) fn cell_len(key: &Key, value: &Value) -> usize
    ensures len { result ≡ length (pair_image (key.now, value.now)) }
    ensures limit { result ≤ RECORD_LEN }
{
    2 + key.as_bytes().len() + value.as_bytes().len()
}
