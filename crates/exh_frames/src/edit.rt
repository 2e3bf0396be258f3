ghost use Rattle.std.specs.Prelude.{◌≡◌, ℕ, ◌+◌, ◌-◌, ◌≤◌, List, [], ◌∷◌, ◌++◌, length, take, drop, remove, replicate};
ghost use Rattle.std.specs.List.{copy_within};
ghost use Rattle.exh_page.specs.declared.page.Page.{Page as PageType};
ghost use Rattle.exh_page.specs.declared.record.Record.{Record as RecordType};
ghost use Rattle.exh_page.specs.Page.{records_of, with_records};
ghost use Rattle.exh_page.specs.Place.{place_of};
ghost use Rattle.exh_page.specs.Records.{with_record};
ghost use Rattle.exh_codec.specs.Cells.{IsSizedPair, pair_image};
ghost use Rattle.exh_frames.specs.InPlace.{AreKeyed, AreStarts, HasContent, IsEdit, LosesRecord, TakesRecord};
ghost use Rattle.exh_frames.specs.declared.cell.TheConstants.{RECORD_LEN};

use crate::cell::{COUNT_AT, STARTS_LEN, cell_len, starts_of};
use crate::gap::{Gap, gap_before, gap_over};
use crate::pseudokeys::insert_pseudokey;
use crate::search::index_of_place;
use exh_codec::BLOCK_LEN;
use exh_page::{CAP_LIMIT, Key, Spot, Value};

// Up to so many bytes are moved by way of no more room than that.
const FEW_BYTES: usize = 256;

/// Puts a record into the image of a live page, and its pseudokey among those of the others: over the
/// one that stands at a spot, where the page has one, else where it belongs. The records behind it are
/// moved, and nothing else is written but their number.
pub(crate) fn put_record(
    block: &mut [u8; BLOCK_LEN],
    pseudokeys: &mut [u64; CAP_LIMIT],
    stood: Option<Spot>,
    pseudokey: u64,
    key: &Key,
    value: &Value,
)
    requires { (page : PageType) × TakesRecord pseudokeys.old block.old stood (record { pseudokey = pseudokey; key = key.now; value = value.now }) page }
    ensures content { (page : PageType) → TakesRecord pseudokeys.old block.old stood (record { pseudokey = pseudokey; key = key.now; value = value.now }) page
        → HasContent block.new (with_records (with_record (record { pseudokey = pseudokey; key = key.now; value = value.now }) (records_of page)) page) }
    ensures keyed { (page : PageType) → TakesRecord pseudokeys.old block.old stood (record { pseudokey = pseudokey; key = key.now; value = value.now }) page
        → AreKeyed (with_record (record { pseudokey = pseudokey; key = key.now; value = value.now }) (records_of page)) pseudokeys.new }
{
    let starts = starts_of(block);
    let gap = open_gap(block, pseudokeys, &starts, stood, pseudokey, key);
    let count = block[COUNT_AT];
    let used = starts[usize::from(count)];
    block[COUNT_AT] = count - gap.count + 1;
    resize(block, gap, used, cell_len(key, value));
    write_cell(&mut block[gap.start..], key, value);
}

/// Takes the record of an index out of the image of a live page. The records behind it are moved,
/// zeros stand where they ended, and nothing else is written but their number.
pub(crate) fn remove_record(block: &mut [u8; BLOCK_LEN], index: usize)
    requires { (page : PageType) × LosesRecord block.old index page }
    ensures { (page : PageType) → LosesRecord block.old index page → HasContent block.new (with_records (remove (records_of page) index) page) }
{
    let starts = starts_of(block);
    let gap = gap_over(&starts, index);
    let count = block[COUNT_AT];
    let used = starts[usize::from(count)];
    block[COUNT_AT] = count - gap.count;
    resize(block, gap, used, 0);
}

// The gap of a record's place: that of the record at a spot, where one stands there, else one of no
// record, for which the pseudokey is put among those of the others.
fn open_gap(
    block: &[u8; BLOCK_LEN],
    pseudokeys: &mut [u64; CAP_LIMIT],
    starts: &[usize; STARTS_LEN],
    stood: Option<Spot>,
    pseudokey: u64,
    key: &Key,
) -> Gap
    requires { (page : PageType) × (item : RecordType) × AreStarts (records_of page) starts.now × (place_of item ≡ (pseudokey, key.now)) × TakesRecord pseudokeys.old block.now stood item page }
    ensures edit { (page : PageType) (item : RecordType) → AreStarts (records_of page) starts.now → place_of item ≡ (pseudokey, key.now) → TakesRecord pseudokeys.old block.now stood item page
        → IsEdit (records_of page) (item ∷ []) (with_record item (records_of page)) result }
    ensures keyed { (page : PageType) (item : RecordType) → AreStarts (records_of page) starts.now → place_of item ≡ (pseudokey, key.now) → TakesRecord pseudokeys.old block.now stood item page
        → AreKeyed (with_record item (records_of page)) pseudokeys.new }
{
    match stood {
        Some(spot) => gap_over(starts, spot.index),
        None => {
            let index = index_of_place(block, pseudokeys, starts, pseudokey, key.as_bytes());
            let count = usize::from(block[COUNT_AT]);
            insert_pseudokey(pseudokeys, count, index, pseudokey);
            gap_before(starts, index)
        }
    }
}

// Gives a gap another length. The bytes behind it, up to `used`, are moved, and where they then end
// before that, there are zeros up to there.
fn resize(block: &mut [u8; BLOCK_LEN], gap: Gap, used: usize, len: usize)
    requires order { gap.start ≤ gap.end }
    requires within { gap.end ≤ used }
    requires room { used + len ≤ BLOCK_LEN }
    ensures front { take gap.start block.new ≡ take gap.start block.old }
    ensures back { let new_used = gap.start + len + (used - gap.end) in
        drop (gap.start + len) block.new ≡ take (used - gap.end) (drop gap.end block.old) ++ (replicate (used - new_used) 0 ++ drop (used + (new_used - used)) block.old) }
{
    let new_end = gap.start + len;
    if new_end == gap.end {
        return;
    }
    let new_used = new_end + (used - gap.end);
    move_bytes(block, gap.end, used, new_end);
    if new_used < used {
        block[new_used..used].fill(0);
    }
}

// Moves bytes of a block to another place. A byte that lies in both is taken before it is written.
fn move_bytes(block: &mut [u8; BLOCK_LEN], start: usize, end: usize, to: usize)
    requires order { start ≤ end }
    requires within { end ≤ BLOCK_LEN }
    requires room { to + (end - start) ≤ BLOCK_LEN }
    ensures { block.new ≡ copy_within block.old start end to }
{
    if end - start <= FEW_BYTES {
        move_by::<FEW_BYTES>(block, start, end, to);
    } else {
        move_by::<BLOCK_LEN>(block, start, end, to);
    }
}

// Moves at most `N` bytes, which are copied as one run, to a place beside the block and from there.
fn move_by<const N: usize>(block: &mut [u8; BLOCK_LEN], start: usize, end: usize, to: usize)
    requires order { start ≤ end }
    requires within { end ≤ BLOCK_LEN }
    requires room { to + (end - start) ≤ BLOCK_LEN }
    requires few { end - start ≤ N }
    requires beside { N ≤ BLOCK_LEN }
    ensures { block.new ≡ copy_within block.old start end to }
{
    let len = end - start;
    let mut beside = [0; N];
    beside[..len].copy_from_slice(&block[start..end]);
    block[to..to + len].copy_from_slice(&beside[..len]);
}

// Writes a record over the first bytes.
fn write_cell(out: &mut [u8], key: &Key, value: &Value)
    requires { RECORD_LEN ≤ length out.old }
    ensures bytes { out.new ≡ pair_image (key.now, value.now) ++ drop (length (pair_image (key.now, value.now))) out.old }
    ensures sized { IsSizedPair (key.now, value.now) }
{
    let key = key.as_bytes();
    let value = value.as_bytes();
    let value_start = 2 + key.len();
    out[0] = key.len() as u8;
    out[1] = value.len() as u8;
    out[2..value_start].copy_from_slice(key);
    out[value_start..value_start + value.len()].copy_from_slice(value);
}
