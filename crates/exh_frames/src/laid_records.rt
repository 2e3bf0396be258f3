ghost use Rattle.std.specs.Prelude.{◌≡◌, IfOk};
ghost use Rattle.exh_page.specs.declared.page.Page.{Page as PageType};
ghost use Rattle.exh_page.specs.Page.{records_of};
ghost use Rattle.exh_codec.specs.Cells.{IsSizedPair};
ghost use Rattle.exh_frames.specs.InPlace.{AreHashed, HasContent};

use crate::cell::{COUNT_AT, cell_at};
use exh_codec::{BLOCK_LEN, HEAD_LEN};
use exh_page::{CAP_LIMIT, Key, Record, Records, Value};
use std::alloc::{AllocError, Global};

/// The records of the image of a live page, of which these are the pseudokeys. No key is hashed, and
/// no order tested. It takes memory: an `AllocError` where that is refused.
pub(crate) fn records_in(
    alloc: Global,
    block: &[u8; BLOCK_LEN],
    pseudokeys: &[u64; CAP_LIMIT],
) -> Result<Records, AllocError>
    requires { (page : PageType) × HasContent block.now page × AreHashed pseudokeys.now (records_of page) }
    ensures { (page : PageType) → HasContent block.now page → AreHashed pseudokeys.now (records_of page) → IfOk result (λ records. records ≡ records_of page) }
{
    let mut records = Records::new(alloc);
    let mut start = HEAD_LEN;
    for index in 0..usize::from(block[COUNT_AT]) {
        let cell = cell_at(block, start);
        records.push(&to_record(pseudokeys[index], cell.key, cell.value))?;
        start = cell.end;
    }
    Ok(records)
}

// The record of a pseudokey and of the bytes of a key and a value.
fn to_record(pseudokey: u64, key: &[u8], value: &[u8]) -> Record
    requires { IsSizedPair (key.now, value.now) }
    ensures { result ≡ record { pseudokey = pseudokey; key = key.now; value = value.now } }
{
    Record {
        pseudokey,
        key: Key::from_bytes(key).unwrap(),
        value: Value::from_bytes(value).unwrap(),
    }
}
