ghost use Rattle.std.specs.Prelude.{◌≡◌, ◌+◌, ◌<◌, ◌^◌, ◌↔◌, length, map, IfOk, OnOk, IfErr, IsErrOf, IsTrue, IsFalse};
ghost use Rattle.std.specs.List.{AllByRecursion, sum};
ghost use Rattle.exh_keyer.specs.Pseudokey.{any_pseudokey};
ghost use Rattle.exh_prefix.specs.Layout.{layout};
ghost use Rattle.exh_format.specs.FileParts.{TakesFormed, pages_read};
ghost use Rattle.exh_format.specs.Reading.{FailsInPages, GivesPages, IsOf, blocks_failed, left};

use crate::block_source::BlockSource;
use crate::{ReadFileFault, push_item};
use exh_codec::{BLOCK_LEN, ReadPages};
use exh_keyer::AnyKeyer;
use exh_prefix::Version;
use std::alloc::Global;
use std::io::Read;

// The pages of each ward, of so many pages each.
pub(crate) fn read_wards<R: Read, W: ReadPages<AnyKeyer>>(
    alloc: Global,
    blocks: &mut BlockSource<'_, R>,
    version: Version,
    keyer: AnyKeyer,
    counts: &[u32],
) -> Result<Vec<W>, ReadFileFault>
    requires place { blocks.old.place + sum counts.now < 2 ^ 32 }
    requires open { IsFalse (blocks_failed blocks.old) }
    ensures place { OnOk result (blocks.new.place ≡ blocks.old.place + sum counts.now) }
    ensures counts { IfOk result (λ wards. map (λ ward. length (W.pages ward)) wards.items ≡ counts.now) }
    ensures takes { IfOk result (λ wards. AllByRecursion (TakesFormed W.takes (any_pseudokey keyer)) wards.items) }
    ensures given { IfOk result (λ wards.
        GivesPages (layout version) (any_pseudokey keyer) (left R.remaining blocks.old) (left R.remaining blocks.new) (pages_read W.pages wards.items)) }
    ensures err { IfErr result (IsOf
        (FailsInPages (layout version) (any_pseudokey keyer) blocks.old.place (sum counts.now)) (left R.remaining blocks.old)) }
    ensures failed { IsErrOf result ReadFileFault.Read ↔ IsTrue (blocks_failed blocks.new) }
{
    let mut wards = Vec::new(alloc);
    for count in counts {
        let pages = read_pages(alloc, blocks, version, keyer, *count)?;
        push_item(&mut wards, pages)?;
    }
    Ok(wards)
}

// The pages of a ward. It takes memory for the pages that were read, not for those that are still to come.
fn read_pages<R: Read, W: ReadPages<AnyKeyer>>(
    alloc: Global,
    blocks: &mut BlockSource<'_, R>,
    version: Version,
    keyer: AnyKeyer,
    count: u32,
) -> Result<W, ReadFileFault>
    requires place { blocks.old.place + count < 2 ^ 32 }
    requires open { IsFalse (blocks_failed blocks.old) }
    ensures place { OnOk result (blocks.new.place ≡ blocks.old.place + count) }
    ensures count { IfOk result (λ pages. length (W.pages pages) ≡ count) }
    ensures takes { IfOk result (TakesFormed W.takes (any_pseudokey keyer)) }
    ensures given { IfOk result (λ pages.
        GivesPages (layout version) (any_pseudokey keyer) (left R.remaining blocks.old) (left R.remaining blocks.new) (W.pages pages)) }
    ensures err { IfErr result (IsOf
        (FailsInPages (layout version) (any_pseudokey keyer) blocks.old.place count) (left R.remaining blocks.old)) }
    ensures failed { IsErrOf result ReadFileFault.Read ↔ IsTrue (blocks_failed blocks.new) }
{
    let mut pages = W::empty(alloc, keyer);
    let mut block = [0; BLOCK_LEN];
    for number in 0..count {
        let page = blocks.read_page(alloc, version, keyer, &mut block)?;
        pages.push(&block, page)?;
    }
    Ok(pages)
}
