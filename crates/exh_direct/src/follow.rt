ghost use Rattle.std.specs.Prelude.{◌≡◌, ◌+◌, ◌-◌, ◌*◌, ◌<◌, ◌≤◌, ◌^◌, min, not, true, take, IfOk, IfErr, OnOk};
ghost use Rattle.std.specs.BTreeSet.{Updates, contains};
ghost use Rattle.std.specs.Ordering.{nat_cmp};
ghost use Rattle.exh_direct.specs.declared.direct_fault.DirectFault.TheVariants.{Memory};
ghost use Rattle.std.specs.List.{sum};
ghost use Rattle.exh_keyer.specs.Pseudokey.{any_pseudokey};
ghost use Rattle.exh_format.specs.FileVersion.{file_version};
ghost use Rattle.exh_prefix.specs.declared.prefix.TheConstants.{LIMIT};
ghost use Rattle.exh_format.specs.HeaderImage.{IsHeader, IsKnownHeader};
ghost use Rattle.exh_direct.specs.KnownBlocks.{IsCount};
ghost use Rattle.exh_direct.specs.DirectAnswer.{FailsOnWay, FindsOnWay, page_place};

use crate::lead::{Lead, lead_of};
use crate::reading::{read_page, total};
use crate::{Blocks, DirectFault};
use exh_format::{FileFault, Header};
use exh_page::{Key, Value};
use exh_prefix::{PageNo, Version, ward_number};
use std::alloc::Global;
use std::collections::BTreeSet;

/// What the page of a key has, which the links lead to from the first page on. Of so many blocks it reads at most as many
/// pages as the ward has within them, each once. It takes memory for a page at a time, and for the numbers of those that were
/// passed.
pub(crate) fn follow<B: Blocks>(
    alloc: Global,
    blocks: &mut B,
    version: Version,
    count: u64,
    header: &Header,
    first: PageNo,
    pseudokey: u64,
    key: &Key,
) -> Result<Option<Value>, DirectFault>
    requires count { IsCount (B.known blocks.old) count }
    requires header { IsHeader (file_version version) header.now }
    requires pseudokey { pseudokey ≡ any_pseudokey header.now.settings.keyer key.now }
    ensures same_bytes { B.known blocks.new ≡ B.known blocks.old }
    ensures ok { IfOk result (FindsOnWay (file_version version) (B.known blocks.old) header.now key.now count first (B.reads blocks.old) (B.reads blocks.new)) }
    ensures err { IfErr result (FailsOnWay (file_version version) (B.known blocks.old) header.now key.now count first (B.reads blocks.old) (B.reads blocks.new)) }
{
    let ward = ward_number(header.settings.ward_bits, pseudokey) as usize;
    let pages = header.page_counts[ward];
    let before = pages_before(header, ward);
    let within = pages_within(pages, before, count);
    let mut passed = BTreeSet::new(alloc);
    let mut number = first;
    for turn in 0..within {
        if number >= pages {
            return Err(DirectFault::Astray);
        }
        if !note_passed(&mut passed, number)? {
            return Err(DirectFault::Astray);
        }
        let page = read_page(
            alloc,
            blocks,
            version,
            count,
            before + number,
            header.settings.keyer,
        )?;
        match lead_of(&page, pseudokey) {
            Lead::Home => return Ok(page.find(pseudokey, key)),
            Lead::To(next) => number = next,
            Lead::Nowhere => return Err(DirectFault::Astray),
        }
    }
    // Behind as many pages as there are comes one that was passed, or one behind the end of the file.
    if within <= number && number < pages {
        return Err(DirectFault::File(FileFault::Truncated));
    }
    Err(DirectFault::Astray)
}

// Notes that the page of a number is passed, and answers whether none of this number was.
fn note_passed(passed: &mut BTreeSet<PageNo>, number: PageNo) -> Result<bool, DirectFault>
    ensures ok { IfOk result (λ first. first ≡ not (contains nat_cmp passed.old number)) }
    ensures noted { OnOk result (Updates nat_cmp passed.old passed.new number true) }
    ensures err { IfErr result (λ fault. fault ≡ Memory) }
{
    match passed.insert(number) {
        Ok(first) => Ok(first),
        Err(_) => Err(DirectFault::Memory),
    }
}

// How many of a ward's pages, which begin at a place, lie within so many blocks.
fn pages_within(pages: u32, before: u32, count: u64) -> u32
    ensures { result ≡ min pages (count - before) }
{
    u64::from(pages).min(count.saturating_sub(u64::from(before))) as u32
}

// Where the pages of a ward begin: behind the header, and those of the wards before it.
fn pages_before(header: &Header, ward: usize) -> u32
    requires header { IsKnownHeader header.now }
    requires ward { ward < 16 }
    ensures place { result ≡ 1 + sum (take ward header.now.page_counts) }
    ensures few { result ≤ 16 * 2 ^ LIMIT + 1 }
{
    1 + total(&header.page_counts[..ward])
}
