ghost use Rattle.std.specs.Prelude.{◌≡◌, ◌-◌, ◌<◌, ◌≤◌, List, ◌++◌, length, take};
ghost use Rattle.exh_prefix.specs.declared.prefix.TheConstants.{LIMIT};
ghost use Rattle.exh_page.specs.declared.page.Page.{Page as PageType};
ghost use Rattle.exh_page.specs.declared.page.Page.TheVariants.{Live};
ghost use Rattle.exh_page.specs.declared.page.TheConstants.{CAP_LIMIT};
ghost use Rattle.exh_page.specs.declared.record.Record.{Record as RecordType};
ghost use Rattle.exh_page.specs.Halves.{left_half, link_of, right_half, union};
ghost use Rattle.exh_page.specs.Page.{records_of};
ghost use Rattle.exh_page.specs.PageHead.{count_in};
ghost use Rattle.exh_codec.specs.declared.block.TheConstants.{CONTENT_LEN};
ghost use Rattle.exh_codec.specs.declared.head.TheConstants.{HEAD_LEN};
ghost use Rattle.exh_codec.specs.Head.{head_bytes, head_with};
ghost use Rattle.exh_codec.specs.PageImage.{padded};
ghost use Rattle.exh_frames.specs.InPlace.{AreKeyed, AreUnited, HasContent, IsSplitBlock};

use crate::cell::{COUNT_AT, starts_of};
use crate::pseudokeys::pseudokeys_from;
use crate::search::index_of_place;
use exh_codec::{BLOCK_LEN, HEAD_LEN, put_head};
use exh_page::{CAP_LIMIT, PageHead};
use exh_prefix::{PageNo, Prefix};

/// Splits the image of a live page of this prefix, shorter than `LIMIT`, and this right link: it keeps
/// the left half, which links to the page of number `right`, and the image of the right half is
/// answered, with no digest, and the pseudokeys of its records. Those of the left half stand first
/// among the ones that were handed in.
pub(crate) fn split_block(
    block: &mut [u8; BLOCK_LEN],
    pseudokeys: &[u64; CAP_LIMIT],
    prefix: Prefix,
    link: Option<PageNo>,
    right: PageNo,
) -> ([u8; BLOCK_LEN], [u64; CAP_LIMIT])
    requires short { length prefix < LIMIT }
    requires split { (records : List RecordType) × IsSplitBlock pseudokeys.now block.old prefix link records }
    ensures left { (records : List RecordType) → IsSplitBlock pseudokeys.now block.old prefix link records → HasContent block.new (left_half right (Live prefix link records)) }
    ensures left_keyed { (records : List RecordType) → IsSplitBlock pseudokeys.now block.old prefix link records → AreKeyed (records_of (left_half right (Live prefix link records))) pseudokeys.now }
    ensures right { (records : List RecordType) → IsSplitBlock pseudokeys.now block.old prefix link records → HasContent result.0 (right_half (Live prefix link records)) }
    ensures right_keyed { (records : List RecordType) → IsSplitBlock pseudokeys.now block.old prefix link records → AreKeyed (records_of (right_half (Live prefix link records))) result.1 }
{
    let (Some(left), Some(twin)) = (prefix.child(false), prefix.child(true)) else {
        unreachable!();
    };
    let starts = starts_of(block);
    let count = usize::from(block[COUNT_AT]);
    let cut = index_of_place(block, pseudokeys, &starts, twin.low(), &[]);
    let (start, end) = (starts[cut], starts[count]);
    let other = lay_run(&live_head(twin, link, count - cut), &block[start..end]);
    block[start..end].fill(0);
    put_head(block, &live_head(left, Some(right), cut));
    (other, pseudokeys_from(pseudokeys, count, cut))
}

/// Puts the records of another live page's image behind those of this one, and gives it a parent's
/// prefix and a right link.
pub(crate) fn unite_blocks(
    block: &mut [u8; BLOCK_LEN],
    other: &[u8; BLOCK_LEN],
    parent: Prefix,
    link: Option<PageNo>,
)
    requires { (page : PageType) × (twin : PageType) × AreUnited block.old other.now page twin }
    ensures { (page twin : PageType) → AreUnited block.old other.now page twin → link ≡ link_of twin → HasContent block.new (union parent page twin) }
{
    let (starts, others) = (starts_of(block), starts_of(other));
    let count = usize::from(block[COUNT_AT]);
    let more = usize::from(other[COUNT_AT]);
    let start = starts[count];
    let run = &other[HEAD_LEN..others[more]];
    block[start..start + run.len()].copy_from_slice(run);
    put_head(block, &live_head(parent, link, count + more));
}

// The head of a live page.
fn live_head(prefix: Prefix, right: Option<PageNo>, count: usize) -> PageHead
    ensures { result ≡ PageHead.Live prefix right count }
{
    PageHead::Live {
        prefix,
        right,
        count,
    }
}

// A block of a head and the bytes of records, and zeros behind them.
fn lay_run(head: &PageHead, run: &[u8]) -> [u8; BLOCK_LEN]
    requires few { count_in head.now ≤ CAP_LIMIT }
    requires room { length run.now ≤ CONTENT_LEN - HEAD_LEN }
    ensures { take CONTENT_LEN result ≡ padded CONTENT_LEN (head_bytes (head_with head.now) ++ run.now) }
{
    let mut block = [0; BLOCK_LEN];
    put_head(&mut block, head);
    block[HEAD_LEN..HEAD_LEN + run.len()].copy_from_slice(run);
    block
}
