ghost use Rattle.std.specs.Prelude.{◌≡◌, ◌≢◌, ◌↔◌, ℕ, List, Some, IsTrue, MatchResult, IfOk, IfErr};
ghost use Rattle.exh_codec.specs.Block.{AreZero};
ghost use Rattle.exh_page.specs.declared.Version.{Version as KnownVersion};
ghost use Rattle.exh_page.specs.Layout.{layout, written_version};
ghost use Rattle.exh_page.specs.Version.{first_version};
ghost use Rattle.exh_page.specs.declared.page.Page.{Page};
ghost use Rattle.exh_page.specs.PageHead.{head_of};
ghost use Rattle.exh_codec.specs.PageImage.{IsImage, IsLaidOut};
ghost use Rattle.exh_codec.specs.ReadPages.{GivesPage};
ghost use Rattle.exh_codec.specs.ImageTests.{Passes, IsFirst, content_tests, image_tests};

use crate::ImageFault;
use crate::block::{BLOCK_LEN, CONTENT_LEN, is_sealed};
use crate::cell::cells_of;
use crate::head::{HEAD_LEN, Head, LOW_START};
use crate::kind::Kind;
use crate::pages::{forward_page, live_page, right_link};
use exh_page::{Keyer, Page, PageHead, Prefix, Version, WRITTEN};
use std::alloc::Global;

/// The page that a block is the image of under a keyer, in the version of the page file that is
/// written. Where it is that of none, the fault is the first of `Digest`, `Kind`, `Length`, `Padding`,
/// `Prefix` and `Order` whose test the block fails, each test being over the whole block. It takes
/// memory for the records: `Memory` where that is refused.
pub fn decode_page<K: Keyer>(
    alloc: Global,
    keyer: &K,
    block: &[u8; BLOCK_LEN],
) -> Result<Page, ImageFault>
    ensures page { IfOk result (λ page. IsImage written_version (K.pseudokey_of keyer.now) page block.now) }
    ensures only { (page : Page) → IsImage written_version (K.pseudokey_of keyer.now) page block.now
        → MatchResult result (λ found. found ≡ page) (λ fault. fault ≡ ImageFault.Memory) }
    ensures fault { IfErr result (λ fault. fault ≢ ImageFault.Memory
        → IsFirst (Passes written_version (K.pseudokey_of keyer.now) block.now) image_tests fault) }
{
    decode_page_of(alloc, WRITTEN, keyer, block)
}

/// The page that a block is the image of under a keyer, in version 1 of the page file: a fault as of
/// `decode_page`, by the tests of that version. It takes memory for the records: `Memory` where that
/// is refused.
pub fn decode_page_v1<K: Keyer>(
    alloc: Global,
    keyer: &K,
    block: &[u8; BLOCK_LEN],
) -> Result<Page, ImageFault>
    ensures page { IfOk result (λ page. IsImage first_version (K.pseudokey_of keyer.now) page block.now) }
    ensures only { (page : Page) → IsImage first_version (K.pseudokey_of keyer.now) page block.now
        → MatchResult result (λ found. found ≡ page) (λ fault. fault ≡ ImageFault.Memory) }
    ensures fault { IfErr result (λ fault. fault ≢ ImageFault.Memory
        → IsFirst (Passes first_version (K.pseudokey_of keyer.now) block.now) image_tests fault) }
{
    decode_page_of(alloc, Version::First, keyer, block)
}

/// The page that a block is the image of in a version, under a keyer. Where it is that of none, the fault is the
/// first of `Digest`, `Kind`, `Length`, `Padding`, `Prefix` and `Order` whose test the block fails,
/// each test being over the whole block. It takes memory for the records: `Memory` where that is
/// refused.
pub fn decode_page_of<K: Keyer>(
    alloc: Global,
    version: Version,
    keyer: &K,
    block: &[u8; BLOCK_LEN],
) -> Result<Page, ImageFault>
    ensures page { IfOk result (λ page. IsImage (layout version) (K.pseudokey_of keyer.now) page block.now) }
    ensures only { (page : Page) → IsImage (layout version) (K.pseudokey_of keyer.now) page block.now
        → MatchResult result (λ found. found ≡ page) (λ fault. fault ≡ ImageFault.Memory) }
    ensures fault { IfErr result (λ fault. fault ≢ ImageFault.Memory
        → IsFirst (Passes (layout version) (K.pseudokey_of keyer.now) block.now) image_tests fault) }
{
    if !is_sealed(block) {
        return Err(ImageFault::Digest);
    }
    decode_content(alloc, version, keyer, block)
}

/// The page that a block was laid out for in a version, under a keyer, whatever its digest bytes are. Where
/// there is none, the fault is the first of `Kind`, `Length`, `Padding`, `Prefix` and `Order` whose
/// test the block fails. It takes memory for the records: `Memory` where that is refused.
pub fn decode_content<K: Keyer>(
    alloc: Global,
    version: Version,
    keyer: &K,
    block: &[u8; BLOCK_LEN],
) -> Result<Page, ImageFault>
    ensures page { IfOk result (λ page. IsLaidOut (layout version) (K.pseudokey_of keyer.now) page block.now) }
    ensures only { (page : Page) → IsLaidOut (layout version) (K.pseudokey_of keyer.now) page block.now
        → MatchResult result (λ found. found ≡ page) (λ fault. fault ≡ ImageFault.Memory) }
    ensures fault { IfErr result (λ fault. fault ≢ ImageFault.Memory
        → IsFirst (Passes (layout version) (K.pseudokey_of keyer.now) block.now) content_tests fault) }
{
    read_content(alloc, version, keyer, block)
}

/// All of the page that a block was laid out for but its records, which are counted, whatever the
/// digest bytes are: it stands alike in each version. Of a block that was laid out for none it says
/// something or `None`. It takes no memory.
pub fn decode_head(block: &[u8; BLOCK_LEN]) -> Option<PageHead>
    ensures { (version : KnownVersion) (pseudo : List ℕ → ℕ) (page : Page) → IsLaidOut (layout version) pseudo page block.now → result ≡ Some (head_of page) }
{
    let head = Head::from_bytes(block)?;
    match head.kind {
        Kind::Live => Some(PageHead::Live {
            prefix: Prefix::new(head.prefix_len, head.low)?,
            right: right_link(head.link),
            count: usize::from(head.count),
        }),
        Kind::Forward => Some(PageHead::Forward {
            low: head.low,
            target: head.link,
        }),
    }
}

// The page that a block was laid out for, or the first fault.
fn read_content<K: Keyer>(
    alloc: Global,
    version: Version,
    keyer: &K,
    block: &[u8; BLOCK_LEN],
) -> Result<Page, ImageFault>
    ensures { GivesPage (layout version) (K.pseudokey_of keyer.now) block.now result }
{
    let Some(head) = Head::from_bytes(block) else {
        return Err(ImageFault::Kind);
    };
    let Some((cells, rest)) = cells_of(head, &block[HEAD_LEN..CONTENT_LEN]) else {
        return Err(ImageFault::Length);
    };
    let low_end = LOW_START + version.bytes();
    if block[3] != 0 || !are_zero(&block[low_end..HEAD_LEN]) || !are_zero(rest) {
        return Err(ImageFault::Padding);
    }
    match head.kind {
        Kind::Live => live_page(alloc, version, keyer, head, &cells),
        Kind::Forward => forward_page(version, head),
    }
}

/// Whether all bytes are zero. There is no branch for a byte, so that many are tested at once.
pub fn are_zero(bytes: &[u8]) -> bool
    ensures { IsTrue result ↔ AreZero bytes.now }
{
    let mut set = 0;
    for byte in bytes {
        set |= *byte;
    }
    set == 0
}
