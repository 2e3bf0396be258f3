ghost use Rattle.std.specs.Prelude.{◌≡◌, true};
ghost use Rattle.exh_codec.specs.Block.{IsSealed};

use crate::cell::COUNT_AT;
use crate::edit::{put_record, remove_record};
use crate::halves::{split_block, unite_blocks};
use crate::laid_records::records_in;
use crate::pseudokeys::{append_pseudokeys, pseudokeys_of, remove_pseudokey};
use crate::search::find_key;
use exh_codec::{BLOCK_LEN, blocks_are_read, decode_head, lay_out, seal};
use exh_page::{CAP_LIMIT, Key, LentValue, Lookup, Page, PageHead, Spot, Value};
use exh_prefix::{LIMIT, PageNo, Prefix};
use std::alloc::{AllocError, Global};

/// A page as a block, whose digest is made when it is asked for.
#[derive(Drop)]
pub(crate) struct Image {
    pub(crate) block: [u8; BLOCK_LEN],
    /// Those of the page's records, in their order. What stands behind them says nothing.
    pub(crate) pseudokeys: [u64; CAP_LIMIT],
    /// Whether the digest is that of the content.
    is_sealed: bool,
    ghost told: { is_sealed ≡ true → IsSealed block },
}

impl Image {
    ghost use Rattle.std.specs.Prelude.{ℕ, ◌≡◌, ◌≤◌, List, length, take, true, IfOk};
    ghost use Rattle.exh_prefix.specs.declared.prefix.TheConstants.{LIMIT};
    ghost use Rattle.exh_codec.specs.declared.block.TheConstants.{CONTENT_LEN};
    ghost use Rattle.exh_codec.specs.Block.{IsSealed};
    ghost use Rattle.exh_page.specs.declared.page.TheConstants.{CAP_LIMIT};
    ghost use Rattle.exh_page.specs.Halves.{left_half, link_of, right_half, union};
    ghost use Rattle.exh_page.specs.declared.page.Page.{Page as PageType};
    ghost use Rattle.exh_page.specs.Lookup.{HasPseudokey, IsLookup};
    ghost use Rattle.exh_page.specs.PageHead.{head_of};
    ghost use Rattle.exh_page.specs.Page.{IsLive, IsWellFormed, records_of};
    ghost use Rattle.exh_frames.specs.InPlace.{AreKeyed, HasContent, IsSoughtKey};
    ghost use Rattle.exh_frames.specs.PageImages.{CanLose, CanPut, CanSplit, CanUnite, IsKeyed, IsLaid, Shows, page_at, page_in, put_into, taken_out};

    /// The image of a page, with no digest yet.
    pub(crate) fn of(page: &Page) -> Image
        requires { length (records_of page.now) ≤ CAP_LIMIT }
        ensures { (pseudo : List ℕ → ℕ) → IsWellFormed pseudo page.now → Shows pseudo page.now result }
    {
        blocks_are_read();
        Image::unsealed(lay_out(page), pseudokeys_of(page))
    }

    // The image that is this block, with no digest yet, whose records have these pseudokeys.
    fn unsealed(block: [u8; BLOCK_LEN], pseudokeys: [u64; CAP_LIMIT]) -> Image
        ensures block { result.block ≡ block }
        ensures pseudokeys { result.pseudokeys ≡ pseudokeys }
    {
        Image {
            block,
            pseudokeys,
            is_sealed: false,
        }
    }

    /// The image that is this block, which has its digest, of a page of at most 16 records. None of
    /// their keys is hashed.
    pub(crate) fn of_block(block: &[u8; BLOCK_LEN], page: &Page) -> Image
        requires sealed { IsSealed block.now }
        requires few { length (records_of page.now) ≤ CAP_LIMIT }
        ensures block { result.block ≡ block.now }
        ensures keyed { AreKeyed (records_of page.now) result.pseudokeys }
    {
        Image {
            block: *block,
            pseudokeys: pseudokeys_of(page),
            is_sealed: true,
        }
    }

    /// The image's page. No key is hashed, and nothing is tested. It takes memory for the records: an
    /// `AllocError` where that is refused.
    pub(crate) fn page(&self, alloc: Global) -> Result<Page, AllocError>
        requires { (pseudo : List ℕ → ℕ) × IsLaid pseudo self.now × IsKeyed pseudo self.now }
        ensures { (pseudo : List ℕ → ℕ) → IsLaid pseudo self.now → IsKeyed pseudo self.now → IfOk result (λ page. page ≡ page_in pseudo self.now) }
    {
        let Some(head) = decode_head(&self.block) else {
            unreachable!();
        };
        match head {
            PageHead::Live { prefix, right, .. } => {
                let records = records_in(alloc, &self.block, &self.pseudokeys)?;
                Ok(Page::Live {
                    prefix,
                    right,
                    records,
                })
            }
            PageHead::Forward { low, target } => Ok(Page::Forward { low, target }),
        }
    }

    /// What the image's page has for a key. The bytes of keys are compared, and none is hashed.
    pub(crate) fn look_up(&self, key: &Key) -> Lookup<'_>
        requires { (pseudo : List ℕ → ℕ) × IsLaid pseudo self.now }
        ensures { (pseudo : List ℕ → ℕ) (pseudokey : ℕ) → IsLaid pseudo self.now → HasPseudokey pseudokey key.now (page_in pseudo self.now) → IsLookup (pseudokey, key.now) (page_in pseudo self.now) result }
    {
        let Some(head) = decode_head(&self.block) else {
            unreachable!();
        };
        match self.find(&head, key) {
            Some((spot, value)) => Lookup {
                head,
                spot: Some(spot),
                value: Some(value),
            },
            None => Lookup {
                head,
                spot: None,
                value: None,
            },
        }
    }

    // Where the record of a key stands, and its value, if the page has one. A forwarding page has none.
    fn find(&self, head: &PageHead, key: &Key) -> Option<(Spot, LentValue<'_>)>
        requires { (page : PageType) × (head.now ≡ head_of page) × (IsLive page → HasContent self.now.block page) }
        ensures { (page : PageType) → head.now ≡ head_of page → (IsLive page → HasContent self.now.block page) → IsSoughtKey key.now (records_of page) result }
    {
        match head {
            PageHead::Live { .. } => find_key(&self.block, key),
            PageHead::Forward { .. } => None,
        }
    }

    /// Puts a record into a live page's image: over the one that stands at a spot, where the page has
    /// one, else where it belongs. It then has no digest yet.
    pub(crate) fn put(&mut self, stood: Option<Spot>, pseudokey: u64, key: &Key, value: &Value)
        requires { (pseudo : List ℕ → ℕ) × CanPut pseudo stood (record { pseudokey = pseudokey; key = key.now; value = value.now }) self.old }
        ensures { (pseudo : List ℕ → ℕ) → CanPut pseudo stood (record { pseudokey = pseudokey; key = key.now; value = value.now }) self.old
            → Shows pseudo (put_into (record { pseudokey = pseudokey; key = key.now; value = value.now }) (page_in pseudo self.old)) self.new }
    {
        blocks_are_read();
        self.is_sealed = false;
        let pseudokeys = &mut self.pseudokeys;
        put_record(&mut self.block, pseudokeys, stood, pseudokey, key, value);
    }

    /// Takes the record of an index out of a live page's image. It then has no digest yet.
    pub(crate) fn remove(&mut self, index: usize)
        requires { (pseudo : List ℕ → ℕ) × CanLose pseudo index self.old }
        ensures { (pseudo : List ℕ → ℕ) → CanLose pseudo index self.old → Shows pseudo (taken_out index (page_in pseudo self.old)) self.new }
    {
        blocks_are_read();
        self.is_sealed = false;
        let count = usize::from(self.block[COUNT_AT]);
        remove_pseudokey(&mut self.pseudokeys, count, index);
        remove_record(&mut self.block, index);
    }

    /// Splits a live page's image: it keeps the left half, which links to the page of number `right`,
    /// and the image of the right half is answered. Neither has a digest yet.
    pub(crate) fn split(&mut self, right: PageNo) -> Image
        requires { (pseudo : List ℕ → ℕ) × CanSplit pseudo right self.old }
        ensures left { (pseudo : List ℕ → ℕ) → CanSplit pseudo right self.old → Shows pseudo (left_half right (page_in pseudo self.old)) self.new }
        ensures right { (pseudo : List ℕ → ℕ) → CanSplit pseudo right self.old → Shows pseudo (right_half (page_in pseudo self.old)) result }
    {
        blocks_are_read();
        let Some(head) = decode_head(&self.block) else {
            unreachable!();
        };
        let PageHead::Live {
            prefix,
            right: link,
            ..
        } = head
        else {
            unreachable!();
        };
        self.is_sealed = false;
        let (half, pseudokeys) = split_block(
            &mut self.block,
            &self.pseudokeys,
            prefix,
            link,
            right,
        );
        Image::unsealed(half, pseudokeys)
    }

    /// Puts the records of another live page's image, with their pseudokeys, behind those of this one, and
    /// gives it a parent's prefix and the other's right link. It then has no digest yet.
    pub(crate) fn unite(
        &mut self,
        other: &[u8; BLOCK_LEN],
        others: &[u64; CAP_LIMIT],
        parent: Prefix,
        link: Option<PageNo>,
    )
        requires { (pseudo : List ℕ → ℕ) × CanUnite pseudo parent self.old other.now others.now }
        ensures { (pseudo : List ℕ → ℕ) → CanUnite pseudo parent self.old other.now others.now → link ≡ link_of (page_at pseudo other.now)
            → Shows pseudo (union parent (page_in pseudo self.old) (page_at pseudo other.now)) self.new }
    {
        blocks_are_read();
        prove!(parent.len() <= LIMIT);
        self.is_sealed = false;
        let count = usize::from(self.block[COUNT_AT]);
        append_pseudokeys(
            &mut self.pseudokeys,
            count,
            others,
            usize::from(other[COUNT_AT]),
        );
        unite_blocks(&mut self.block, other, parent, link);
    }

    /// Makes the digest, where it isn't made yet, and keeps it.
    pub(crate) fn seal(&mut self)
        ensures content { take CONTENT_LEN self.new.block ≡ take CONTENT_LEN self.old.block }
        ensures pseudokeys { self.new.pseudokeys ≡ self.old.pseudokeys }
        ensures kept { self.new.is_sealed ≡ true }
    {
        if !self.is_sealed {
            seal(&mut self.block);
            self.is_sealed = true;
        }
    }

    /// The block with its digest.
    pub(crate) fn sealed_block(&self) -> [u8; BLOCK_LEN]
        ensures content { take CONTENT_LEN result ≡ take CONTENT_LEN self.now.block }
        ensures sealed { IsSealed result }
    {
        let mut block = self.block;
        if self.is_sealed {
            return block;
        }
        seal(&mut block);
        block
    }
}
