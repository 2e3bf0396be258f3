ghost use Rattle.std.specs.Prelude.{◌≡◌, ◌<◌, ◌-◌, ◌^◌, ◌≤◌, ℕ, List, [], ◌∷◌, ◌++◌, length, map, slice_get, slice_set, Some, IfOk, OnOk, OnErr};
ghost use Rattle.std.specs.List.{AllByRecursion};
ghost use Rattle.exh_page.specs.Halves.{left_half, right_half, sent_to, union};
ghost use Rattle.exh_page.specs.Lookup.{HasPseudokey, IsLookup};
ghost use Rattle.exh_page.specs.Page.{IsDivisible, IsLive, IsWellFormed, records_of};
ghost use Rattle.exh_page.specs.Search.{IsStood};
ghost use Rattle.exh_prefix.specs.Layout.{written_version};
ghost use Rattle.exh_codec.specs.PageImage.{IsImage};
ghost use Rattle.exh_page.specs.declared.page.TheConstants.{CAP_LIMIT};
ghost use Rattle.exh_stores.specs.PageStore.{HasHead, IfPage};
ghost use Rattle.exh_frames.specs.PageImages.{put_into, taken_out};

use crate::image::Image;
use crate::runs::Runs;
use exh_codec::{BLOCK_LEN, ReadPages, blocks_are_read, decode_head, images_are_sealed};
use exh_keyer::Keyer;
use exh_page::{Key, Lookup, Page, PageHead, PageList, Spot, Value};
use exh_prefix::{PageNo, Prefix};
use std::alloc::{AllocError, Global};
use std::marker::Model;

/// Pages that stand as images of the version that is written, numbered from 0 on, each well formed
/// under a keyer.
#[derive(Drop)]
pub struct Images<K: Keyer> {
    keyer: K,
    images: Runs<Image>,
}

impl<K: Keyer> Model for Images<K> {
    ghost use Rattle.exh_frames.specs.PageImages.{AreKept, ImageList, pages_in};

    ghost Value = { ImageList K };

    ghost view = { λ a. record { keyer = a.keyer; pages = pages_in (K.pseudokey_of a.keyer) a.images.items } };

    ghost invariant = { λ a. AreKept (K.pseudokey_of a.keyer) a.images.items };
}

impl<K: Keyer> Images<K> {
    /// No images. It takes no memory.
    pub fn new(alloc: Global, keyer: K) -> Images<K>
        ensures { result ≡ record { keyer = keyer; pages = [] } }
    {
        Images {
            keyer,
            images: Runs::new(alloc),
        }
    }

    /// The images of these pages, in their order. An `AllocError` where memory is refused.
    pub fn of_pages(alloc: Global, keyer: K, pages: &[Page]) -> Result<Images<K>, AllocError>
        requires few { length pages.now < 2 ^ 32 }
        requires formed { AllByRecursion (IsWellFormed (K.pseudokey_of keyer)) pages.now }
        ensures { IfOk result (λ images. images ≡ record { keyer = keyer; pages = pages.now }) }
    {
        let mut images = Images::new(alloc, keyer);
        for page in pages {
            images.add(page)?;
        }
        Ok(images)
    }

    /// How many there are.
    pub fn count(&self) -> PageNo
        ensures { result ≡ length self.now.pages }
    {
        self.images.len() as PageNo
    }

    /// The page of an image. No key is hashed, and nothing is tested. It takes memory for the records: an
    /// `AllocError` where that is refused.
    pub fn page(&self, number: PageNo) -> Result<Page, AllocError>
        requires { number < length self.now.pages }
        ensures { IfOk result (λ page. slice_get self.now.pages number ≡ Some page) }
    {
        let alloc = self.images.allocator();
        let image = &self.images[number as usize];
        image.page(alloc)
    }

    /// All of an image's page but its records, with no page in memory.
    pub fn head(&self, number: PageNo) -> PageHead
        requires { number < length self.now.pages }
        ensures { HasHead self.now.pages number result }
    {
        let image = &self.images[number as usize];
        match decode_head(&image.block) {
            Some(head) => head,
            None => unreachable!(),
        }
    }

    /// Puts a page in place of the one of this number. It takes no memory.
    pub fn set(&mut self, number: PageNo, page: &Page)
        requires there { number < length self.old.pages }
        requires formed { IsWellFormed (K.pseudokey_of self.old.keyer) page.now }
        ensures keyer { self.new.keyer ≡ self.old.keyer }
        ensures pages { self.new.pages ≡ slice_set self.old.pages number page.now }
    {
        self.images[number as usize] = Image::of(page);
    }

    /// What the page of this number has for a key. It takes no memory, and no key is hashed.
    pub fn find(&self, number: PageNo, key: &Key) -> Lookup<'_>
        requires { number < length self.now.pages }
        ensures { (pseudokey : ℕ) → IfPage self.now.pages number (λ page. HasPseudokey pseudokey key.now page → IsLookup (pseudokey, key.now) page result) }
    {
        let image = &self.images[number as usize];
        image.look_up(key)
    }

    /// Puts a record of a key into the page of this number, which is live: over the record that stands
    /// at a spot, where the page has one, else where it belongs. It takes no memory.
    pub fn put(
        &mut self,
        number: PageNo,
        stood: Option<Spot>,
        pseudokey: u64,
        key: &Key,
        value: &Value,
    )
        requires there { number < length self.old.pages }
        requires live { IfPage self.old.pages number IsLive }
        requires stood { IfPage self.old.pages number (λ page. IsStood (pseudokey, key.now) (records_of page) stood) }
        requires formed { IfPage self.old.pages number (λ page. IsWellFormed (K.pseudokey_of self.old.keyer) (put_into (record { pseudokey = pseudokey; key = key.now; value = value.now }) page)) }
        ensures keyer { self.new.keyer ≡ self.old.keyer }
        ensures pages { IfPage self.old.pages number (λ page. self.new.pages ≡ slice_set self.old.pages number (put_into (record { pseudokey = pseudokey; key = key.now; value = value.now }) page)) }
    {
        let image = &mut self.images[number as usize];
        image.put(stood, pseudokey, key, value);
    }

    /// Takes the record of a spot out of the page of this number, which is live. It takes no memory.
    pub fn remove(&mut self, number: PageNo, spot: Spot)
        requires there { number < length self.old.pages }
        requires live { IfPage self.old.pages number IsLive }
        requires within { IfPage self.old.pages number (λ page. spot.index < length (records_of page)) }
        requires formed { IfPage self.old.pages number (λ page. IsWellFormed (K.pseudokey_of self.old.keyer) (taken_out spot.index page)) }
        ensures keyer { self.new.keyer ≡ self.old.keyer }
        ensures pages { IfPage self.old.pages number (λ page. self.new.pages ≡ slice_set self.old.pages number (taken_out spot.index page)) }
    {
        let image = &mut self.images[number as usize];
        image.remove(spot.index);
    }

    /// Splits the page of this number, which is live, with a prefix that has children: it keeps its left
    /// half and links to the page of number `right`, which becomes its right half. It takes no memory.
    pub fn split_into(&mut self, number: PageNo, right: PageNo)
        requires there { number < length self.old.pages }
        requires right_there { right < length self.old.pages }
        requires divisible { IfPage self.old.pages number IsDivisible }
        requires formed { IfPage self.old.pages number (λ page. IsWellFormed (K.pseudokey_of self.old.keyer) (left_half right page)) }
        requires right_formed { IfPage self.old.pages number (λ page. IsWellFormed (K.pseudokey_of self.old.keyer) (right_half page)) }
        ensures keyer { self.new.keyer ≡ self.old.keyer }
        ensures pages { IfPage self.old.pages number (λ page. self.new.pages ≡ slice_set (slice_set self.old.pages number (left_half right page)) right (right_half page)) }
    {
        let image = &mut self.images[number as usize];
        let half = image.split(right);
        self.images[right as usize] = half;
    }

    /// The same, where the right half becomes a new page, whose number is the count so far. An
    /// `AllocError` where memory is refused, and nothing has changed.
    pub fn split_off(&mut self, number: PageNo) -> Result<(), AllocError>
        requires there { number < length self.old.pages }
        requires room { length self.old.pages < 2 ^ 32 - 1 }
        requires divisible { IfPage self.old.pages number IsDivisible }
        requires formed { IfPage self.old.pages number (λ page. IsWellFormed (K.pseudokey_of self.old.keyer) (left_half (length self.old.pages) page)) }
        requires right_formed { IfPage self.old.pages number (λ page. IsWellFormed (K.pseudokey_of self.old.keyer) (right_half page)) }
        ensures keyer { self.new.keyer ≡ self.old.keyer }
        ensures ok { OnOk result (IfPage self.old.pages number (λ page. self.new.pages ≡ slice_set self.old.pages number (left_half (length self.old.pages) page) ++ right_half page ∷ [])) }
        ensures err { OnErr result (self.new.pages ≡ self.old.pages) }
    {
        self.images.reserve()?;
        let right = self.images.len() as PageNo;
        let image = &mut self.images[number as usize];
        let half = image.split(right);
        self.images.push_reserved(half);
        Ok(())
    }

    /// Merges the page of this number, which is live, with its live right buddy: it gets the parent's
    /// prefix, the records of both and the buddy's right link, and the buddy sends on to it. It takes no
    /// memory.
    pub fn merge(&mut self, parent: Prefix, number: PageNo, buddy: PageNo)
        requires there { number < length self.old.pages }
        requires buddy_there { buddy < length self.old.pages }
        requires live { IfPage self.old.pages number IsLive }
        requires buddy_live { IfPage self.old.pages buddy IsLive }
        requires formed { IfPage self.old.pages number (λ page. IfPage self.old.pages buddy (λ other. IsWellFormed (K.pseudokey_of self.old.keyer) (union parent page other))) }
        requires sent_formed { IfPage self.old.pages buddy (λ other. IsWellFormed (K.pseudokey_of self.old.keyer) (sent_to number other)) }
        ensures keyer { self.new.keyer ≡ self.old.keyer }
        ensures pages { IfPage self.old.pages number (λ page. IfPage self.old.pages buddy (λ other. self.new.pages ≡ slice_set (slice_set self.old.pages number (union parent page other)) buddy (sent_to number other))) }
    {
        let PageHead::Live { prefix, right, .. } = self.head(buddy) else {
            unreachable!();
        };
        let twin = &self.images[buddy as usize];
        let (other, others) = (twin.block, twin.pseudokeys);
        let image = &mut self.images[number as usize];
        image.unite(&other, &others, parent, right);
        self.images[buddy as usize] = Image::of(&Page::Forward {
            low: prefix.low(),
            target: number,
        });
    }

    /// Adds a page. An `AllocError` where memory is refused, and nothing has changed.
    pub fn add(&mut self, page: &Page) -> Result<(), AllocError>
        requires room { length self.old.pages < 2 ^ 32 - 1 }
        requires formed { IsWellFormed (K.pseudokey_of self.old.keyer) page.now }
        ensures keyer { self.new.keyer ≡ self.old.keyer }
        ensures ok { OnOk result (self.new.pages ≡ self.old.pages ++ page.now ∷ []) }
        ensures err { OnErr result (self.new.pages ≡ self.old.pages) }
    {
        self.images.reserve()?;
        self.images.push_reserved(Image::of(page));
        Ok(())
    }

    /// Adds a page that a block is the image of. No key is hashed. An `AllocError` where memory is
    /// refused, and nothing has changed.
    pub fn add_block(&mut self, block: &[u8; BLOCK_LEN], page: &Page) -> Result<(), AllocError>
        requires room { length self.old.pages < 2 ^ 32 - 1 }
        requires image { IsImage written_version (K.pseudokey_of self.old.keyer) page.now block.now }
        ensures keyer { self.new.keyer ≡ self.old.keyer }
        ensures ok { OnOk result (self.new.pages ≡ self.old.pages ++ page.now ∷ []) }
        ensures err { OnErr result (self.new.pages ≡ self.old.pages) }
    {
        blocks_are_read();
        images_are_sealed();
        self.images.reserve()?;
        self.images.push_reserved(Image::of_block(block, page));
        Ok(())
    }

    /// Makes the digest of a page's image, where it isn't made yet, and keeps it. It takes no memory.
    pub fn seal(&mut self, number: PageNo)
        requires { number < length self.old.pages }
        ensures keyer { self.new.keyer ≡ self.old.keyer }
        ensures pages { self.new.pages ≡ self.old.pages }
    {
        blocks_are_read();
        let image = &mut self.images[number as usize];
        image.seal();
    }

    /// The image of a page, with its digest.
    pub fn block(&self, number: PageNo) -> [u8; BLOCK_LEN]
        requires { number < length self.now.pages }
        ensures { IfPage self.now.pages number (λ page. IsImage written_version (K.pseudokey_of self.now.keyer) page result) }
    {
        images_are_sealed();
        let image = &self.images[number as usize];
        image.sealed_block()
    }
}

impl<K: Keyer> PageList for Images<K> {
    ghost pages = { λ images. images.pages };

    fn page_count(&self) -> usize {
        self.images.len()
    }

    fn head(&self, number: usize) -> PageHead {
        // There are no more images than a page's number says.
        let _count = self.count();
        Images::head(self, number as PageNo)
    }
}

/// Keeps the blocks, each with its digest, and the pseudokeys of its records.
impl<K: Keyer> ReadPages<K> for Images<K> {
    ghost use Rattle.exh_page.specs.Page.{IsWellFormed};

    ghost takes = { λ images page. IsWellFormed (K.pseudokey_of images.keyer) page };

    fn empty(alloc: Global, keyer: K) -> Images<K> {
        Images::new(alloc, keyer)
    }

    fn push(&mut self, block: &[u8; BLOCK_LEN], page: Page) -> Result<(), AllocError> {
        self.add_block(block, &page)
    }
}
