ghost use Rattle.std.specs.Prelude.{◌≡◌, ◌↔◌, ◌-◌, ◌<◌, ◌≤◌, ◌^◌, [], ◌∷◌, ◌++◌, length, remove, slice_get, slice_set, Some, None, IsSome, IfOk, OnOk, OnErr, IsErrOf};
ghost use Rattle.std.specs.NonZero.{non_zero_usize_get};
ghost use Rattle.std.specs.List.{AllByRecursion};
ghost use Rattle.exh_prefix.specs.Layout.{written_version};
ghost use Rattle.exh_codec.specs.Block.{sealed};
ghost use Rattle.exh_codec.specs.PageImage.{IsHeld, IsImage, content_of};
ghost use Rattle.exh_page.specs.declared.page.TheConstants.{CAP_LIMIT};
ghost use Rattle.exh_page.specs.Halves.{left_half, right_half, sent_to, union};
ghost use Rattle.exh_page.specs.Page.{IsDivisible, IsLive, IsWellFormed, records_of, with_records};
ghost use Rattle.exh_page.specs.Records.{IsRising, with_record};
ghost use Rattle.exh_page.specs.Search.{IsSpot, IsStood};
ghost use Rattle.exh_stores.specs.PageStore.{HasHead, IfPage};
ghost use Rattle.exh_frames.specs.CacheSize.{IsCacheSize};
ghost use Rattle.exh_frames.specs.Decoded.{kept_at};

use crate::cache_size::to_cache_size;
use crate::decoded_pages::DecodedPages;
use crate::{CacheFault, Images};
use exh_codec::BLOCK_LEN;
use exh_keyer::Keyer;
use exh_page::{Key, Lookup, Page, PageHead, Spot, Value};
use exh_prefix::{PageNo, Prefix};
use exh_stores::{Pages, PagesFault};
use std::alloc::{AllocError, Global};
use std::marker::Model;
use std::num::NonZeroUsize;

/// Pages that stand as images of 4,096 bytes, each well formed under a keyer, and a cache of decoded
/// ones, which no clause of `Pages` sees. A write changes the image at once and the page in the cache,
/// which goes where it finds no memory. It never answers a page fault.
#[derive(Drop)]
pub struct FramedPages<K: Keyer> {
    images: Images<K>,
    decoded: DecodedPages,
}

impl<K: Keyer> Model for FramedPages<K> {
    ghost use Rattle.exh_frames.specs.Decoded.{AreOf};
    ghost use Rattle.exh_frames.specs.FramedStore.{FramedStore};

    ghost Value = { FramedStore K };

    ghost view = { λ a. record { keyer = a.images.keyer; pages = a.images.pages; decoded = a.decoded } };

    ghost invariant = { λ a. AreOf a.images.pages a.decoded };
}

impl<K: Keyer> FramedPages<K> {
    /// A store of one page, number 0, behind a cache of 1 to 1,024 decoded pages: any other size is
    /// `CacheFault::Size`, before anything else. `CacheFault::Memory` where memory is refused.
    pub fn new(
        alloc: Global,
        first: Page,
        keyer: K,
        cache_size: usize,
    ) -> Result<FramedPages<K>, CacheFault>
        requires { IsWellFormed (K.pseudokey_of keyer) first }
        ensures keyer { IfOk result (λ store. store.keyer ≡ keyer) }
        ensures pages { IfOk result (λ store. store.pages ≡ first ∷ []) }
        ensures cap { IfOk result (λ store. store.decoded.cap ≡ cache_size) }
        ensures size { IsErrOf result CacheFault.Size ↔ (IsCacheSize cache_size → ⊥) }
    {
        let size = to_cache_size(cache_size)?;
        Ok(FramedPages::of_first(alloc, first, keyer, size)?)
    }

    /// The same of these pages, in their order.
    pub fn from_pages(
        alloc: Global,
        pages: Vec<Page>,
        keyer: K,
        cache_size: usize,
    ) -> Result<FramedPages<K>, CacheFault>
        requires few { length pages.items < 2 ^ 32 }
        requires formed { AllByRecursion (IsWellFormed (K.pseudokey_of keyer)) pages.items }
        ensures keyer { IfOk result (λ store. store.keyer ≡ keyer) }
        ensures pages { IfOk result (λ store. store.pages ≡ pages.items) }
        ensures cap { IfOk result (λ store. store.decoded.cap ≡ cache_size) }
        ensures size { IsErrOf result CacheFault.Size ↔ (IsCacheSize cache_size → ⊥) }
    {
        let size = to_cache_size(cache_size)?;
        Ok(FramedPages::of_given(alloc, pages, keyer, size)?)
    }

    /// The image of the page of this number, whose digest is made here where it wasn't yet. It takes
    /// no memory.
    pub fn image(&self, number: PageNo) -> [u8; BLOCK_LEN]
        requires { number < length self.now.pages }
        ensures { IfPage self.now.pages number (λ page. IsImage written_version (K.pseudokey_of self.now.keyer) page result) }
    {
        self.images.block(number)
    }

    // A store of one page.
    pub(crate) fn of_first(
        alloc: Global,
        first: Page,
        keyer: K,
        size: NonZeroUsize,
    ) -> Result<FramedPages<K>, AllocError>
        requires { IsWellFormed (K.pseudokey_of keyer) first }
        ensures { IfOk result (λ store. store ≡ record { keyer = keyer; pages = first ∷ []; decoded = record { recent = []; beside = None; cap = non_zero_usize_get size } }) }
    {
        let mut images = Images::new(alloc, keyer);
        images.add(&first)?;
        FramedPages::of_images(alloc, images, size)
    }

    // A store of given pages.
    pub(crate) fn of_given(
        alloc: Global,
        given: Vec<Page>,
        keyer: K,
        size: NonZeroUsize,
    ) -> Result<FramedPages<K>, AllocError>
        requires few { length given.items < 2 ^ 32 }
        requires formed { AllByRecursion (IsWellFormed (K.pseudokey_of keyer)) given.items }
        ensures { IfOk result (λ store. store ≡ record { keyer = keyer; pages = given.items; decoded = record { recent = []; beside = None; cap = non_zero_usize_get size } }) }
    {
        let images = Images::of_pages(alloc, keyer, &given)?;
        FramedPages::of_images(alloc, images, size)
    }

    // A store of images, none of which is decoded yet.
    pub(crate) fn of_images(
        alloc: Global,
        images: Images<K>,
        size: NonZeroUsize,
    ) -> Result<FramedPages<K>, AllocError>
        ensures { IfOk result (λ store. store ≡ record { keyer = images.keyer; pages = images.pages; decoded = record { recent = []; beside = None; cap = non_zero_usize_get size } }) }
    {
        let decoded = DecodedPages::new(alloc, size)?;
        Ok(FramedPages { images, decoded })
    }

    /// How many decoded pages the cache has: no more than it may have.
    pub fn cached(&self) -> usize
        ensures len { result ≡ length self.now.decoded.recent }
        ensures bound { result ≤ self.now.decoded.cap }
    {
        self.decoded.len()
    }

    // Puts a page in place of the one of this number, and into the cache.
    fn write(&mut self, number: PageNo, page: Page)
        requires there { number < length self.old.pages }
        requires formed { IsWellFormed (K.pseudokey_of self.old.keyer) page }
        ensures keyer { self.new.keyer ≡ self.old.keyer }
        ensures pages { self.new.pages ≡ slice_set self.old.pages number page }
        ensures cap { self.new.decoded.cap ≡ self.old.decoded.cap }
    {
        self.images.set(number, &page);
        self.decoded.take(number);
        self.decoded.keep_recent(number, page);
    }

    // Gets the page of this number into the cache, where that finds memory.
    fn fill(&mut self, number: PageNo)
        requires { number < length self.old.pages }
        ensures keyer { self.new.keyer ≡ self.old.keyer }
        ensures pages { self.new.pages ≡ self.old.pages }
        ensures cap { self.new.decoded.cap ≡ self.old.decoded.cap }
    {
        if let Ok(page) = self.images.page(number) {
            self.decoded.keep_recent(number, page);
        }
    }

    // The same, where the page isn't decoded yet. In the cache it is then the one used last.
    fn load(&mut self, number: PageNo)
        requires { number < length self.old.pages }
        ensures keyer { self.new.keyer ≡ self.old.keyer }
        ensures pages { self.new.pages ≡ self.old.pages }
        ensures cap { self.new.decoded.cap ≡ self.old.decoded.cap }
    {
        if !self.decoded.touch(number) {
            self.fill(number);
        }
    }

    // A copy of the page of this number, from the cache or laid out of its image.
    fn copy(&self, number: PageNo) -> Result<Page, AllocError>
        requires { number < length self.now.pages }
        ensures { IfOk result (λ page. slice_get self.now.pages number ≡ Some page) }
    {
        match self.decoded.get(number) {
            Some(page) => page.try_clone_with_room(0),
            None => self.images.page(number),
        }
    }

    // All of the page of this number but its records, from the cache or its image.
    fn head_at(&self, number: PageNo) -> PageHead
        requires { number < length self.now.pages }
        ensures { HasHead self.now.pages number result }
    {
        match self.decoded.get(number) {
            Some(page) => page.head(),
            None => self.images.head(number),
        }
    }

    // Adds a page. An `AllocError` where memory is refused, and its pages are as before.
    fn add(&mut self, page: &Page) -> Result<(), AllocError>
        requires room { length self.old.pages < 2 ^ 32 - 1 }
        requires formed { IsWellFormed (K.pseudokey_of self.old.keyer) page.now }
        ensures keyer { self.new.keyer ≡ self.old.keyer }
        ensures ok { OnOk result (self.new.pages ≡ self.old.pages ++ page.now ∷ []) }
        ensures err { OnErr result (self.new.pages ≡ self.old.pages) }
        ensures cap { self.new.decoded.cap ≡ self.old.decoded.cap }
    {
        self.images.add(page)
    }
}

impl<K: Keyer> Pages for FramedPages<K> {
    ghost use Rattle.std.specs.Prelude.{◌≢◌, ◌++◌, ◌∷◌, [], length, remove, slice_get, slice_set, Some, IsSome, IsOk, IfOk, OnOk, OnErr, ◌<◌};
    ghost use Rattle.exh_stores.specs.PageStore.{CountsFaults, TakesTheSame};
    ghost use Rattle.exh_frames.specs.FramedStore.{FramedStore};
    ghost use Rattle.exh_frames.specs.Decoded.{kept_at};

    ghost pages = { λ store. store.pages };

    ghost takes = { λ store page. IsWellFormed (K.pseudokey_of store.keyer) page };

    ghost failures = { λ _. 0 };

    ghost at_hand = { λ store number. IsSome (kept_at number store.decoded) };

    ghost in_reach = { λ store number. number < length store.pages };

    fn count(&self) -> PageNo {
        self.images.count()
    }

    fn failures(&self) -> u64 {
        0
    }

    fn get(&mut self, number: PageNo) -> Result<Page, PagesFault>
        requires { number < length self.old.pages }
        ensures page { IfOk result (λ page. slice_get self.old.pages number ≡ Some page) }
        ensures pages { self.new.pages ≡ self.old.pages }
        ensures failures { CountsFaults result 0 0 }
        ensures takes { TakesTheSame (λ (store : FramedStore K) page. IsWellFormed (K.pseudokey_of store.keyer) page) self.old self.new }
        ensures cap { self.new.decoded.cap ≡ self.old.decoded.cap }
    {
        self.load(number);
        Ok(self.copy(number)?)
    }

    fn head(&mut self, number: PageNo) -> Result<PageHead, PagesFault>
        requires { number < length self.old.pages }
        ensures head { IfOk result (HasHead self.old.pages number) }
        ensures pages { self.new.pages ≡ self.old.pages }
        ensures failures { CountsFaults result 0 0 }
        ensures takes { TakesTheSame (λ (store : FramedStore K) page. IsWellFormed (K.pseudokey_of store.keyer) page) self.old self.new }
        ensures always { IsOk result }
        ensures cap { self.new.decoded.cap ≡ self.old.decoded.cap }
    {
        Ok(self.head_at(number))
    }

    fn block(&mut self, number: PageNo, out: &mut [u8; BLOCK_LEN]) -> Result<(), PagesFault>
        requires there { number < length self.old.pages }
        requires few { IfPage self.old.pages number (λ page. length (records_of page) ≤ CAP_LIMIT) }
        ensures block { OnOk result (IfPage self.old.pages number (λ page. (out.new ≡ sealed (content_of page)) × IsHeld page)) }
        ensures pages { self.new.pages ≡ self.old.pages }
        ensures failures { CountsFaults result 0 0 }
        ensures takes { TakesTheSame (λ (store : FramedStore K) page. IsWellFormed (K.pseudokey_of store.keyer) page) self.old self.new }
        ensures always { IsOk result }
        ensures cap { self.new.decoded.cap ≡ self.old.decoded.cap }
    {
        self.images.seal(number);
        *out = self.images.block(number);
        Ok(())
    }

    fn fetch(&mut self, number: PageNo) -> Result<(), PagesFault>
        requires { number < length self.old.pages }
        ensures at_hand { OnOk result (IsSome (kept_at number self.new.decoded)) }
        ensures pages { self.new.pages ≡ self.old.pages }
        ensures failures { CountsFaults result 0 0 }
        ensures takes { TakesTheSame (λ (store : FramedStore K) page. IsWellFormed (K.pseudokey_of store.keyer) page) self.old self.new }
        ensures already { IsSome (kept_at number self.old.decoded) → IsOk result }
        ensures cap { self.new.decoded.cap ≡ self.old.decoded.cap }
    {
        if self.decoded.touch(number) {
            return Ok(());
        }
        let page = self.images.page(number)?;
        self.decoded.keep(number, page);
        Ok(())
    }

    fn fetched(&self, number: PageNo) -> &Page {
        match self.decoded.get(number) {
            Some(page) => page,
            None => unreachable!(),
        }
    }

    // Each image is within reach. A page that finds no memory in the cache is read in its image.
    fn reach(&mut self, number: PageNo) -> Result<(), PagesFault>
        requires { number < length self.old.pages }
        ensures in_reach { OnOk result (number < length self.new.pages) }
        ensures pages { self.new.pages ≡ self.old.pages }
        ensures failures { CountsFaults result 0 0 }
        ensures takes { TakesTheSame (λ (store : FramedStore K) page. IsWellFormed (K.pseudokey_of store.keyer) page) self.old self.new }
        ensures always { IsOk result }
        ensures cap { self.new.decoded.cap ≡ self.old.decoded.cap }
    {
        self.load(number);
        Ok(())
    }

    fn find(&self, number: PageNo, pseudokey: u64, key: &Key) -> Lookup<'_> {
        match self.decoded.get(number) {
            Some(page) => page.look_up(pseudokey, key),
            None => self.images.find(number, key),
        }
    }

    fn put_at(
        &mut self,
        number: PageNo,
        stood: Option<Spot>,
        pseudokey: u64,
        key: &Key,
        value: &Value,
    ) -> Result<(), PagesFault>
        requires there { number < length self.old.pages }
        requires live { IfPage self.old.pages number IsLive }
        requires stood { IfPage self.old.pages number (λ page. IsStood (pseudokey, key.now) (records_of page) stood) }
        requires taken { IfPage self.old.pages number (λ page. IsWellFormed (K.pseudokey_of self.old.keyer) (with_records (with_record (record { pseudokey = pseudokey; key = key.now; value = value.now }) (records_of page)) page)) }
        ensures ok { OnOk result (IfPage self.old.pages number (λ page. self.new.pages ≡ slice_set self.old.pages number (with_records (with_record (record { pseudokey = pseudokey; key = key.now; value = value.now }) (records_of page)) page))) }
        ensures err { OnErr result (self.new.pages ≡ self.old.pages) }
        ensures failures { CountsFaults result 0 0 }
        ensures takes { TakesTheSame (λ (store : FramedStore K) page. IsWellFormed (K.pseudokey_of store.keyer) page) self.old self.new }
        ensures always { IsOk result }
        ensures cap { self.new.decoded.cap ≡ self.old.decoded.cap }
    {
        self.images.put(number, stood, pseudokey, key, value);
        if let Some(mut page) = self.decoded.take(number) {
            if page.put_at(stood, pseudokey, key, value).is_ok() {
                self.decoded.keep_recent(number, page);
            }
        }
        Ok(())
    }

    fn remove_at(&mut self, number: PageNo, spot: Spot) -> Result<(), PagesFault>
        requires there { number < length self.old.pages }
        requires live { IfPage self.old.pages number IsLive }
        requires spot { IfPage self.old.pages number (λ page. (spot.index < length (records_of page)) × IsSpot (records_of page) spot) }
        requires taken { IfPage self.old.pages number (λ page. IsWellFormed (K.pseudokey_of self.old.keyer) (with_records (remove (records_of page) spot.index) page)) }
        ensures ok { OnOk result (IfPage self.old.pages number (λ page. self.new.pages ≡ slice_set self.old.pages number (with_records (remove (records_of page) spot.index) page))) }
        ensures err { OnErr result (self.new.pages ≡ self.old.pages) }
        ensures failures { CountsFaults result 0 0 }
        ensures takes { TakesTheSame (λ (store : FramedStore K) page. IsWellFormed (K.pseudokey_of store.keyer) page) self.old self.new }
        ensures always { IsOk result }
        ensures cap { self.new.decoded.cap ≡ self.old.decoded.cap }
    {
        self.images.remove(number, spot);
        if let Some(mut page) = self.decoded.take(number) {
            page.remove_at(spot);
            self.decoded.keep_recent(number, page);
        }
        Ok(())
    }

    fn set(&mut self, number: PageNo, page: Page) -> Result<(), PagesFault>
        requires there { number < length self.old.pages }
        requires taken { IsWellFormed (K.pseudokey_of self.old.keyer) page }
        ensures ok { OnOk result (self.new.pages ≡ slice_set self.old.pages number page) }
        ensures err { OnErr result (self.new.pages ≡ self.old.pages) }
        ensures failures { CountsFaults result 0 0 }
        ensures takes { TakesTheSame (λ (store : FramedStore K) page. IsWellFormed (K.pseudokey_of store.keyer) page) self.old self.new }
        ensures always { IsOk result }
        ensures cap { self.new.decoded.cap ≡ self.old.decoded.cap }
    {
        self.write(number, page);
        Ok(())
    }

    fn set_two(
        &mut self,
        number: PageNo,
        page: Page,
        other: PageNo,
        twin: Page,
    ) -> Result<(), PagesFault>
        requires there { number < length self.old.pages }
        requires other_there { other < length self.old.pages }
        requires apart { number ≢ other }
        requires taken { IsWellFormed (K.pseudokey_of self.old.keyer) page }
        requires twin_taken { IsWellFormed (K.pseudokey_of self.old.keyer) twin }
        ensures ok { OnOk result (self.new.pages ≡ slice_set (slice_set self.old.pages number page) other twin) }
        ensures err { OnErr result (self.new.pages ≡ self.old.pages) }
        ensures failures { CountsFaults result 0 0 }
        ensures takes { TakesTheSame (λ (store : FramedStore K) page. IsWellFormed (K.pseudokey_of store.keyer) page) self.old self.new }
        ensures always { IsOk result }
        ensures cap { self.new.decoded.cap ≡ self.old.decoded.cap }
    {
        self.write(number, page);
        self.write(other, twin);
        Ok(())
    }

    fn grow_and_set(&mut self, new: Page, number: PageNo, page: Page) -> Result<(), PagesFault>
        requires there { number < length self.old.pages }
        requires room { length self.old.pages < 2 ^ 32 - 1 }
        requires new_taken { IsWellFormed (K.pseudokey_of self.old.keyer) new }
        requires taken { IsWellFormed (K.pseudokey_of self.old.keyer) page }
        ensures ok { OnOk result (self.new.pages ≡ slice_set self.old.pages number page ++ new ∷ []) }
        ensures err { OnErr result (self.new.pages ≡ self.old.pages) }
        ensures failures { CountsFaults result 0 0 }
        ensures takes { TakesTheSame (λ (store : FramedStore K) page. IsWellFormed (K.pseudokey_of store.keyer) page) self.old self.new }
        ensures cap { self.new.decoded.cap ≡ self.old.decoded.cap }
    {
        // The new image first: nothing may fail once a page has changed.
        self.add(&new)?;
        self.write(number, page);
        Ok(())
    }

    fn split_into(&mut self, number: PageNo, right: PageNo) -> Result<(), PagesFault>
        requires there { number < length self.old.pages }
        requires right_there { right < length self.old.pages }
        requires apart { number ≢ right }
        requires divisible { IfPage self.old.pages number IsDivisible }
        requires taken { IfPage self.old.pages number (λ page. IsWellFormed (K.pseudokey_of self.old.keyer) (left_half right page)) }
        requires right_taken { IfPage self.old.pages number (λ page. IsWellFormed (K.pseudokey_of self.old.keyer) (right_half page)) }
        ensures ok { OnOk result (IfPage self.old.pages number (λ page. self.new.pages ≡ slice_set (slice_set self.old.pages number (left_half right page)) right (right_half page))) }
        ensures err { OnErr result (self.new.pages ≡ self.old.pages) }
        ensures failures { CountsFaults result 0 0 }
        ensures takes { TakesTheSame (λ (store : FramedStore K) page. IsWellFormed (K.pseudokey_of store.keyer) page) self.old self.new }
        ensures always { IsOk result }
        ensures cap { self.new.decoded.cap ≡ self.old.decoded.cap }
    {
        self.images.split_into(number, right);
        self.decoded.take(number);
        self.decoded.take(right);
        self.fill(number);
        self.fill(right);
        Ok(())
    }

    fn split_off(&mut self, number: PageNo) -> Result<(), PagesFault>
        requires there { number < length self.old.pages }
        requires room { length self.old.pages < 2 ^ 32 - 1 }
        requires divisible { IfPage self.old.pages number IsDivisible }
        requires taken { IfPage self.old.pages number (λ page. IsWellFormed (K.pseudokey_of self.old.keyer) (left_half (length self.old.pages) page)) }
        requires right_taken { IfPage self.old.pages number (λ page. IsWellFormed (K.pseudokey_of self.old.keyer) (right_half page)) }
        ensures ok { OnOk result (IfPage self.old.pages number (λ page. self.new.pages ≡ slice_set self.old.pages number (left_half (length self.old.pages) page) ++ right_half page ∷ [])) }
        ensures err { OnErr result (self.new.pages ≡ self.old.pages) }
        ensures failures { CountsFaults result 0 0 }
        ensures takes { TakesTheSame (λ (store : FramedStore K) page. IsWellFormed (K.pseudokey_of store.keyer) page) self.old self.new }
        ensures cap { self.new.decoded.cap ≡ self.old.decoded.cap }
    {
        let right = self.images.count();
        self.images.split_off(number)?;
        self.decoded.take(number);
        self.fill(number);
        self.fill(right);
        Ok(())
    }

    fn merge(&mut self, parent: Prefix, number: PageNo, buddy: PageNo) -> Result<(), PagesFault>
        requires there { number < length self.old.pages }
        requires buddy_there { buddy < length self.old.pages }
        requires apart { number ≢ buddy }
        requires live { IfPage self.old.pages number IsLive }
        requires buddy_live { IfPage self.old.pages buddy IsLive }
        requires rising { IfPage self.old.pages number (λ page. IfPage self.old.pages buddy (λ other. IsRising (records_of page ++ records_of other))) }
        requires taken { IfPage self.old.pages number (λ page. IfPage self.old.pages buddy (λ other. IsWellFormed (K.pseudokey_of self.old.keyer) (union parent page other))) }
        requires sent_taken { IfPage self.old.pages buddy (λ other. IsWellFormed (K.pseudokey_of self.old.keyer) (sent_to number other)) }
        ensures ok { OnOk result (IfPage self.old.pages number (λ page. IfPage self.old.pages buddy (λ other. self.new.pages ≡ slice_set (slice_set self.old.pages number (union parent page other)) buddy (sent_to number other)))) }
        ensures err { OnErr result (self.new.pages ≡ self.old.pages) }
        ensures failures { CountsFaults result 0 0 }
        ensures takes { TakesTheSame (λ (store : FramedStore K) page. IsWellFormed (K.pseudokey_of store.keyer) page) self.old self.new }
        ensures always { IsOk result }
        ensures cap { self.new.decoded.cap ≡ self.old.decoded.cap }
    {
        self.images.merge(parent, number, buddy);
        self.decoded.take(number);
        self.decoded.take(buddy);
        self.fill(number);
        self.fill(buddy);
        Ok(())
    }
}
