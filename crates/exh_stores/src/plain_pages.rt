ghost use Rattle.std.specs.Prelude.{◌≡◌, ◌^◌, ◌<◌, [], ◌∷◌, length, IfOk};

use crate::stored_page::StoredPage;
use crate::{Pages, PagesFault};
use exh_codec::{
    BLOCK_LEN, Key, Keyer, Lookup, Page, PageHead, PageList, PageNo, Prefix, ReadPages, Spot,
    Value, digest_in,
};
use std::alloc::{AllocError, Global};
use std::marker::Model;

/// Pages in memory, of each the digest of its block where that is known: since it was read or written,
/// and the page hasn't changed. It takes every page, and never answers a page fault.
#[derive(Drop)]
pub struct PlainPages {
    pages: Vec<StoredPage>,
}

impl Model for PlainPages {
    ghost use Rattle.std.specs.Prelude.{◌^◌, ◌<◌, List, length};
    ghost use Rattle.exh_codec.specs.declared.Page.{Page};

    ghost Value = { List Page };

    ghost view = { λ a. a.pages.items };

    ghost invariant = { λ a. length a.pages.items < 2 ^ 32 };
}

impl PlainPages {
    /// A store of one page, number 0. It takes memory: an `AllocError` where that is refused.
    pub fn new(alloc: Global, first: Page) -> Result<PlainPages, AllocError>
        ensures { IfOk result (λ store. store ≡ first ∷ []) }
    {
        let mut pages = Vec::new(alloc);
        pages.push(StoredPage::new(first))?;
        Ok(PlainPages { pages })
    }

    /// A store of these pages, in their order. It takes memory: an `AllocError` where that is refused.
    pub fn of_pages(alloc: Global, given: Vec<Page>) -> Result<PlainPages, AllocError>
        requires { length given.items < 2 ^ 32 }
        ensures { IfOk result (λ store. store ≡ given.items) }
    {
        let mut pages = Vec::with_capacity(alloc, given.len())?;
        for page in given {
            pages.push(StoredPage::new(page))?;
        }
        Ok(PlainPages { pages })
    }
}

impl PageList for PlainPages {
    ghost pages = { λ store. store };

    fn page_count(&self) -> usize {
        self.pages.len()
    }

    fn head(&self, number: usize) -> PageHead {
        self.pages[number].page().head()
    }
}

/// Keeps each page with the digest of its block.
impl<K: Keyer> ReadPages<K> for PlainPages {
    ghost use Rattle.std.specs.Prelude.{⊤};

    ghost takes = { λ _ _. ⊤ };

    fn empty(alloc: Global, _keyer: K) -> PlainPages {
        PlainPages {
            pages: Vec::new(alloc),
        }
    }

    fn push(&mut self, block: &[u8; BLOCK_LEN], page: Page) -> Result<(), AllocError> {
        let digest = digest_in(block);
        self.pages.reserve(1)?;
        self.pages
            .push_reserved(StoredPage::with_digest(page, digest));
        Ok(())
    }
}

impl Pages for PlainPages {
    ghost use Rattle.std.specs.Prelude.{⊤};

    ghost pages = { λ store. store };

    ghost takes = { λ _ _. ⊤ };

    ghost failures = { λ _. 0 };

    ghost at_hand = { λ store number. number < length store };

    ghost in_reach = { λ store number. number < length store };

    fn count(&self) -> PageNo {
        self.pages.len() as PageNo
    }

    fn failures(&self) -> u64 {
        0
    }

    fn get(&mut self, number: PageNo) -> Result<Page, PagesFault> {
        Ok(self.pages[number as usize].page().try_clone_with_room(0)?)
    }

    fn head(&mut self, number: PageNo) -> Result<PageHead, PagesFault> {
        Ok(self.pages[number as usize].page().head())
    }

    fn block(&mut self, number: PageNo, out: &mut [u8; BLOCK_LEN]) -> Result<(), PagesFault> {
        self.pages[number as usize].block(out);
        Ok(())
    }

    // Each page is at hand.
    fn fetch(&mut self, _number: PageNo) -> Result<(), PagesFault> {
        Ok(())
    }

    fn fetched(&self, number: PageNo) -> &Page {
        self.pages[number as usize].page()
    }

    // Each page is within reach.
    fn reach(&mut self, _number: PageNo) -> Result<(), PagesFault> {
        Ok(())
    }

    fn find(&self, number: PageNo, pseudokey: u64, key: &Key) -> Lookup<'_> {
        self.pages[number as usize].page().look_up(pseudokey, key)
    }

    fn put_at(
        &mut self,
        number: PageNo,
        stood: Option<Spot>,
        pseudokey: u64,
        key: &Key,
        value: &Value,
    ) -> Result<(), PagesFault> {
        Ok(self.pages[number as usize].put_at(stood, pseudokey, key, value)?)
    }

    fn remove_at(&mut self, number: PageNo, spot: Spot) -> Result<(), PagesFault> {
        self.pages[number as usize].remove_at(spot);
        Ok(())
    }

    fn set(&mut self, number: PageNo, page: Page) -> Result<(), PagesFault> {
        self.pages[number as usize] = StoredPage::new(page);
        Ok(())
    }

    fn set_two(
        &mut self,
        number: PageNo,
        page: Page,
        other: PageNo,
        twin: Page,
    ) -> Result<(), PagesFault> {
        self.pages[number as usize] = StoredPage::new(page);
        self.pages[other as usize] = StoredPage::new(twin);
        Ok(())
    }

    fn grow_and_set(&mut self, new: Page, number: PageNo, page: Page) -> Result<(), PagesFault> {
        // Room for the new page first: nothing may fail once a page has changed.
        self.pages.reserve(1)?;
        self.pages[number as usize] = StoredPage::new(page);
        self.pages.push_reserved(StoredPage::new(new));
        Ok(())
    }

    fn split_into(&mut self, number: PageNo, right: PageNo) -> Result<(), PagesFault> {
        let page = self.pages[number as usize].page();
        let (left, twin) = (page.left_half(right)?, page.right_half()?);
        self.set_two(number, left, right, twin)
    }

    fn split_off(&mut self, number: PageNo) -> Result<(), PagesFault> {
        let page = self.pages[number as usize].page();
        let (left, right) = (page.left_half(self.count())?, page.right_half()?);
        self.grow_and_set(right, number, left)
    }

    fn merge(&mut self, parent: Prefix, number: PageNo, buddy: PageNo) -> Result<(), PagesFault> {
        let other = self.pages[buddy as usize].page();
        let union = self.pages[number as usize].page().union(parent, other)?;
        let sent = other.sent_to(number);
        self.set_two(number, union, buddy, sent)
    }
}
