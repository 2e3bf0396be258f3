//! A store of pages that writes the calls which `Pages` has no body for, and no other.

use exh_frames::{PageAtHand, Pages, PagesFault, StoreMaker};
use exh_keyer::Keyer;
use exh_page::{Key, Lookup, Page};
use exh_prefix::PageNo;
use std::alloc::{AllocError, Global};
use std::marker::Model;

/// Pages in memory, and the one that is at hand. It takes every page, and never answers a page fault.
#[derive(Drop)]
pub(crate) struct ListedPages {
    pages: Vec<Page>,
    near: PageAtHand,
}

impl Model for ListedPages {
    ghost use Rattle.std.specs.Prelude.{◌^◌, ◌<◌, ℕ, List, Option, length};
    ghost use Rattle.exh_page.specs.declared.page.Page.{Page};

    ghost Value = { List Page × Option (ℕ × Page) };

    ghost view = { λ a. (a.pages.items, a.near) };

    ghost invariant = { λ a. length a.pages.items < 2 ^ 32 };
}

impl Pages for ListedPages {
    ghost use Rattle.std.specs.Prelude.{⊤};
    ghost use Rattle.exh_frames.specs.PageStore.{IsAtHand};

    ghost pages = { λ store. store.0 };

    ghost takes = { λ _ _. ⊤ };

    ghost failures = { λ _. 0 };

    ghost at_hand = { λ store number. IsAtHand store.1 store.0 number };

    ghost in_reach = { λ store number. IsAtHand store.1 store.0 number };

    fn count(&self) -> PageNo {
        self.pages.len() as PageNo
    }

    fn failures(&self) -> u64 {
        0
    }

    fn get(&mut self, number: PageNo) -> Result<Page, PagesFault> {
        Ok(self.pages[number as usize].try_clone()?)
    }

    fn fetch(&mut self, number: PageNo) -> Result<(), PagesFault> {
        let page = self.get(number)?;
        self.near.keep(number, page);
        Ok(())
    }

    fn fetched(&self, number: PageNo) -> &Page {
        self.near.page(number)
    }

    fn reach(&mut self, number: PageNo) -> Result<(), PagesFault> {
        self.fetch(number)
    }

    fn find(&self, number: PageNo, pseudokey: u64, key: &Key) -> Lookup<'_> {
        self.near.look_up(number, pseudokey, key)
    }

    fn set(&mut self, number: PageNo, page: Page) -> Result<(), PagesFault> {
        self.pages[number as usize] = page;
        Ok(())
    }

    fn set_two(
        &mut self,
        number: PageNo,
        page: Page,
        other: PageNo,
        twin: Page,
    ) -> Result<(), PagesFault> {
        self.pages[number as usize] = page;
        self.pages[other as usize] = twin;
        Ok(())
    }

    fn grow_and_set(&mut self, new: Page, number: PageNo, page: Page) -> Result<(), PagesFault> {
        // Room for the new page first: nothing may fail once a page has changed.
        self.pages.reserve(1)?;
        self.pages[number as usize] = page;
        self.pages.push_reserved(new);
        Ok(())
    }
}

/// Makes such stores.
#[derive(Clone, Copy)]
pub(crate) struct ListedMaker;

impl<K: Keyer> StoreMaker<ListedPages, K> for ListedMaker {
    type Read = Vec<Page>;

    fn first(&self, alloc: Global, _keyer: K, page: Page) -> Result<ListedPages, AllocError> {
        let mut pages = Vec::new(alloc);
        pages.push(page)?;
        let near = PageAtHand::none();
        Ok(ListedPages { pages, near })
    }

    fn of_read(&self, _alloc: Global, read: Vec<Page>) -> Result<ListedPages, AllocError> {
        // More pages than there are numbers don't fit into memory.
        match PageNo::try_from(read.len()) {
            Ok(_) => Ok(ListedPages {
                pages: read,
                near: PageAtHand::none(),
            }),
            Err(_) => Err(AllocError),
        }
    }
}
