//! A store of pages that is looked at.
ghost use Rattle.std.specs.Prelude.{◌≡◌, ◌<◌, length};
ghost use Rattle.exh_stores.specs.PageStore.{CountsFaults, TakesTheSame};

use crate::CAP;
use crate::conductor::{Conductor, Count};
use exh_codec::BLOCK_LEN;
use exh_keyer::PlainKeyer;
use exh_page::{Key, Lookup, Page, PageHead, Spot, Value};
use exh_prefix::{PageNo, Prefix};
use exh_stores::{Pages, PagesFault, StoreMaker};
use std::alloc::{AllocError, Global};
use std::cell::Cell;
use std::time::Clock;

/// Given at a first look that waits, and what it waits for; and that it waited in vain.
pub const IS_READ: Count = Count::First;

pub const MAY_GO: Count = Count::Second;

pub const IS_LATE: Count = Count::Third;

/// Merges, and those of pages which had more records together than half of what a page may have.
pub const HAS_MERGED: Count = Count::First;

pub const IS_OVER: Count = Count::Second;

/// Looks at pages; and those at page 0 after one at a page that isn't the last.
pub const LOOKS: Count = Count::First;

pub const CAME_BETWEEN: Count = Count::Second;

// The last page of a file of 1,100.
const LAST_PAGE: PageNo = 1099;

/// What a look at a page does.
#[derive(Clone, Copy)]
pub enum Look {
    Nothing,
    /// The first one waits.
    Waits,
    /// Each takes ten microseconds or more, so that others wait for the lock meanwhile. Merges are counted.
    Rests,
    /// Each is counted. The page is the one that was looked at last.
    Counts(PageNo),
}

/// A store of pages, and who counts what is done with them.
#[derive(Drop)]
pub struct WatchedPages<'a, P: Pages + Drop, R: Clock> {
    inner: P,
    look: Look,
    conductor: &'a Conductor<'a, R>,
}

/// Makes stores over those that another maker makes, of which the first is looked at, and the others aren't.
#[derive(Drop)]
pub struct WatchedMaker<'a, M, R: Clock> {
    inner: &'a M,
    look: Cell<Look>,
    conductor: &'a Conductor<'a, R>,
}

impl<'a, M, R: Clock> WatchedMaker<'a, M, R> {
    pub fn new(
        inner: &'a M,
        look: Look,
        conductor: &'a Conductor<'a, R>,
    ) -> WatchedMaker<'a, M, R> {
        WatchedMaker {
            inner,
            look: Cell::new(look),
            conductor,
        }
    }

    // The store is looked at as the next one is to be.
    fn watched<P: Pages + Drop>(&self, inner: P) -> WatchedPages<'a, P, R>
        ensures { result.inner ≡ inner }
    {
        let look = self.look.get();
        self.look.set(Look::Nothing);
        WatchedPages {
            inner,
            look,
            conductor: self.conductor,
        }
    }
}

impl<'a, P: Pages + Drop, M: StoreMaker<P, PlainKeyer>, R: Clock> StoreMaker<
    WatchedPages<'a, P, R>,
    PlainKeyer,
> for WatchedMaker<'a, M, R> {
    type Read = M::Read;

    fn first(
        &self,
        alloc: Global,
        keyer: PlainKeyer,
        page: Page,
    ) -> Result<WatchedPages<'a, P, R>, AllocError> {
        Ok(self.watched(self.inner.first(alloc, keyer, page)?))
    }

    fn of_read(&self, alloc: Global, read: M::Read) -> Result<WatchedPages<'a, P, R>, AllocError> {
        Ok(self.watched(self.inner.of_read(alloc, read)?))
    }
}

// Looks at a page. It touches no page, so the store stays as it was.
fn look_on<R: Clock>(look: &mut Look, conductor: &Conductor<'_, R>, page: PageNo) {
    match *look {
        Look::Nothing => {}
        Look::Rests => conductor.rest(),
        Look::Waits => {
            *look = Look::Nothing;
            conductor.raise(IS_READ, 1);
            if !conductor.wait_for(MAY_GO, 1) {
                conductor.raise(IS_LATE, 1);
            }
        }
        Look::Counts(last) => {
            *look = Look::Counts(page);
            conductor.raise(LOOKS, 1);
            if page == 0 && 0 < last && last < LAST_PAGE {
                conductor.raise(CAME_BETWEEN, 1);
            }
        }
    }
}

impl<P: Pages + Drop, R: Clock> WatchedPages<'_, P, R> {
    // Looks at two pages that are merged.
    fn see(&mut self, number: PageNo, buddy: PageNo) -> Result<(), PagesFault>
        requires there { number < length (P.pages (self.old).inner) }
        requires buddy_there { buddy < length (P.pages (self.old).inner) }
        ensures pages { P.pages (self.new).inner ≡ P.pages (self.old).inner }
        ensures failures { CountsFaults result (P.failures (self.old).inner) (P.failures (self.new).inner) }
        ensures takes { TakesTheSame P.takes (self.old).inner (self.new).inner }
    {
        let Look::Rests = self.look else {
            return Ok(());
        };
        let left = count_of(self.inner.head(number)?);
        let right = count_of(self.inner.head(buddy)?);
        if left > CAP / 2 || right > CAP / 2 - left {
            self.conductor.raise(IS_OVER, 1);
        }
        self.conductor.raise(HAS_MERGED, 1);
        Ok(())
    }
}

// How many records a page has.
fn count_of(page: PageHead) -> usize {
    match page {
        PageHead::Live { count, .. } => count,
        PageHead::Forward { .. } => 0,
    }
}

impl<P: Pages + Drop, R: Clock> Pages for WatchedPages<'_, P, R> {
    ghost pages = { λ store. P.pages store.inner };

    ghost takes = { λ store page. P.takes store.inner page };

    ghost failures = { λ store. P.failures store.inner };

    ghost at_hand = { λ store number. P.at_hand store.inner number };

    ghost in_reach = { λ store number. P.in_reach store.inner number };

    fn count(&self) -> PageNo {
        self.inner.count()
    }

    fn failures(&self) -> u64 {
        self.inner.failures()
    }

    fn get(&mut self, number: PageNo) -> Result<Page, PagesFault> {
        self.inner.get(number)
    }

    fn head(&mut self, number: PageNo) -> Result<PageHead, PagesFault> {
        look_on(&mut self.look, self.conductor, number);
        self.inner.head(number)
    }

    fn block(&mut self, number: PageNo, out: &mut [u8; BLOCK_LEN]) -> Result<(), PagesFault> {
        self.inner.block(number, out)
    }

    fn fetch(&mut self, number: PageNo) -> Result<(), PagesFault> {
        look_on(&mut self.look, self.conductor, number);
        self.inner.fetch(number)
    }

    fn fetched(&self, number: PageNo) -> &Page {
        self.inner.fetched(number)
    }

    fn reach(&mut self, number: PageNo) -> Result<(), PagesFault> {
        look_on(&mut self.look, self.conductor, number);
        self.inner.reach(number)
    }

    fn find(&self, number: PageNo, pseudokey: u64, key: &Key) -> Lookup<'_> {
        self.inner.find(number, pseudokey, key)
    }

    fn put_at(
        &mut self,
        number: PageNo,
        stood: Option<Spot>,
        pseudokey: u64,
        key: &Key,
        value: &Value,
    ) -> Result<(), PagesFault> {
        self.inner.put_at(number, stood, pseudokey, key, value)
    }

    fn remove_at(&mut self, number: PageNo, spot: Spot) -> Result<(), PagesFault> {
        self.inner.remove_at(number, spot)
    }

    fn set(&mut self, number: PageNo, page: Page) -> Result<(), PagesFault> {
        self.inner.set(number, page)
    }

    fn set_two(
        &mut self,
        number: PageNo,
        page: Page,
        other: PageNo,
        twin: Page,
    ) -> Result<(), PagesFault> {
        self.inner.set_two(number, page, other, twin)
    }

    fn grow_and_set(&mut self, new: Page, number: PageNo, page: Page) -> Result<(), PagesFault> {
        self.inner.grow_and_set(new, number, page)
    }

    fn split_into(&mut self, number: PageNo, right: PageNo) -> Result<(), PagesFault> {
        self.inner.split_into(number, right)
    }

    fn split_off(&mut self, number: PageNo) -> Result<(), PagesFault> {
        self.inner.split_off(number)
    }

    fn merge(&mut self, parent: Prefix, number: PageNo, buddy: PageNo) -> Result<(), PagesFault> {
        self.see(number, buddy)?;
        self.inner.merge(parent, number, buddy)
    }
}
