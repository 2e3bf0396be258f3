//! Pages in memory of which, after some calls, every call fails.
ghost use Rattle.std.specs.Prelude.{◌≡◌};
ghost use Rattle.exh_stores.specs.PageStore.{CountsFaults};

use exh_page::{Key, Lookup, Page};
use exh_prefix::PageNo;
use exh_stores::{Pages, PagesFault, PlainPages};

/// Pages in memory. Of the calls that answer a `Result` so many as are left are done, and each later one fails. It writes only the
/// calls that `Pages` has no body for.
#[derive(Drop)]
pub struct BrokenPages {
    pub inner: PlainPages,
    /// How many calls are still done.
    pub left: u64,
    /// How many calls failed.
    pub failures: u64,
}

impl BrokenPages {
    // Begins a call, which fails where none is left.
    fn enter(&mut self) -> Result<(), PagesFault>
        ensures inner { self.new.inner ≡ self.old.inner }
        ensures failures { CountsFaults result self.old.failures self.new.failures }
    {
        if self.left > 0 {
            self.left -= 1;
            return Ok(());
        }
        let Some(failures) = self.failures.checked_add(1) else {
            return Err(PagesFault::Memory);
        };
        self.failures = failures;
        Err(PagesFault::Page)
    }
}

impl Pages for BrokenPages {
    ghost use Rattle.std.specs.Prelude.{⊤, ◌<◌, length};

    ghost pages = { λ store. store.inner };

    ghost takes = { λ _ _. ⊤ };

    ghost failures = { λ store. store.failures };

    ghost at_hand = { λ store number. number < length store.inner };

    ghost in_reach = { λ store number. number < length store.inner };

    fn count(&self) -> PageNo {
        self.inner.count()
    }

    fn failures(&self) -> u64 {
        self.failures
    }

    fn get(&mut self, number: PageNo) -> Result<Page, PagesFault> {
        self.enter()?;
        self.inner.get(number)
    }

    fn fetch(&mut self, number: PageNo) -> Result<(), PagesFault> {
        self.enter()?;
        self.inner.fetch(number)
    }

    fn fetched(&self, number: PageNo) -> &Page {
        self.inner.fetched(number)
    }

    fn reach(&mut self, number: PageNo) -> Result<(), PagesFault> {
        self.enter()?;
        self.inner.reach(number)
    }

    fn find(&self, number: PageNo, pseudokey: u64, key: &Key) -> Lookup<'_> {
        self.inner.find(number, pseudokey, key)
    }

    fn set(&mut self, number: PageNo, page: Page) -> Result<(), PagesFault> {
        self.enter()?;
        self.inner.set(number, page)
    }

    fn set_two(
        &mut self,
        number: PageNo,
        page: Page,
        other: PageNo,
        twin: Page,
    ) -> Result<(), PagesFault> {
        self.enter()?;
        self.inner.set_two(number, page, other, twin)
    }

    fn grow_and_set(&mut self, new: Page, number: PageNo, page: Page) -> Result<(), PagesFault> {
        self.enter()?;
        self.inner.grow_and_set(new, number, page)
    }
}
