ghost use Rattle.std.specs.Prelude.{◌≡◌, ◌≤◌, List, [], length, is_some, slice_get, slice_set, IfErr, IfOk, IfSome, IsOk, IsSome, IsTrue, Some, None};
ghost use Rattle.std.specs.NonZero.{non_zero_usize_get};
ghost use Rattle.std.specs.Option.{option_copied};
ghost use Rattle.exh_page.specs.declared.page.Page.{Page as PageType};
ghost use Rattle.exh_frames.specs.Decoded.{AreOf, beside_at, kept_at};

use exh_page::Page;
use exh_prefix::PageNo;
use lru::LruCache;
use std::alloc::{AllocError, AllocFailed, Global};
use std::marker::Model;
use std::num::NonZeroUsize;

/// Decoded pages by their numbers: so many of those that were used last, and beside them one that found
/// no room there.
#[derive(Drop)]
pub(crate) struct DecodedPages {
    recent: LruCache<PageNo, Page>,
    beside: Option<(PageNo, Page)>,
}

impl Model for DecodedPages {
    ghost use Rattle.exh_frames.specs.Decoded.{KeptPages};

    ghost Value = { KeptPages };

    ghost view = { λ a. record { recent = a.recent.entries; beside = a.beside; cap = a.recent.cap } };
}

impl DecodedPages {
    /// No pages, with a cache for so many. An `AllocError` where memory is refused.
    pub(crate) fn new(alloc: Global, size: NonZeroUsize) -> Result<DecodedPages, AllocError>
        ensures { IfOk result (λ decoded. decoded ≡ record { recent = []; beside = None; cap = non_zero_usize_get size }) }
    {
        let recent = LruCache::new(alloc, size)?;
        Ok(DecodedPages {
            recent,
            beside: None,
        })
    }

    /// How many pages the cache has, which are no more than it may have.
    pub(crate) fn len(&self) -> usize
        ensures len { result ≡ length self.now.recent }
        ensures bound { result ≤ self.now.cap }
    {
        self.recent.len()
    }

    /// The decoded page of a number.
    pub(crate) fn get(&self, number: PageNo) -> Option<&Page>
        ensures { option_copied result ≡ kept_at number self.now }
    {
        match self.recent.peek(&number) {
            Some(page) => Some(page),
            None => self.beside(number),
        }
    }

    // The page beside the cache, if it is of this number.
    fn beside(&self, number: PageNo) -> Option<&Page>
        ensures { option_copied result ≡ beside_at number self.now.beside }
    {
        match &self.beside {
            Some((kept, page)) if *kept == number => Some(page),
            _ => None,
        }
    }

    /// Whether the page of a number is decoded. In the cache it is then the one used last, and the page
    /// beside it goes.
    pub(crate) fn touch(&mut self, number: PageNo) -> bool
        ensures there { result ≡ is_some (kept_at number self.old) }
        ensures at { IsTrue result → IsSome (kept_at number self.new) }
        ensures pages { (pages : List PageType) → AreOf pages self.old → AreOf pages self.new }
        ensures cap { self.new.cap ≡ self.old.cap }
    {
        if self.recent.promote(&number) {
            self.beside = None;
            return true;
        }
        self.beside(number).is_some()
    }

    /// Keeps the page of a number in the cache, in place of what was decoded of it, or beside it where
    /// the cache finds no memory. For another page the one used longest ago may go.
    pub(crate) fn keep(&mut self, number: PageNo, page: Page)
        ensures at { IsSome (kept_at number self.new) }
        ensures pages { (pages : List PageType) → slice_get pages number ≡ Some page → AreOf pages self.old → AreOf pages self.new }
        ensures cap { self.new.cap ≡ self.old.cap }
    {
        let put = self.recent.put(number, page);
        self.beside = refused_of(put);
    }

    /// Keeps the page of a number in the cache, where that finds memory, in place of what was decoded of
    /// it, and none beside it. For another page the one used longest ago may go.
    pub(crate) fn keep_recent(&mut self, number: PageNo, page: Page)
        ensures pages { (pages : List PageType) → slice_get pages number ≡ Some page → AreOf pages self.old → AreOf pages self.new }
        ensures cap { self.new.cap ≡ self.old.cap }
    {
        self.keep(number, page);
        self.beside = None;
    }

    /// Takes out the decoded page of a number, whose page is to change, and lets go of the one beside
    /// the cache.
    pub(crate) fn take(&mut self, number: PageNo) -> Option<Page>
        ensures page { IfSome result (λ page. (pages : List PageType) → AreOf pages self.old → slice_get pages number ≡ Some page) }
        ensures others { (pages : List PageType) (page : PageType) → AreOf pages self.old → AreOf (slice_set pages number page) self.new }
        ensures cap { self.new.cap ≡ self.old.cap }
    {
        // For proofs: no number stands twice in the cache.
        let _len = self.recent.len();
        self.beside = None;
        self.recent.pop(&number)
    }
}

// What the cache found no memory for.
fn refused_of(put: Result<Option<Page>, AllocFailed<(PageNo, Page)>>) -> Option<(PageNo, Page)>
    ensures ok { IsOk put → result ≡ None }
    ensures err { IfErr put (λ refused. result ≡ Some refused.value) }
{
    match put {
        Ok(_) => None,
        Err(refused) => Some(refused.value),
    }
}
