//! A page that a store keeps at hand.
ghost use Rattle.std.specs.Prelude.{◌≡◌, None, Some};
ghost use Rattle.exh_codec.specs.Lookup.{IsLookup};
ghost use Rattle.exh_codec.specs.declared.Page.{Page as PageType};

use exh_codec::{Key, Lookup, Page, PageNo};
use std::marker::Model;

/// The page that a store has at hand, from which it lends what `Pages::fetched` and `Pages::find` answer: for a store
/// that has no page in memory to lend. `Pages::fetch` and `Pages::reach` then get the page and keep it here.
#[derive(Drop)]
pub struct PageAtHand {
    kept: Option<(PageNo, Page)>,
}

impl Model for PageAtHand {
    ghost use Rattle.std.specs.Prelude.{Option, ℕ};
    ghost use Rattle.exh_codec.specs.declared.Page.{Page};

    ghost Value = { Option (ℕ × Page) };

    ghost view = { λ a. a.kept };
}

impl PageAtHand {
    /// None yet.
    pub fn none() -> PageAtHand
        ensures { result ≡ None }
    {
        PageAtHand { kept: None }
    }

    /// Keeps a page by its number, and lets the one go that was at hand.
    pub fn keep(&mut self, number: PageNo, page: Page)
        ensures { self.new ≡ Some (number, page) }
    {
        self.kept = Some((number, page));
    }

    /// The page, which is of this number, to be read in place.
    pub fn page(&self, number: PageNo) -> &Page
        requires { (page : PageType) × (self.now ≡ Some (number, page)) }
        ensures { self.now ≡ Some (number, result.now) }
    {
        match &self.kept {
            Some((_, page)) => page,
            None => unreachable!(),
        }
    }

    /// What the page, which is of this number, has for a key. It takes no memory.
    pub fn look_up(&self, number: PageNo, pseudokey: u64, key: &Key) -> Lookup<'_>
        requires { (page : PageType) × (self.now ≡ Some (number, page)) }
        ensures { (page : PageType) × (self.now ≡ Some (number, page)) × IsLookup (pseudokey, key.now) page result }
    {
        self.page(number).look_up(pseudokey, key)
    }
}
