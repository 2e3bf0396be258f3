ghost use Rattle.std.specs.Prelude.{◌≡◌, ◌<◌, List, length};
ghost use Rattle.exh_page.specs.PageHead.{HasHead};
ghost use Rattle.exh_page.specs.declared.page.Page.{Page};

use crate::{Page, PageHead};

/// The pages of a ward, numbered from 0 on, wherever they lie, of which heads are read.
pub trait PageList {
    /// The pages, by their numbers.
    ghost pages: { Self → List Page };

    /// How many pages there are. It takes no memory.
    fn page_count(&self) -> usize
        ensures { result ≡ length (pages self.now) };

    /// All of the page of this number but its records. It takes no memory.
    fn head(&self, number: usize) -> PageHead
        requires { number < length (pages self.now) }
        ensures { HasHead (pages self.now) number result };
}

impl PageList for Vec<Page> {
    ghost pages = { λ list. list.items };

    fn page_count(&self) -> usize {
        self.len()
    }

    fn head(&self, number: usize) -> PageHead {
        self[number].head()
    }
}
