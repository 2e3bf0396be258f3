ghost use Rattle.std.specs.Prelude.{◌≡◌, ◌-◌, ◌<◌, ◌^◌, ◌↔◌, [], ◌∷◌, ◌++◌, length, OnOk, OnErr};
ghost use Rattle.exh_page.specs.declared.page.Page.{Page as PageType};
ghost use Rattle.exh_page.specs.Page.{IsWellFormed};
ghost use Rattle.exh_codec.specs.PageImage.{IsBlockOf};

use crate::BLOCK_LEN;
use exh_page::{Keyer, Page, PageList};
use std::alloc::{AllocError, Global};

/// What the pages of a ward are read into, in the order of their numbers, under keyers of a type.
pub trait ReadPages<K: Keyer>: PageList + Drop {
    /// The pages that may be handed in, which are always the same.
    ghost takes: { Self → PageType → Type 0 };

    /// Begins with no pages, of which each is to be well formed under the keyer. It takes no memory.
    fn empty(alloc: Global, keyer: K) -> Self
        ensures none { Self.pages result ≡ [] }
        ensures takes { (page : PageType) → IsWellFormed (K.pseudokey_of keyer) page → takes result page };

    /// Adds a page that was read from a block. One of the two is enough to keep: a page has one block,
    /// and a block is that of one page. An `AllocError` where memory is refused, and nothing has changed.
    fn push(&mut self, block: &[u8; BLOCK_LEN], page: Page) -> Result<(), AllocError>
        requires room { length (Self.pages self.old) < 2 ^ 32 - 1 }
        requires block { IsBlockOf page block.now }
        requires taken { takes self.old page }
        ensures ok { OnOk result (Self.pages self.new ≡ Self.pages self.old ++ page ∷ []) }
        ensures err { OnErr result (Self.pages self.new ≡ Self.pages self.old) }
        ensures takes { (other : PageType) → takes self.old other ↔ takes self.new other };
}

/// Keeps the pages alone.
impl<K: Keyer> ReadPages<K> for Vec<Page> {
    ghost use Rattle.std.specs.Prelude.{⊤};

    ghost takes = { λ _ _. ⊤ };

    fn empty(alloc: Global, _keyer: K) -> Vec<Page> {
        Vec::new(alloc)
    }

    fn push(&mut self, _block: &[u8; BLOCK_LEN], page: Page) -> Result<(), AllocError> {
        self.reserve(1)?;
        self.push_reserved(page);
        Ok(())
    }
}
