ghost use Rattle.std.specs.Prelude.{◌≡◌, [], ◌∷◌, IfOk};
ghost use Rattle.exh_codec.specs.declared.Page.{Page};
ghost use Rattle.exh_codec.specs.Page.{IsWellFormed};

use crate::{Pages, PlainPages};
use exh_codec::{Keyer, Page, ReadPages};
use std::alloc::{AllocError, Global};

/// Makes stores of pages, all of one kind, for keyers of a type.
pub trait StoreMaker<P: Pages, K: Keyer> {
    /// What the pages of a ward are read into before they are a store.
    type Read: ReadPages<K>;

    /// A store of one page, number 0, which is well formed under the keyer. It takes every page that is
    /// well formed under it, and has counted no failure. An `AllocError` where memory is refused.
    fn first(&self, alloc: Global, keyer: K, page: Page) -> Result<P, AllocError>
        requires formed { IsWellFormed (K.pseudokey_of keyer) page }
        ensures pages { IfOk result (λ store. P.pages store ≡ page ∷ []) }
        ensures takes { IfOk result (λ store. (other : Page) → IsWellFormed (K.pseudokey_of keyer) other → P.takes store other) }
        ensures failures { IfOk result (λ store. P.failures store ≡ 0) };

    /// Makes a store of pages that were read, in their order. The store takes each page that what they
    /// were read into takes. An `AllocError` where memory is refused.
    fn of_read(&self, alloc: Global, read: Self::Read) -> Result<P, AllocError>
        ensures pages { IfOk result (λ store. P.pages store ≡ Self.Read.pages read) }
        ensures takes { IfOk result (λ store. (page : Page) → Self.Read.takes read page → P.takes store page) };
}

/// Makes stores of pages in memory.
#[derive(Clone, Copy)]
pub struct PlainMaker;

impl<K: Keyer> StoreMaker<PlainPages, K> for PlainMaker {
    type Read = PlainPages;

    fn first(&self, alloc: Global, _keyer: K, page: Page) -> Result<PlainPages, AllocError> {
        PlainPages::new(alloc, page)
    }

    fn of_read(&self, _alloc: Global, read: PlainPages) -> Result<PlainPages, AllocError> {
        Ok(read)
    }
}
