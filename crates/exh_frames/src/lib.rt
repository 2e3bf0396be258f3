//! Stores of pages: those in memory, those over images of pages behind a cache of decoded ones, and
//! for tests those of which one call fails (exhash's own).
//!
//! Pages that stand as images: searched, changed, split and merged where they lie, with no page in
//! memory (exhash's own).
#![tactic(auto)]

pub use cache_size::{CACHE_SIZE_LIMIT, CacheFault};
pub use exh_stores::{PageAtHand, Pages, PagesFault, PlainMaker, PlainPages, StoreMaker};
pub use failing_pages::FailingPages;
pub use framed_maker::FramedMaker;
pub use framed_pages::FramedPages;
pub use images::Images;
pub use pages_call::PagesCall;
pub use stores::{FileStore, MAKER};

mod cache_size;
mod cell;
mod decoded_pages;
mod edit;
mod failing_pages;
mod framed_maker;
mod framed_pages;
mod gap;
mod halves;
mod image;
mod images;
mod laid_records;
mod pages_call;
mod pseudokeys;
mod runs;
mod search;
mod stores;
