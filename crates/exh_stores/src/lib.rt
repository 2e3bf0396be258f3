//! Stores of pages: lists of pages that a ward reads, changes and grows, wherever they lie (exhash's
//! own).
#![tactic(auto)]

pub use exh_codec::BLOCK_LEN;
pub use page_at_hand::PageAtHand;
pub use pages::Pages;
pub use pages_fault::PagesFault;
pub use plain_pages::PlainPages;
pub use store_maker::{PlainMaker, StoreMaker};

mod page_at_hand;
mod pages;
mod pages_fault;
mod plain_pages;
mod store_maker;
mod stored_page;
