//! A call over a page file of version 3: its reply, and the blocks of the file that change or are new with it. The file isn't
//! read whole.
//!
//! What the answer of a call, a split and a merge make of a legal page file of version 3: laws over its pages and cells.
//!
//! A list of calls over a page file of version 3: their replies, and the blocks of the file that change or are new with all
//! of them together. The file isn't read whole.
#![tactic(auto)]

pub use changed::Changed;
pub use changed_all::ChangedAll;
pub use changing::change;
pub use changing_all::change_all;
pub use exh_direct::{Blocks, DirectFault};
pub use exh_edits::{Home, find_any, find_home, page_count};
pub use laws::{
    answers_keep_legal, merges_keep_legal, pages_stand_apart, splits_keep_legal, stamps_keep_legal,
};

mod adding;
mod answer;
mod cells;
mod changed;
mod changed_all;
mod changing;
mod changing_all;
mod draft;
mod edit_index;
mod halves;
mod laws;
mod merging;
mod overlay;
mod pages;
mod reading;
mod splitting;
mod under;
