//! A ward of an extendible hash file: its pages, the hops of calls over them, and its history.
#![tactic(auto)]

pub use exh_calls::{Base, Call, Entries, Journal, JournalEntry, Pairs, Reply};
pub use exh_stores::Pages;
pub use hop::Hop;
pub use laws::{
    answers_keep_legal, hops_are_computed, hops_have_outcomes, merges_are_computed,
    merges_have_outcomes, one_hop, splits_are_computed, splits_have_outcomes,
};
pub use new_file::new_wards;
pub use ward::{Ward, first_page};
pub use ward_fault::WardFault;

mod hop;
mod laws;
mod new_file;
mod ward;
mod ward_fault;
