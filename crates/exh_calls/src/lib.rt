//! Calls on a map from keys to values: what each is answered, the histories of answered calls, and whether the diaries of
//! callers and the journals of wards say the same.
#![tactic(auto)]

pub use base::Base;
pub use call::Call;
pub use diary::{CALLER_LIMIT, Diary, DiaryEntries};
pub use diary_entry::DiaryEntry;
pub use file_journals::FileJournals;
pub use journal::{Entries, Journal};
pub use journal_entry::JournalEntry;
pub use journals::Journals;
pub use key_change::KeyChange;
pub use laws::{histories_go_on, history_is_determined, sharers_begin, swaps_compare};
pub use mismatch::Mismatch;
pub use packed_pairs::{PackedPairs, Pairs};
pub use reply::Reply;
pub use settled_laws::settled_books_agree;
pub use settlement::{Settled, settle};

mod base;
mod call;
mod diary;
mod diary_entry;
mod file_journals;
mod journal;
mod journal_entry;
mod journals;
mod key_change;
mod laws;
mod mismatch;
mod packed_pairs;
mod reply;
mod settled_laws;
mod settlement;
mod stored_entry;
