//! A page file made anew of its pairs, with as few pages as these need, in the same settings or in others.
//!
//! How much a page file has: its records and pages, how full and how deep these are, and both as texts.
#![tactic(auto)]

pub use compact_options::CompactOptions;
pub use compacted::Compacted;
pub use compacting::compact_map;
pub use compaction::{CompactCounts, CompactOutcome, compact};
pub use exhash::legal_bytes_are_files;
pub use json::json_of;
pub use page_shape::PageShape;
pub use reading::stats_at;
pub use stats::{BIT_COUNTS, RECORD_COUNTS, Stats, stats_of};
pub use text::text_of;
pub use ward_counts::WardCounts;

mod compact_options;
mod compacted;
mod compacting;
mod compaction;
mod counting;
mod filling;
mod gathering;
mod json;
mod page_shape;
mod putting;
mod reading;
mod stats;
mod text;
mod ward_counts;
