//! What makes the pages of a ward legal, and what splits and merges do to them (Fagin et al. 1979): the halves of a page,
//! laws of lists of pages, and the six reasons for which a page file isn't legal.
#![tactic(auto)]

pub use change_numbers::index_of;
pub use exh_page::{FileSettings, Page, keyer_byte, keyer_of_byte};
pub use exh_table::{
    ENTRY_IMAGE_LEN, Entry, Join, Kind, Leaf, NoticeFault, Table, own_entries_give_the_table,
};
pub use file_tests::first_reason;
pub use full_page::halved_prefix;
pub use halves_fault::HalvesFault;
pub use laws::{
    entries_are_few, fitting_tables_begin_wards, left_children_link_to_siblings,
    live_left_children_merge, live_pages_split, lone_pages_are_legal, merges_keep_legal,
    pages_are_few, right_links_lead_on, splits_keep_legal, targets_lead_on, walks_name_homes,
};
pub use left_half::LeftHalf;
pub use page_index::PageIndex;
pub use page_laws::{buddies_unite, children_share_all, pages_have_limits, shares_are_records};
pub use reason::Reason;
pub use reason_laws::{legal_files_pass, legal_tables_have_room};
pub use ward_tests::ward_reason;

mod built_index;
mod cap;
mod change_numbers;
mod file_tests;
mod full_page;
mod halves_fault;
mod laws;
mod leaves;
mod left_half;
mod links;
mod page_index;
mod page_laws;
mod reason;
mod reason_laws;
mod table_fit;
mod ward_tests;
