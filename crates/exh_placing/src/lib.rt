//! Page files of version 3 written whole: cells from the tables of wards (exhash's own).
#![tactic(auto)]

pub use cells::cells_of_tables;
pub use exh_cells::{Cell, GROUP_PAGES, PLACED_NUMBER, STAMPED_LEN, StampedHeader};
pub use laws::{
    files_of_wards_are_placed, legal_wards_give_files, legal_wards_have_places, orders_give_pages,
    places_make_files, told_tables_have_places,
};
pub use order::{first_order, grown_order, order_of_lows};
pub use page_at::PageAt;
pub use table_list::TableList;
pub use writing::{write_header, write_place};

mod cells;
mod laws;
mod order;
mod page_at;
mod place_index;
mod slots;
mod table_list;
mod writing;
