//! The cells that a page file of version 3 has of its pages, in walk blocks, and the table that they say (exhash's own).
#![tactic(auto)]

pub use block_laws::{stamped_headers_pass, walk_blocks_pass};
pub use cell::{CELL_LEN, Cell, SLOTS, Slot};
pub use exh_format::{Header, MAGIC, PLACED_NUMBER, STAMPED_LEN, keyer_byte, push_item};
pub use exh_notice::Kind;
pub use fit::{COUNTS_LEN, cells_fit};
pub use laws::{cells_and_tables_tell, matched_tables_are_told, slots_are_entries};
pub use places::{GROUP_PAGES, end_block, group_of, page_block, walk_block};
pub use stamped_header::{StampedHeader, is_placed};
pub use tables::tables_of_cells;
pub use walk_image::{decode_cells, encode_cells};

mod block_laws;
mod cell;
mod fit;
mod laws;
mod places;
mod stamped_block;
mod stamped_header;
mod tables;
mod walk_image;
