//! Pages, cells and headers of a page file of version 3 that change, and the blocks of the file that change with them.
//!
//! A get of a page file of any version, from the header and the blocks on the key's way alone: of version 3 the walk blocks
//! and one page, of the versions before as `exh_direct` has it.
#![tactic(auto)]

pub use any::find_any;
pub use block_edit::BlockEdit;
pub use differing::Differing;
pub use differing_fault::DifferingFault;
pub use edits::{Edits, block_in, no_edits, put_block};
pub use exh_direct::{Blocks, DirectFault};
pub use exh_format::{MAGIC, PLACED_NUMBER};
pub use finding::find_placed;
pub use home::Home;
pub use homing::find_home;
pub use images::{header_image, page_image, walk_image};
pub use laws::{
    blocks_stand, cells_change, edit_lists_stand, edited_blocks_stand, edits_commute,
    headers_change, pages_are_added, pages_change,
};
pub use search::page_count;

mod any;
mod block_edit;
mod differing;
mod differing_fault;
mod edits;
mod finding;
mod home;
mod homing;
mod images;
mod laws;
mod named;
mod reading;
mod search;
mod walk;
mod walk_block;
