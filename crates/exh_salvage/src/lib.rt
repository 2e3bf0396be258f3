//! What can be saved of a page file, whatever stands in it: the pairs of each block that is the image of a page.
#![tactic(auto)]

pub use laws::{pages_are_saved, whole_files_are_saved};
pub use read_blocks::{ReadBlocks, blocks_in};
pub use repeats::{Repeat, repeats_in};
pub use salvage::{SHOWN_PLACES, Salvage, SavedPair};
pub use salvaging::salvage_of;
pub use saved::{Saved, saved_of};

mod laws;
mod read_blocks;
mod repeats;
mod salvage;
mod salvaging;
mod saved;
