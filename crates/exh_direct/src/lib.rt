//! A page file used directly: the value of one key, from the header, the blocks of the table that its walk asks for and the pages on the key's way alone, in
//! the version that the header says.
#![tactic(auto)]

pub use blocks::Blocks;
pub use direct_fault::DirectFault;
pub use exh_format::{BLOCK_ENTRIES, Header};
pub use finding::find;
pub use reading::{read_block, read_page};

mod blocks;
mod direct_fault;
mod finding;
mod follow;
mod lead;
mod named;
mod reading;
mod search;
mod side;
mod table_block;
mod walk;
