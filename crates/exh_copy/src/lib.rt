//! Copies of the directory that are looked at without waiting: any number of readers look pages up
//! with no lock, while one writer takes notices and other copies' tables and publishes them.
#![tactic(auto)]

pub use addition::Addition;
pub use copy::new_copy;
pub use fault::{NewCopyFault, NoPlace};
pub use laws::{
    copies_are_tables_of_their_sets, copies_never_go_back, learning_never_goes_back,
    looks_are_walks_of_copies,
};
pub use reader::CopyReader;
pub use start::Start;
pub use told::Told;
pub use writer::CopyWriter;

mod addition;
mod copy;
mod fault;
mod laws;
mod name;
mod published;
mod reader;
mod rule;
mod start;
mod told;
mod writer;
