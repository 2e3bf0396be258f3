//! Copies of the directory: tables with a doubled array of pointers beside them, which is brought up
//! to date notice by notice.
#![tactic(auto)]

pub use copies::Copies;
pub use directory::Directory;
pub use pointers::Pointers;

mod copies;
mod directory;
mod held_copy;
mod known;
mod news;
mod pointer;
mod pointers;
mod sent_table;
mod sent_tables;
