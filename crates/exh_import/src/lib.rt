//! Import of a text of pairs into a store, line by line.
#![tactic(auto)]

pub use begun::Begun;
pub use heading::{Heading, take_heading};
pub use import_fault::ImportFault;
pub use imported::Imported;
pub use imported_store::{Added, ImportedStore, Refused};
pub use importing::import;
pub use line_reader::LineReader;
pub use options::ImportOptions;
pub use rejection::{Rejection, Rejects};

mod begun;
mod heading;
mod import_fault;
mod imported;
mod imported_store;
mod importing;
mod line_reader;
mod options;
mod rejection;
mod taking;
