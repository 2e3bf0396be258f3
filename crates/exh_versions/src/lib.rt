//! Page files of every version, read as what they say: of version 3 as of the versions before it (exhash's own).
//!
//! Page files of version 3, read whole: from the bytes of a reader to the parts of a file, or to the first fault, and
//! of those that are legal to their tables, or to the first reason (exhash's own). A file has exactly one list of bytes,
//! and bytes are those of one file.
#![tactic(auto)]

pub use any_file::AnyFile;
pub use exh_cells::{Cell, Slot, StampedHeader, cells_and_tables_tell};
pub use exh_codec::ReadPages;
pub use exh_legal::legal_tables_have_room;
pub use file_form::{FileForm, PlacedForm};
pub use laws::{legal_bytes_are_files, one_legal_file, placed_files_say_files};
pub use legal_placed::LegalPlaced;
pub use legal_reading::read_legal_placed;
pub use placed_laws::{
    one_legal_placed, one_placed_file, one_placed_image, placed_files_pass, same_legal,
};
pub use placed_parts::PlacedParts;
pub use placed_reading::read_placed;
pub use reading::read_any_file;

mod any_file;
mod block_source;
mod entries;
mod file_form;
mod front;
mod laws;
mod legal_placed;
mod legal_reading;
mod placed_laws;
mod placed_pages;
mod placed_parts;
mod placed_reading;
mod read_groups;
mod reading;
