//! Page files opened as wards, and wards written as one page file; one call over the wards of a file.
//!
//! Why a page file isn't opened as wards, and why wards aren't written as one.
#![tactic(auto)]

pub use draft::Draft;
pub use draft_fault::DraftFault;
pub use exh_format::{
    FileEntry, FileFault, FileParts, Header, LegalFile, LegalFileFault, MAGIC, ReadFileFault,
    read_file, read_legal_file,
};
pub use exh_frames::FileStore;
pub use exh_placing::{GROUP_PAGES, PLACED_NUMBER, STAMPED_LEN};
pub use exh_text::{Escaped, Parts, ReasonReader, parse_u64};
pub use exh_versions::{AnyFile, FileForm, PlacedForm, legal_bytes_are_files, read_any_file};
pub use file_change::change_file;
pub use open_fault::OpenFault;
pub use opened::Opened;
pub use opening::{open_form_over, open_over};
pub use page_file::{open, open_form, write_file};
pub use placing::{Form, Placing, Stamps};
pub use reply::{is_done, reply_line};
pub use save_fault::SaveFault;
pub use saving::write_wards;
pub use ward_change::{CHANGER, change_ward};

mod draft;
mod draft_fault;
mod file_change;
mod header;
mod open_fault;
mod opened;
mod opening;
mod page_file;
mod placed_saving;
mod placing;
mod placing_making;
mod reply;
mod save_fault;
mod saving;
mod ward_change;
mod ward_lows;
mod ward_tables;
