//! Page files, in each version: the header and the table blocks, and whole files, from bytes to their parts and back
//! (exhash's own). The parts of a file have exactly one list of bytes in a version, and bytes are those of one file.
#![tactic(auto)]

pub use block_laws::{images_are_blocks, images_pass, one_block_image, one_value};
pub use exh_legal::{
    FileSettings, Kind, Leaf, Page, Reason, Table, keyer_byte, keyer_of_byte, walks_name_homes,
};
pub use file_entry::FileEntry;
pub use file_fault::FileFault;
pub use file_laws::{files_pass, one_file, one_image, same_blocks, written_is_file};
pub use file_parts::FileParts;
pub use header::{
    COUNTS_LEN, FRONT_LEN, Header, MAGIC, NUMBERED_LEN, PLACED_NUMBER, STAMPED_LEN, version_in,
};
pub use items::push_item;
pub use legal_file::LegalFile;
pub use legal_file_fault::LegalFileFault;
pub use legal_reading::read_legal_file;
pub use read_file_fault::ReadFileFault;
pub use reading::{read_file, read_file_into};
pub use table_block::{BLOCK_ENTRIES, decode_entries};
pub use table_writer::TableWriter;

mod block_laws;
mod block_source;
mod file_entry;
mod file_fault;
mod file_laws;
mod file_parts;
mod header;
mod items;
mod legal_file;
mod legal_file_fault;
mod legal_reading;
mod read_file_fault;
mod read_pages;
mod read_table;
mod reading;
mod table_block;
mod table_writer;
mod tables;
mod waiting_images;
