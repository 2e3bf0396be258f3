//! A file of blocks of 4,096 bytes, changed in place over a pager with a log, so that a crash leaves the old bytes or the
//! new ones.
#![tactic(auto)]

pub use asked::Asked;
pub use before::Before;
pub use change_fault::ChangeFault;
pub use changer::Changer;
pub use changing::change_file;
pub use commit_fault::CommitFault;
pub use exh_edits::{BlockEdit, Blocks, Differing, DifferingFault, DirectFault, blocks_stand};
pub use laws::files_alone_have_bytes;
pub use log_fault::LogFault;
pub use log_look::see_log;
pub use opening::open;
pub use paged_file::PagedFile;
pub use seen_files::SeenFiles;
pub use truthful::Truthful;

mod asked;
mod before;
mod change_fault;
mod changer;
mod changing;
mod commit_fault;
mod known;
mod laws;
mod log_fault;
mod log_header;
mod log_line;
mod log_look;
mod opening;
mod paged_file;
mod paging;
mod seen_files;
mod seen_reads;
mod truthful;
mod writing;
