//! Page files of version 3 over any disk, with a log: operations that they answer, and wards that are saved over them, so that
//! a crash leaves the pairs from before or those from after.
#![tactic(auto)]

pub use answered::Answered;
pub use answering::answer_files;
pub use draft_saving::save_files;
pub use exh_cells::{StampedHeader, stamped_headers_pass};
pub use exh_change::{Blocks, find_any};
pub use exh_commit::{
    ChangeFault, CommitFault, DifferingFault, LogFault, SeenFiles, Truthful, blocks_stand, see_log,
};
pub use exh_file::{
    CHANGER, Draft, DraftFault, FileFault, FileForm, FileStore, Form, LegalFileFault, OpenFault,
    Opened, PlacedForm, Placing, SaveFault, Stamps, change_file, change_ward,
    legal_bytes_are_files, open, open_form, write_wards,
};
pub use expected::Expected;
pub use files_change::change_files;
pub use files_fault::FilesFault;
pub use operation::Operation;
pub use put_if::{KeyIs, PutIf};
pub use reader_recovery::{may_be_copied, recover_for_reader};
pub use recovery::recover_files;
pub use save_files_fault::SaveFilesFault;
pub use state_calls::answer_over;

mod answered;
mod answering;
mod call;
mod calls;
mod draft_edits;
mod draft_saving;
mod expected;
mod files_change;
mod files_fault;
mod header;
mod opening;
mod operated;
mod operation;
mod own_stamp;
mod put_if;
mod put_operation;
mod reader_recovery;
mod recovery;
mod save_files_fault;
mod saving;
mod state_calls;
