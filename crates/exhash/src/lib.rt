//! A keyed record file for programs: a store, whose pairs are in memory until they are committed, and calls that go directly
//! to a page file.
//!
//! The calls that changed a map of pairs since it was saved.
#![tactic(auto)]

pub use calls_commit::commit_calls;
pub use direct::Direct;
pub use disk_commit::commit_files;
pub use exh_keyer::AnyKeyer as Keyer;
pub use exh_map::{
    Answered, BackupFault, BytesBlocks, CHANGER, Expected, FileBlocks, FileForm, FileMap,
    FilesFault, INPUT, KeyIs, LogFault, Opened, PageLog, Pairs, Put, PutIf, PutNew, Reading,
    Reason, SaveFilesFault, SeenFiles, Settings, StoreError, Swap, USUAL, answer_over, backup,
    backup_within, change_file, find_any, legal_bytes_are_files, open_regular, pause_after,
    read_beside, read_still, save_files, see_log, unread_at, with_reason,
};
pub use exh_page::{KEY_LIMIT, Key, VALUE_LIMIT, Value};
pub use held_file::HeldFile;
pub use new_file::make;
pub use pending::Pending;
pub use reading::{read_whole, read_whole_bytes};
pub use store::Store;

mod calls_commit;
mod change_at;
mod direct;
mod disk_commit;
mod held_file;
mod key_reading;
mod new_file;
mod pending;
mod reading;
mod store;
