//! The everyday commands about all pairs of a page file: what each prints of what the library answers, what standard error
//! says where it is refused, and the status with which the program ends.
#![tactic(auto)]

pub use compacting::compact;
pub use counting::stats;
pub use exh_map::{Put, PutNew, Reading, StoreError, Swap};
pub use exh_run::{
    BackupFault, BytesBlocks, Direct, Ending, FileBlocks, FileWards, HeldFile, INPUT, JobPath,
    MAKER, OUT_OF_MEMORY, OtherSettings, Reason, Run, Settings, Status, Store, Topic,
    backup_within, console, convert, find_any, input_keys, input_value, is_nothing_at, load,
    made_status, make, opened_at, path_of, pause_after, print_last, print_line,
    print_out_of_memory, read_beside, refuse_change, refuse_reading, save, save_new, save_of_job,
    tell_absent, tell_line, tell_path, tell_reason, tell_refused, tell_text, unread_at, warn,
    with_reason,
};
pub use exporting::export;
pub use importing::import;
pub use laws::{exports_are_imported, exports_give_their_map, imports_leave_their_map};
pub use salvage_laws::legal_files_are_saved;
pub use salvaging::salvage;

mod blocks_with_log;
mod compacting;
mod counting;
mod exporting;
mod import_ending;
mod import_refusal;
mod importing;
mod laws;
mod open_blocks;
mod outcome;
mod pair_store;
mod progress;
mod rejected;
mod rejects_file;
mod salvage_laws;
mod salvage_notes;
mod salvaging;
