//! Page files of version 3 changed in place under the writers' lock, and read while others change them.
#![tactic(auto)]

pub use bytes_blocks::BytesBlocks;
pub use call::{change_at, put_at};
pub use exh_paged::{
    Answered, Blocks, CHANGER, Draft, DraftFault, Expected, FileFault, FileForm, FileStore,
    FilesFault, Form, KeyIs, LegalFileFault, LogFault, OpenFault, Opened, PlacedForm, Placing,
    PutIf, SaveFault, SaveFilesFault, SeenFiles, Stamps, Truthful, answer_over, change_file,
    change_files, change_ward, find_any, legal_bytes_are_files, open, open_form, recover_files,
    save_files, see_log, write_wards,
};
pub use exh_system::{
    AboveLimit, DirectFault, DiskFault, FileBlocks, INPUT, InPlaceFault, NAME_LIMIT, OpenedFile,
    PageLog, Reason, ReasonReader, SystemDisk, SystemFile, WAIT, above_limit, draw_stamp,
    file_size_limit, front_of, is_at, is_name_beside, lock_soon, look_at, open_above, open_regular,
    pause_after, save_at, see_room_for_copy, share_soon, tell_reason, with_reason,
};
pub use in_memory::InMemory;
pub use laws::legal_files_are_whole;
pub use one_state::{Reading, read_one_state};
pub use recovery::recover_at;
pub use refused::Refused;
pub use saving::{answer_in_place, save_in_place};
pub use standing::{Standing, read_with_log, stand_still};
pub use stillness::hold_still;

mod bytes_blocks;
mod call;
mod cutting;
mod in_memory;
mod laws;
mod locked;
mod one_state;
mod recovery;
mod refused;
mod saving;
mod standing;
mod stillness;
mod system_files;
