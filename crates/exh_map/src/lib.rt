//! The pairs of a page file in memory: calls answered over its wards, its pairs in order, and why a call is refused.
//!
//! Copies and readings of one state of a page file, beside others that change it.
#![tactic(auto)]

pub use exh_in_place::{
    Answered, Blocks, BytesBlocks, CHANGER, DirectFault, DiskFault, Draft, Expected, FileBlocks,
    FileForm, FilesFault, Form, INPUT, InMemory, InPlaceFault, KeyIs, LogFault, NAME_LIMIT, Opened,
    OpenedFile, PageLog, PlacedForm, Placing, PutIf, Reading, Reason, ReasonReader, Refused,
    SaveFilesFault, SeenFiles, Stamps, Standing, SystemDisk, SystemFile, Truthful, WAIT,
    above_limit, answer_in_place, answer_over, change_at, change_file, draw_stamp, file_size_limit,
    find_any, front_of, hold_still, is_at, is_name_beside, legal_bytes_are_files,
    legal_files_are_whole, lock_soon, look_at, open, open_above, open_form, open_regular,
    pause_after, put_at, read_one_state, read_with_log, recover_at, save_at, save_files,
    save_in_place, see_log, see_room_for_copy, share_soon, stand_still, tell_reason, with_reason,
};
pub use exh_ward::new_wards;
pub use fault::BackupFault;
pub use file_map::FileMap;
pub use page_file_copy::{backup, backup_within};
pub use pairs::Pairs;
pub use put::Put;
pub use put_new::PutNew;
pub use reading::{read_beside, read_still};
pub use settings::{Settings, USUAL};
pub use sizes::{key_of, value_of};
pub use source::{opened_at, see_old_version, unread_at, unread_file};
pub use store_error::StoreError;
pub use stray_log::see_no_log;
pub use swap::Swap;
pub use waiting::{TRIES, is_replaced};

mod answering;
mod beside;
mod blocks;
mod copying;
mod fault;
mod file_map;
mod histories;
mod page_file_copy;
mod pairs;
mod places;
mod put;
mod put_new;
mod reading;
mod settings;
mod sizes;
mod source;
mod store_error;
mod stray_log;
mod swap;
mod target;
mod waiting;
mod ward_pairs;
