//! What the program asks of the system about page files: their blocks, stamps, locks and logs, and the limit on their size.
//!
//! The page file of a path: wards are saved there so that the file that was there is never lost.
#![tactic(auto)]

pub use exh_direct::DirectFault;
pub use exh_file::{Draft, Opened, ReasonReader, open};
pub use exh_saving::{DiskFault, Seen};
pub use exh_stores::Pages;
pub use file_blocks::{FileBlocks, open_regular};
pub use fit::{NAME_LIMIT, is_at, see_fit};
pub use front::{Front, front_of};
pub use in_place_fault::InPlaceFault;
pub use lock_way::{LockWay, WAIT, lock_within, pause_after};
pub use log_making::make_log;
pub use name_beside::is_name_beside;
pub use opening::open_above;
pub use page_log::PageLog;
pub use path::{look_at, save_at};
pub use read_state::{Begun, ReadState, begin_reading};
pub use said::{INPUT, Reason, tell_damaged_header, tell_reason, with_reason};
pub use size_limit::{AboveLimit, above_limit, file_size_limit, see_room, see_room_for_copy};
pub use stamp::draw_stamp;
pub use system_disk::{OpenedFile, SystemDisk, SystemFile, SystemHeld};
pub use writers_lock::{lock_soon, share_soon};

mod file_blocks;
mod fit;
mod found;
mod front;
mod in_place_fault;
mod lock_way;
mod log_making;
mod mount;
mod name_beside;
mod opening;
mod page_log;
mod path;
mod read_state;
mod said;
mod size_limit;
mod stamp;
mod system_disk;
mod unfinished;
mod wards;
mod writers_lock;
