//! A save: a file is written beside its path and renamed over it, or linked to it where nothing is there. The order of
//! the calls is code over any disk: the system's, or one in memory, which a test sets.
//!
//! A disk as a save sees it: the calls that a save makes of one, what these tell of files, and why they fail. Disks are
//! the system's, or one in memory, which a test sets.
#![tactic(auto)]

pub use claiming::UNFINISHED;
pub use disk::Disk;
pub use fault::{Call, DiskFault};
pub use folder::folder_of;
pub use found::{Found, Head, Kind, Runner};
pub use leading::leads_to;
pub use locking::hold;
pub use looking::look;
pub use name::file_name_of;
pub use saving::{Saved, save};
pub use seen::Seen;
pub use source::{Source, SourceFault, Watch};
pub use stage::Stage;
pub use target::Target;

mod beside;
mod claiming;
mod disk;
mod dressing;
mod fault;
mod fault_keeper;
mod folder;
mod found;
mod leading;
mod locking;
mod looking;
mod name;
mod names;
mod old;
mod path;
mod saving;
mod seen;
mod source;
mod stage;
mod target;
mod writing;
