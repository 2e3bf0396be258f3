//! The wards of the program's page files, over its stores.

use exh_frames::FileStore;
use exh_load::Opened;

/// The wards of a page file, over the program's stores.
pub type FileWards = Opened<FileStore>;
