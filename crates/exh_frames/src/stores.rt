//! The stores of the program's pages: which they are is said here alone.

use crate::{FramedMaker, FramedPages};
use exh_keyer::AnyKeyer;

/// A store of the pages of a page file.
pub type FileStore = FramedPages<AnyKeyer>;

/// Makes the program's stores, each behind a cache of 64 decoded pages.
pub const MAKER: FramedMaker = FramedMaker { size: 64 };
