//! A ward of pages of two records.
use exh_fixtures::first_store;
use exh_keyer::PlainKeyer;
use exh_stores::PlainPages;
use exh_ward::Ward;
use std::alloc::{AllocError, Global};

/// A ward in memory, of keyer plain.
pub(crate) type PlainWard = Ward<PlainPages, PlainKeyer>;

/// The ward of an empty file of one, of pages of two records.
pub(crate) fn plain_ward(alloc: Global) -> Result<PlainWard, AllocError> {
    let store = first_store(alloc, 0, 0)?;
    Ok(Ward::new(alloc, store, 2, 0, 0, PlainKeyer))
}
