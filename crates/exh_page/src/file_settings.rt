ghost use Rattle.std.specs.Prelude.{◌≡◌, ◌↔◌, IsTrue};
ghost use Rattle.exh_page.specs.FileSettings.{AreInRange, are_same};

use crate::{CAP_LIMIT, is_same_keyer};
use exh_keyer::AnyKeyer;
use exh_prefix::WARD_BITS_LIMIT;

/// The settings of a file: a page holds at most `cap` records, 1 to 16; the file is cut into 2^`ward_bits` wards, by
/// 0 to 4 leading bits of pseudokeys; and its keyer.
#[derive(Clone, Copy)]
pub struct FileSettings<K> {
    pub cap: u8,
    pub ward_bits: u8,
    pub keyer: K,
}

impl<K> FileSettings<K> {
    /// Whether the cap and the ward bits are in their ranges.
    pub fn are_in_range(&self) -> bool
        ensures { IsTrue result ↔ AreInRange self.now }
    {
        1 <= self.cap && usize::from(self.cap) <= CAP_LIMIT && self.ward_bits <= WARD_BITS_LIMIT
    }
}

impl FileSettings<AnyKeyer> {
    /// Whether these are the same as others.
    pub fn are_same(&self, other: &FileSettings<AnyKeyer>) -> bool
        ensures { result ≡ are_same self.now other.now }
    {
        self.cap == other.cap
            && self.ward_bits == other.ward_bits
            && is_same_keyer(self.keyer, other.keyer)
    }
}
