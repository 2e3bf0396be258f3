ghost use Rattle.std.specs.Prelude.{◌≤◌, map};
ghost use Rattle.exh_page.specs.PrefixLimits.{WARD_BITS_LIMIT};
ghost use Rattle.exh_page.specs.Leading.{ward_of};

use crate::{Journal, Journals};
use exh_page::{Key, Keyer};

/// Journals in the order of their wards' numbers, of a file that is cut by this many leading bits of
/// pseudokeys, 0 to 4.
#[derive(Drop)]
pub struct FileJournals<'a, K: Keyer> {
    pub ward_bits: u8,
    pub keyer: K,
    pub journals: &'a [Journal],
    ghost bits: { ward_bits ≤ WARD_BITS_LIMIT },
}

impl<K: Keyer> Journals for FileJournals<'_, K> {
    ghost journals_of = { λ file. map (λ journal. journal.entries) file.journals.now };

    ghost ward_of = { λ file key. ward_of file.ward_bits (K.pseudokey_of file.keyer key) };

    fn count(&self) -> usize {
        self.journals.len()
    }

    fn journal(&self, number: usize) -> &Journal {
        &self.journals[number]
    }

    fn ward(&self, key: &Key) -> usize {
        usize::from(exh_page::ward_number(self.ward_bits, self.keyer.pseudo(key.as_bytes())))
    }
}
