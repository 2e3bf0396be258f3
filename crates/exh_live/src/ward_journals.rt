ghost use Rattle.std.specs.Prelude.{◌≤◌, map};
ghost use Rattle.exh_prefix.specs.declared.prefix.TheConstants.{WARD_BITS_LIMIT};
ghost use Rattle.exh_prefix.specs.Leading.{ward_of};

use exh_calls::{Journal, Journals};
use exh_keyer::Keyer;
use exh_page::Key;
use exh_prefix::ward_number;
use exh_stores::Pages;
use exh_ward::Ward;

/// The journals of wards in the order of their numbers, as a closed file gives them, of a file that is
/// cut by this many leading bits of pseudokeys, 0 to 4: what its diaries are settled with.
#[derive(Drop)]
pub struct WardJournals<'a, P: Pages + Drop, K: Keyer> {
    pub ward_bits: u8,
    pub keyer: K,
    pub wards: &'a [Ward<P, K>],
    ghost bits: { ward_bits ≤ WARD_BITS_LIMIT },
}

impl<P: Pages + Drop, K: Keyer> Journals for WardJournals<'_, P, K> {
    ghost journals_of = { λ file. map (λ ward. ward.journal) file.wards.now };

    ghost ward_of = { λ file key. ward_of file.ward_bits (K.pseudokey_of file.keyer key) };

    fn count(&self) -> usize {
        self.wards.len()
    }

    fn journal(&self, number: usize) -> &Journal {
        self.wards[number].journal()
    }

    fn ward(&self, key: &Key) -> usize {
        usize::from(ward_number(self.ward_bits, self.keyer.pseudo(key.as_bytes())))
    }
}
