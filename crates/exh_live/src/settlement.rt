ghost use Rattle.std.specs.Prelude.{map};
ghost use Rattle.std.specs.Result.{OkIff};
ghost use Rattle.exh_calls.specs.Settled.{IsSettled, answer_count};
ghost use Rattle.exh_live.specs.WardOfKey.{ward_in};

use exh_calls::{Diary, Journal, Journals, Mismatch, Settled};
use exh_keyer::Keyer;
use exh_page::Key;
use exh_prefix::ward_number;
use exh_stores::Pages;
use exh_ward::Ward;

/// Settles the wards of one file, in the order of their numbers, as a closed file gives them, with the
/// diaries of its callers: the diaries are of different callers, each entry of a ward's journal is of one
/// of them, and each diary is, ward by ward and in its order, the entries of its caller in the ward's
/// journal; else a `Mismatch`. A key's ward is that of its pseudokey, by the keyer and the ward bits of the
/// first ward. It takes no memory.
pub fn settle<P: Pages + Drop, K: Keyer>(
    wards: &[Ward<P, K>],
    diaries: &[Diary],
) -> Result<Settled, Mismatch>
    ensures { OkIff result (IsSettled (ward_in K.pseudokey_of wards.now) (map (λ ward. ward.journal) wards.now) diaries.now) (record { answers = answer_count diaries.now }) }
{
    exh_calls::settle(&OwnJournals { wards }, diaries)
}

// The journals of wards, the first of which tells which ward a key belongs to.
#[derive(Drop)]
struct OwnJournals<'a, P: Pages + Drop, K: Keyer> {
    wards: &'a [Ward<P, K>],
}

impl<P: Pages + Drop, K: Keyer> Journals for OwnJournals<'_, P, K> {
    ghost journals_of = { λ own. map (λ ward. ward.journal) own.wards.now };

    ghost ward_of = { λ own key. ward_in K.pseudokey_of own.wards.now key };

    fn count(&self) -> usize {
        self.wards.len()
    }

    fn journal(&self, number: usize) -> &Journal {
        self.wards[number].journal()
    }

    fn ward(&self, key: &Key) -> usize {
        match self.wards.first() {
            Some(ward) => usize::from(ward_number(ward.settings().ward_bits, ward.pseudokey(key))),
            None => 0,
        }
    }
}
