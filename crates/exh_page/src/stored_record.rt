ghost use Rattle.std.specs.Prelude.{◌≡◌, ◌≤◌, length, take};
ghost use Rattle.exh_page.specs.declared.key.TheConstants.{KEY_LIMIT};
ghost use Rattle.exh_page.specs.declared.value.TheConstants.{VALUE_LIMIT};
ghost use Rattle.exh_page.specs.Place.{place_cmp};
ghost use Rattle.exh_page.specs.PackedRecords.{stored_of, text_len};

use crate::Key;
use std::cmp::Ordering;

/// What is kept of a record beside its bytes: its pseudokey, how long its key is, and how long its key
/// and value are together, which is what a walk over records adds up.
#[derive(Clone, Copy)]
pub(crate) struct StoredRecord {
    pub(crate) pseudokey: u64,
    pub(crate) key_len: u8,
    pub(crate) whole_len: u8,
}

impl StoredRecord {
    /// What is kept of a record.
    pub(crate) fn of(pseudokey: u64, key: &[u8], value: &[u8]) -> StoredRecord
        requires key { length key.now ≤ KEY_LIMIT }
        requires value { length value.now ≤ VALUE_LIMIT }
        ensures { result ≡ stored_of (record { pseudokey = pseudokey; key = key.now; value = value.now }) }
    {
        StoredRecord {
            pseudokey,
            key_len: key.len() as u8,
            whole_len: (key.len() + value.len()) as u8,
        }
    }

    /// How many bytes the key and the value have together.
    pub(crate) fn text_len(&self) -> usize
        ensures { result ≡ text_len self.now }
    {
        usize::from(self.whole_len)
    }

    /// How the record's place compares with another: by pseudokey, then by key. The
    /// text begins with the record's bytes.
    pub(crate) fn cmp_place(&self, text: &[u8], pseudokey: u64, key: &Key) -> Ordering
        requires { self.now.key_len ≤ length text.now }
        ensures { result ≡ place_cmp (self.now.pseudokey, take self.now.key_len text.now) (pseudokey, key.now) }
    {
        // A search meets lesser pseudokeys first, and a tie at its last step alone.
        if self.pseudokey < pseudokey {
            return Ordering::Less;
        }
        if self.pseudokey > pseudokey {
            return Ordering::Greater;
        }
        text[..usize::from(self.key_len)].cmp(&key.as_bytes())
    }
}
