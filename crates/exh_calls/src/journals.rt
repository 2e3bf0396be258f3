ghost use Rattle.std.specs.Prelude.{◌≡◌, ℕ, ◌<◌, List, length, slice_get, Some};
ghost use Rattle.exh_calls.specs.declared.journal_entry.JournalEntry.{JournalEntry};

use crate::Journal;
use exh_page::Key;

/// The journals of a file's wards, numbered from 0 on, wherever they lie, and which ward a key belongs
/// to.
pub trait Journals {
    /// The journals' entries, by the numbers of the wards.
    ghost journals_of: { Self → List (List JournalEntry) };

    /// The number of the ward that a key belongs to.
    ghost ward_of: { Self → List ℕ → ℕ };

    /// How many wards there are. It takes no memory.
    fn count(&self) -> usize
        ensures { result ≡ length (journals_of self.now) };

    /// The journal of the ward of this number. It takes no memory.
    fn journal(&self, number: usize) -> &Journal
        requires { number < length (journals_of self.now) }
        ensures { slice_get (journals_of self.now) number ≡ Some result.now.entries };

    /// The number of the ward that the key belongs to. It takes no memory.
    fn ward(&self, key: &Key) -> usize
        ensures { result ≡ ward_of self.now key.now };
}
