ghost use Rattle.std.specs.Prelude.{◌≡◌, ◌↔◌, ℕ, All, IsTrue, IsFalse};
ghost use Rattle.std.specs.Iterator.{YieldsFirst};
ghost use Rattle.std.specs.Result.{OkIff};
ghost use Rattle.exh_calls.specs.declared.journal_entry.JournalEntry.{JournalEntry as JournalEntryType};
ghost use Rattle.exh_calls.specs.Diary.{DiaryState};
ghost use Rattle.exh_calls.specs.Beside.{AreOver, Differs, GoesOn, IsSameFrom, of_caller_from};
ghost use Rattle.exh_calls.specs.Settled.{AreApart, IsOfOne, IsSameIn, IsSettled, answer_count};

use crate::{Diary, DiaryEntry, Journal, Journals, Mismatch};

// So many journals are walked beside a diary at once: those of all wards that a file may have.
const ROW: usize = 16;

/// What settled diaries and journals have in common.
#[derive(Clone, Copy)]
pub struct Settled {
    /// How many calls were answered: the number of all entries of the diaries, which is that of the
    /// journals. It is wide enough for any diaries.
    pub answers: u128,
}

/// Settles diaries with the journals of the wards: the diaries are of different callers, each entry of
/// a journal is of one of them, and each diary is, ward by ward and in its order, the entries of its
/// caller in that ward's journal; else a `Mismatch`. It takes no memory, and time as the journals have
/// entries times the diaries; but of an entry of others its caller alone is read, and of up to 16 wards
/// each key is hashed once.
pub fn settle<J: Journals>(journals: &J, diaries: &[Diary]) -> Result<Settled, Mismatch>
    ensures { OkIff result (IsSettled (J.ward_of journals.now) (J.journals_of journals.now) diaries.now) (record { answers = answer_count diaries.now }) }
{
    if are_apart(diaries) && are_known(journals, diaries) && are_same(journals, diaries) {
        Ok(Settled {
            answers: answers(diaries),
        })
    } else {
        Err(Mismatch)
    }
}

// Whether the diaries are of different callers.
fn are_apart(diaries: &[Diary]) -> bool
    ensures { IsTrue result ↔ AreApart diaries.now }
{
    for (at, diary) in diaries.iter().enumerate() {
        if is_of_one(diary.client(), &diaries[..at]) {
            return false;
        }
    }
    true
}

// Whether one of the diaries is this caller's.
fn is_of_one(client: u32, diaries: &[Diary]) -> bool
    ensures { IsTrue result ↔ IsOfOne diaries.now client }
{
    diaries.iter().any(|diary| diary.client() == client)
}

// Whether each entry of the journals is of one of the diaries.
fn are_known<J: Journals>(journals: &J, diaries: &[Diary]) -> bool
    ensures { IsTrue result ↔ All (All (λ (entry : JournalEntryType). IsOfOne diaries.now entry.client)) (J.journals_of journals.now) }
{
    for number in 0..journals.count() {
        if !is_known(journals.journal(number), diaries) {
            return false;
        }
    }
    true
}

// Whether each entry of a journal is of one of the diaries. Of an entry its caller alone is read.
fn is_known(journal: &Journal, diaries: &[Diary]) -> bool
    ensures { IsTrue result ↔ All (λ (entry : JournalEntryType). IsOfOne diaries.now entry.client) journal.now.entries }
{
    for at in 0..journal.len() {
        // Each place has an entry.
        let client = journal.client(at).unwrap();
        if !is_of_one(client, diaries) {
            return false;
        }
    }
    true
}

// Whether each diary is, ward by ward, the entries of its caller in the ward's journal.
fn are_same<J: Journals>(journals: &J, diaries: &[Diary]) -> bool
    ensures { IsTrue result ↔ All (λ (diary : DiaryState). (number : ℕ) → IsSameIn (J.ward_of journals.now) (J.journals_of journals.now) diary number) diaries.now }
{
    diaries.iter().all(|diary| is_same(journals, diary))
}

// Whether a diary is, ward by ward, the entries of its caller in the ward's journal.
fn is_same<J: Journals>(journals: &J, diary: &Diary) -> bool
    ensures { IsTrue result ↔ ((number : ℕ) → IsSameIn (J.ward_of journals.now) (J.journals_of journals.now) diary.now number) }
{
    // One row also where no ward is there: the diary has no entry then.
    let rows = journals.count().saturating_sub(1) / ROW + 1;
    for row in 0..rows {
        if !is_same_from(journals, diary, row * ROW) {
            return false;
        }
    }
    true
}

// Whether the keys of a diary belong to wards that are there, and its entries in each ward of the row
// that begins with a number are those of its caller in the ward's journal. The diary is walked once.
fn is_same_from<J: Journals>(journals: &J, diary: &Diary, first: usize) -> bool
    ensures { IsTrue result ↔ IsSameFrom (J.ward_of journals.now) (J.journals_of journals.now) diary.now first }
{
    let client = diary.client();
    let mut places = [0; ROW];
    for entry in diary.iter() {
        if !is_next(journals, client, &entry, first, &mut places) {
            return false;
        }
    }
    are_over(journals, client, first, &places)
}

// Whether two entries are the same.
fn is_equal(one: &DiaryEntry, other: &DiaryEntry) -> bool
    ensures { IsTrue result ↔ (one.now ≡ other.now) }
{
    one == other
}

// Whether an entry of a caller's diary is of a ward that is there and, where that is one of the row,
// the caller's next one in the ward's journal, whose place moves behind it.
fn is_next<J: Journals>(
    journals: &J,
    client: u32,
    entry: &DiaryEntry,
    first: usize,
    places: &mut [usize; ROW],
) -> bool
    ensures goes_on { IsTrue result → GoesOn (J.ward_of journals.now) (J.journals_of journals.now) client first entry.now places.old places.new }
    ensures differs { IsFalse result → Differs (J.ward_of journals.now) (J.journals_of journals.now) client first entry.now places.old }
{
    let number = journals.ward(entry.call.key());
    if number >= journals.count() {
        return false;
    }
    if number < first || number - first >= ROW {
        return true;
    }
    match next_of(
        journals.journal(number),
        client,
        &mut places[number - first],
    ) {
        Some(told) => is_equal(&told, entry),
        None => false,
    }
}

// Whether the journals of the row have no more entries of the caller, from their places on.
fn are_over<J: Journals>(journals: &J, client: u32, first: usize, places: &[usize; ROW]) -> bool
    ensures { IsTrue result ↔ AreOver (J.journals_of journals.now) client first places.now }
{
    let end = journals.count().min(first.saturating_add(ROW));
    for number in first..end {
        let mut place = places[number - first];
        if next_of(journals.journal(number), client, &mut place).is_some() {
            return false;
        }
    }
    true
}

// The next entry of a caller, as it writes it down, of a journal from a place on, which moves behind it,
// or to the end. Of the entries of others the caller alone is read.
fn next_of(journal: &Journal, client: u32, place: &mut usize) -> Option<DiaryEntry>
    ensures { YieldsFirst (of_caller_from client journal.now.entries) place.old result place.new }
{
    while *place < journal.len() {
        let at = *place;
        *place += 1;
        // Each place has an entry.
        let caller = journal.client(at).unwrap();
        if caller == client {
            let entry = journal.get(at).unwrap();
            return Some(DiaryEntry::from(entry));
        }
    }
    None
}

// How many calls the callers were answered.
fn answers(diaries: &[Diary]) -> u128
    ensures { result ≡ answer_count diaries.now }
{
    let mut answers = 0;
    for diary in diaries {
        answers += diary.len() as u128;
    }
    answers
}
