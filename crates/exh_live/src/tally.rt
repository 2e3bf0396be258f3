ghost use Rattle.std.specs.Prelude.{◌≡◌, ◌+◌, ◌<◌, ◌≤◌};
ghost use Rattle.exh_live.specs.declared.ledgers.TheConstants.{ANSWER_PARTS, ENTRY_PARTS};

use crate::Identity;
use crate::ledgers::{Answers, Entries};
use std::sync::Mutex;
use std::sync::ledger::{Book, Share};

/// The lock of a file's tally.
pub(crate) type TallyLock<F> = Mutex<Tally<F>>;

/// What the tally's lock keeps: the books of answers and of journal entries, which are equal.
#[derive(Drop)]
pub(crate) struct Tally<F: Identity> {
    answers: Book<Answers<F>>,
    entries: Book<Entries<F>>,
    ghost equal: { answers.total ≡ entries.total },
}

impl<F: Identity> Tally<F> {
    /// The tally of a file that answered nothing.
    pub(crate) fn new(answers: Book<Answers<F>>, entries: Book<Entries<F>>) -> Tally<F>
        requires { answers.total ≡ entries.total }
    {
        Tally { answers, entries }
    }

    /// Adds a unit to each book: one answer, in a seat's share, and one entry, in a ward's share.
    pub(crate) fn count(&mut self, answers: &mut Share<Answers<F>>, entries: &mut Share<Entries<F>>)
        requires seat { 0 < answers.old.parts }
        requires ward { 0 < entries.old.parts }
        ensures answers { answers.new.amount ≡ answers.old.amount + 1 }
        ensures entries { entries.new.amount ≡ entries.old.amount + 1 }
        ensures seat { answers.new.parts ≡ answers.old.parts }
        ensures ward { entries.new.parts ≡ entries.old.parts }
    {
        self.answers.add(answers, 1);
        self.entries.add(entries, 1);
    }

    /// No share has more parts than its ledger was cut into. Shares that have all parts of theirs are the
    /// books, so they are equal.
    pub(crate) fn audit(&mut self, answers: &mut Share<Answers<F>>, entries: &mut Share<Entries<F>>)
        ensures answers { answers.old.parts ≤ ANSWER_PARTS }
        ensures entries { entries.old.parts ≤ ENTRY_PARTS }
        ensures equal { answers.old.parts ≡ ANSWER_PARTS → entries.old.parts ≡ ENTRY_PARTS → answers.old.amount ≡ entries.old.amount }
    {
        // What is put to a share tells how many parts both have at most.
        let no_answers = answers.empty();
        answers.merge(no_answers);
        let no_entries = entries.empty();
        entries.merge(no_entries);
        self.answers.audit(answers);
        self.entries.audit(entries);
    }
}
