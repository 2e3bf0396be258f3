use crate::{Call, JournalEntry, Reply};

/// A call that was answered, with its reply.
#[derive(Clone, Copy, PartialEq, Eq)]
pub struct DiaryEntry {
    pub call: Call,
    pub reply: Reply,
}

/// What a caller writes down of an entry of a journal: all but its own number.
impl From<JournalEntry> for DiaryEntry {
    ghost use Rattle.std.specs.Prelude.{◌≡◌};
    ghost use Rattle.exh_calls.specs.Diary.{without_client};

    ghost from_gives = { λ entry made. made ≡ without_client entry };

    fn from(entry: JournalEntry) -> DiaryEntry {
        DiaryEntry {
            call: entry.call,
            reply: entry.reply,
        }
    }
}
