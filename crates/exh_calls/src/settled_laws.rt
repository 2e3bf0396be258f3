//! What holds of all diaries and journals that are settled, for the proofs of callers. The function does
//! nothing.

ghost use Rattle.exh_calls.specs.SettledLaws.{SettledBooksAgree};

/// Where diaries and journals are settled, the journals together have as many entries as the diaries,
/// each call of a diary stands in the journal of its key's ward with the reply that its caller got, and
/// two calls of one caller in one ward stand there in the order in which it made them.
pub fn settled_books_agree()
    ensures { SettledBooksAgree }
{}
