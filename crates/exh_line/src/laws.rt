//! What holds of all answers. The function does nothing.

ghost use Rattle.std.specs.Prelude.{◌≡◌};
ghost use Rattle.exh_line.specs.LineAnswer.{answer_text, told_answer, HasWidths};
ghost use Rattle.exh_line.specs.declared.answer.Answer.{Answer};

/// A printed line tells its answer: two answers that print the same are the same, their numbers and bytes being as wide
/// as those of an answer. Only how many records a refused merge would have come to isn't printed.
pub fn printed_answers_are_one()
    ensures { (one other : Answer) → HasWidths one → HasWidths other → answer_text one ≡ answer_text other → told_answer one ≡ told_answer other }
{}
