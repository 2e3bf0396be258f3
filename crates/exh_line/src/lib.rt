//! The lines of a script after its first: what each asks, what it may be answered, and what is printed of that.
#![tactic(auto)]

pub use answer::Answer;
pub use answer_text::{push_answer, push_outcome, push_refusal, push_request, push_standing};
pub use call_words::CallWords;
pub use laws::printed_answers_are_one;
pub use line::{Line, parse_call, parse_line};
pub use line_start::{BeginWords, LineStart};
pub use moves::{Moves, Told};
pub use refusal::Refusal;
pub use short_step::ShortStep;
pub use view::View;
pub use view_text::{push_page, push_shown};

mod answer;
mod answer_text;
mod call_words;
mod laws;
mod line;
mod line_start;
mod moves;
mod refusal;
mod short_step;
mod view;
mod view_text;
