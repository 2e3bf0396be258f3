//! What the everyday commands print of answers.
ghost use Rattle.std.specs.Prelude.{◌≡◌, [], IsFalse};
ghost use Rattle.exh_stream.specs.Output.{SameWriter, held, pending, writer_failed};
ghost use Rattle.exh_transfer.specs.Ends.{Ends, Says};
ghost use Rattle.exh_everyday.specs.Answers.{answer_line, answer_status};
ghost use Rattle.exh_everyday.specs.Endings.{found_ended};

use crate::answer::Answer;
use crate::found::Found;
use exh_stream::Output;
use exh_transfer::{Run, Status, tell_absent, tell_text};
use std::io::Write;

/// Prints the answer to a change, which is saved where the change is made.
pub(crate) fn tell_answer<W: Write>(
    run: &Run<'_>,
    answer: &Answer,
    output: &mut Output<'_, W>,
) -> Status
    requires open { IsFalse (writer_failed output.old) }
    requires empty { pending output.old ≡ [] }
    ensures same_writer { SameWriter output.old output.new }
    ensures ends { Ends (Says (answer_line run.now.form.is_hex answer.now) (answer_status answer.now)) (held W.contents output.old) (held W.contents output.new) (writer_failed output.new) result }
{
    let line = answer.line(run.rt.alloc(), run.form.is_hex);
    let status = answer.status();
    tell_text(run, line, status, matches!(status, Status::Done), output)
}

/// Prints the keys that were found, each with its value behind these words; the others are said on standard error. Whether
/// a change is saved stands for `tell_text`.
pub(crate) fn tell_found<W: Write>(
    run: &Run<'_>,
    words: &str,
    found: &Found,
    is_saved: bool,
    output: &mut Output<'_, W>,
) -> Status
    requires open { IsFalse (writer_failed output.old) }
    requires empty { pending output.old ≡ [] }
    ensures same_writer { SameWriter output.old output.new }
    ensures ends { Ends (found_ended words.now run.now.form.is_hex found.now) (held W.contents output.old) (held W.contents output.new) (writer_failed output.new) result }
{
    for key in &found.absent {
        tell_absent(run.rt, run.path, key);
    }
    let text = found.lines(run.rt.alloc(), words, run.form.is_hex);
    tell_text(run, text, found.status(), is_saved, output)
}
