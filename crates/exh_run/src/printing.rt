//! What a command prints, and what is said where it isn't printed.
ghost use Rattle.std.specs.Prelude.{◌≡◌, [], IsFalse};
ghost use Rattle.exh_stream.specs.Output.{SameWriter, held, pending, writer_failed};
ghost use Rattle.exh_job.specs.LastLine.{TellsLine};
ghost use Rattle.exh_run.specs.Ends.{EndsText};

use crate::Run;
use crate::refusal::refuse_unprinted;
use exh_job::{Status, print_line};
use exh_stream::Output;
use std::alloc::AllocError;
use std::io::Write;

/// Prints a text on an output that holds nothing back and whose writer hasn't failed, and answers the status with which the
/// program ends: this one where the text went out, else `Refused`. Then standard error says so, and whether a change is saved.
pub fn tell_text<W: Write>(
    run: &Run<'_>,
    text: Result<Vec<u8>, AllocError>,
    status: Status,
    is_saved: bool,
    output: &mut Output<'_, W>,
) -> Status
    requires open { IsFalse (writer_failed output.old) }
    requires empty { pending output.old ≡ [] }
    ensures same_writer { SameWriter output.old output.new }
    ensures told { EndsText (λ text. text.items) (held W.contents output.old) (held W.contents output.new) (writer_failed output.new) text status result }
{
    match text {
        Ok(text) => tell_bytes(run, &text, status, is_saved, output),
        Err(_) => refuse_unprinted(run, is_saved),
    }
}

// The same of a text that there is.
fn tell_bytes<W: Write>(
    run: &Run<'_>,
    text: &[u8],
    status: Status,
    is_saved: bool,
    output: &mut Output<'_, W>,
) -> Status
    requires open { IsFalse (writer_failed output.old) }
    requires empty { pending output.old ≡ [] }
    ensures same_writer { SameWriter output.old output.new }
    ensures told { TellsLine (held W.contents output.old) (held W.contents output.new) (writer_failed output.new) text.now status result }
{
    match print_line(output, text) {
        Ok(()) => status,
        Err(_) => refuse_unprinted(run, is_saved),
    }
}
