//! What the program tells of itself on standard output.
ghost use Rattle.std.specs.Prelude.{◌≡◌, [], IfOk, IsFalse, OnErr, string_bytes};
ghost use Rattle.exh_stream.specs.Output.{SameWriter, held, pending, writer_failed};
ghost use Rattle.exh_everyday.specs.LastLine.{TellsLine};
ghost use Rattle.exh_everyday.specs.declared.Status.TheVariants.{Done};
ghost use Rattle.exh_cli.specs.Telling.{TellsNoMemory};

use exh_command::{PROGRAM_VERSION, manual_text};
use exh_everyday::{OUT_OF_MEMORY, Status, print_last, tell_line};
use exh_stream::Output;
use std::alloc::{AllocError, Global};
use std::io;
use std::io::Write;

/// Prints the program's version, and says with which status the program ends.
pub(crate) fn tell_version(rt: &HostRuntime) -> Status {
    let text = format!(in rt.alloc(); "exhash {PROGRAM_VERSION}\n");
    tell_text(text, &mut Output::new(&mut io::writer(rt)))
}

/// Prints what help tells of the program, or of one of its commands, and says with which status the program ends.
pub(crate) fn tell_manual(rt: &HostRuntime, command: Option<&str>) -> Status {
    let text = manual(rt.alloc(), command);
    tell_text(text, &mut Output::new(&mut io::writer(rt)))
}

// The text of the help.
fn manual(alloc: Global, command: Option<&str>) -> Result<String, AllocError> {
    let told = manual_text(alloc, command)?;
    format!(in alloc; "{told}")
}

// Prints a text, or that there was no memory for it, on an output that holds nothing back and whose writer hasn't failed.
fn tell_text<W: Write>(text: Result<String, AllocError>, output: &mut Output<'_, W>) -> Status
    requires open { IsFalse (writer_failed output.old) }
    requires empty { pending output.old ≡ [] }
    ensures same_writer { SameWriter output.old output.new }
    ensures ok { IfOk text (λ text. TellsLine (held W.contents output.old) (held W.contents output.new) (writer_failed output.new) (string_bytes text) Done result) }
    ensures err { OnErr text (TellsNoMemory (held W.contents output.old) (held W.contents output.new) (writer_failed output.new) result) }
{
    match text {
        Ok(text) => tell_line(text.as_bytes(), Status::Done, output),
        Err(_) => tell_out_of_memory(output),
    }
}

// Says that memory ran out.
fn tell_out_of_memory<W: Write>(output: &mut Output<'_, W>) -> Status
    requires open { IsFalse (writer_failed output.old) }
    requires empty { pending output.old ≡ [] }
    ensures same_writer { SameWriter output.old output.new }
    ensures told { TellsNoMemory (held W.contents output.old) (held W.contents output.new) (writer_failed output.new) result }
{
    print_last(output, OUT_OF_MEMORY);
    Status::Refused
}
