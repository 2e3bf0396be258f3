//! The last line that the program prints.
ghost use Rattle.std.specs.Prelude.{◌≡◌, ◌↔◌, [], IsErr, IsFalse, IsTrue, OnErr, OnOk};
ghost use Rattle.std.specs.Io.KnownBytes.{Appends};
ghost use Rattle.exh_stream.specs.Output.{AppendsBeginning, SameWriter, held, pending, writer_failed};
ghost use Rattle.exh_job.specs.LastLine.{PrintsLine, TellsLine, memory_line};

use crate::status::Status;
use exh_stream::{Output, WriteFault};
use std::io::Write;

/// The last line where memory ended the program.
pub const OUT_OF_MEMORY: &[u8] = b"refused 10\n";

/// The only line where a file can't be opened.
pub const UNOPENED: &[u8] = b"refused 41\n";

/// Prints the last line of a program that memory ended, as `print_line` does.
pub fn print_out_of_memory<W: Write>(output: &mut Output<'_, W>) -> Result<(), WriteFault>
    requires open { IsFalse (writer_failed output.old) }
    requires empty { pending output.old ≡ [] }
    ensures same_writer { SameWriter output.old output.new }
    ensures ok { OnOk result (Appends (held W.contents output.old) (held W.contents output.new) memory_line) }
    ensures err { OnErr result (AppendsBeginning (held W.contents output.old) (held W.contents output.new) memory_line) }
    ensures failed { IsErr result ↔ IsTrue (writer_failed output.new) }
{
    print_line(output, OUT_OF_MEMORY)
}

/// Prints a line on an output that holds nothing back and whose writer hasn't failed; or, where the writer fails, a
/// beginning of it.
pub fn print_line<W: Write>(output: &mut Output<'_, W>, line: &[u8]) -> Result<(), WriteFault>
    requires open { IsFalse (writer_failed output.old) }
    requires empty { pending output.old ≡ [] }
    ensures same_writer { SameWriter output.old output.new }
    ensures ok { OnOk result (Appends (held W.contents output.old) (held W.contents output.new) line.now) }
    ensures err { OnErr result (AppendsBeginning (held W.contents output.old) (held W.contents output.new) line.now) }
    ensures failed { IsErr result ↔ IsTrue (writer_failed output.new) }
    ensures printed { PrintsLine (held W.contents output.old) (held W.contents output.new) (writer_failed output.new) line.now }
{
    output.push(line)?;
    output.finish()
}

/// Prints a line as `print_line` does, where a fault of the writer changes no status.
pub fn print_last<W: Write>(output: &mut Output<'_, W>, line: &[u8])
    requires open { IsFalse (writer_failed output.old) }
    requires empty { pending output.old ≡ [] }
    ensures same_writer { SameWriter output.old output.new }
    ensures printed { PrintsLine (held W.contents output.old) (held W.contents output.new) (writer_failed output.new) line.now }
{
    let _ = print_line(output, line);
}

/// Prints a line, and answers the status with which the program ends: this one where the line went out, else `Refused`.
pub fn tell_line<W: Write>(line: &[u8], status: Status, output: &mut Output<'_, W>) -> Status
    requires open { IsFalse (writer_failed output.old) }
    requires empty { pending output.old ≡ [] }
    ensures same_writer { SameWriter output.old output.new }
    ensures told { TellsLine (held W.contents output.old) (held W.contents output.new) (writer_failed output.new) line.now status result }
{
    match print_line(output, line) {
        Ok(()) => status,
        Err(_) => Status::Refused,
    }
}
