//! Opens the page file of a run as wards, or prints its refusal as `check` does.
ghost use Rattle.std.specs.Prelude.{◌≡◌, ◌⊎◌, [], IfErr, IfOk, IsErrAnd, IsFalse};
ghost use Rattle.exh_stream.specs.Output.{SameWriter, held, pending, writer_failed};
ghost use Rattle.exh_job.specs.LastLine.{PrintsLine, memory_line};
ghost use Rattle.exh_job.specs.OpenRun.{IsUnread, OpensOrTells, open_refusal_line};

use crate::last_line::{OUT_OF_MEMORY, UNOPENED, print_last};
use crate::stores::FileWards;
use exh_load::{FileForm, OpenFault, open_form};
use exh_report::push_refusal;
use exh_stream::Output;
use exh_text::{push_refused, push_text};
use std::alloc::{AllocError, Global};
use std::io;
use std::io::{Read, Write};

/// Why a page file isn't opened as wards, which is told.
#[derive(Clone, Copy, Debug)]
pub enum Unopened {
    /// The system doesn't open it.
    Unread,
    /// It is refused.
    Refused(OpenFault),
}

/// Opens a page file as wards, with how it has its pages in places; `opened` is the result of opening it. A file that is
/// refused is refused on `output`, which holds nothing back and whose writer hasn't failed: by the line of `check`, or
/// after want of memory by `refused 10`.
///
/// An `Err`: why it isn't opened. The program ends with `Refused`.
pub fn open_file<F: Read + Drop, W: Write>(
    alloc: Global,
    opened: io::Result<F>,
    output: &mut Output<'_, W>,
) -> Result<(FileWards, FileForm), Unopened>
    requires open { IsFalse (writer_failed output.old) }
    requires empty { pending output.old ≡ [] }
    ensures same_writer { SameWriter output.old output.new }
    ensures read { IfOk opened (λ file.
        OpensOrTells (held W.contents output.old) (held W.contents output.new) (writer_failed output.new) (F.remaining file) result) }
    ensures unopened { IfErr opened (λ fault. IsErrAnd result
        (IsUnread (held W.contents output.old) (held W.contents output.new) (writer_failed output.new))) }
{
    match opened {
        Ok(mut file) => open_bytes(alloc, &mut file, output),
        Err(_) => {
            print_last(output, UNOPENED);
            Err(Unopened::Unread)
        }
    }
}

// The same of the bytes of a reader.
fn open_bytes<R: Read, W: Write>(
    alloc: Global,
    reader: &mut R,
    output: &mut Output<'_, W>,
) -> Result<(FileWards, FileForm), Unopened>
    requires open { IsFalse (writer_failed output.old) }
    requires empty { pending output.old ≡ [] }
    ensures same_writer { SameWriter output.old output.new }
    ensures opens { OpensOrTells (held W.contents output.old) (held W.contents output.new) (writer_failed output.new) (R.remaining reader.old) result }
{
    match open_form(alloc, reader) {
        Ok(opened) => Ok(opened),
        Err(fault) => {
            tell_fault(alloc, fault, output);
            Err(Unopened::Refused(fault))
        }
    }
}

// Prints the line of a refusal, or that there was no memory for it.
fn tell_fault<W: Write>(alloc: Global, fault: OpenFault, output: &mut Output<'_, W>)
    requires open { IsFalse (writer_failed output.old) }
    requires empty { pending output.old ≡ [] }
    ensures same_writer { SameWriter output.old output.new }
    ensures told { PrintsLine (held W.contents output.old) (held W.contents output.new) (writer_failed output.new) (open_refusal_line fault)
        ⊎ PrintsLine (held W.contents output.old) (held W.contents output.new) (writer_failed output.new) memory_line }
{
    match refusal_line(alloc, fault) {
        Ok(line) => print_last(output, &line),
        Err(_) => print_last(output, OUT_OF_MEMORY),
    }
}

fn refusal_line(alloc: Global, fault: OpenFault) -> Result<Vec<u8>, AllocError>
    ensures { IfOk result (λ line. line.items ≡ open_refusal_line fault) }
{
    let mut line = Vec::new(alloc);
    match fault {
        OpenFault::File(fault) => push_refusal(&mut line, fault)?,
        OpenFault::Page => {
            push_refused(&mut line, u32::from(fault.number()))?;
            push_text(&mut line, "\n")?;
        }
    }
    Ok(line)
}
