ghost use Rattle.std.specs.Prelude.{◌≡◌, ◌≢◌, ◌⊎◌, ◌↔◌, [], MatchBool, IfOk, IfErr, OnErr, IsErrOf, IsTrue, IsFalse};
ghost use Rattle.std.specs.Io.KnownBytes.{Appends};
ghost use Rattle.exh_script.specs.Served.{IsServeCounted, PrintsLines, PrintsText, PrintsUnread, PrintsWhole, unread_text};
ghost use Rattle.exh_script.specs.OpenedScript.{beginning};
ghost use Rattle.exh_stream.specs.Output.{AppendsBeginning, SameWriter, Takes, TakesBeginning, held, pending, writer_failed};
ghost use Rattle.exh_stream.specs.Source.{SameReader, reader_failed, unread};

use crate::ServeFault;
use crate::respond::{refuse, respond};
use exh_keyer::AnyKeyer;
use exh_line::Refusal;
use exh_load::Opened;
use exh_stores::{Pages, StoreMaker};
use exh_stream::{InputFault, Output, Source};
use exh_text::{Listener, SCRIPT_LIMIT};
use std::alloc::Global;
use std::io::{Read, Write};

/// Reads a whole script, and writes its text and nothing else. A new file's stores are those that the maker makes. Where the reader fails, that is the line `refused 41`
/// alone. No fault is tried again. The listener is told of lines that are refused, and of requests that aren't answered.
///
/// `Write`: the writer failed or took no bytes, and got a beginning of it. `Memory`: a growth was refused. `Page`: a page
/// couldn't be reached, and a store has counted more than a ward of the opened file had, of a new one at least one. After these two the writer got the text of a beginning of the script's lines, each line whole.
pub fn serve_over<P: Pages + Drop, M: StoreMaker<P, AnyKeyer>, R: Read, W: Write, L: Listener>(
    alloc: Global,
    maker: &M,
    from: Option<Opened<P>>,
    reader: &mut R,
    writer: &mut W,
    listener: &mut L,
) -> Result<Option<Opened<P>>, ServeFault>
    ensures ok { IfOk result (λ left.
        PrintsWhole (beginning from) (Appends (W.contents writer.old) (W.contents writer.new)) (R.remaining reader.old) left
        ⊎ PrintsUnread (Appends (W.contents writer.old) (W.contents writer.new)) left) }
    ensures err { OnErr result (
        PrintsText (beginning from) (AppendsBeginning (W.contents writer.old) (W.contents writer.new)) (R.remaining reader.old)
        ⊎ AppendsBeginning (W.contents writer.old) (W.contents writer.new) unread_text) }
    ensures front { IfErr result (λ fault. fault ≢ ServeFault.Write →
        PrintsLines (beginning from) (Appends (W.contents writer.old) (W.contents writer.new)) (R.remaining reader.old)) }
    ensures counted { IsServeCounted P.failures from result }
{
    serve_source(
        alloc,
        maker,
        from,
        &mut Source::new(reader),
        &mut Output::new(writer),
        listener,
    )
}

// The same, where the source tells whether the reader failed. What waits is written after each fault.
fn serve_source<P: Pages + Drop, M: StoreMaker<P, AnyKeyer>, R: Read, W: Write, L: Listener>(
    alloc: Global,
    maker: &M,
    from: Option<Opened<P>>,
    source: &mut Source<'_, R>,
    output: &mut Output<'_, W>,
    listener: &mut L,
) -> Result<Option<Opened<P>>, ServeFault>
    requires open { IsFalse (reader_failed source.old) }
    requires open_output { IsFalse (writer_failed output.old) }
    requires empty { pending output.old ≡ [] }
    ensures same_reader { SameReader source.old source.new }
    ensures same_writer { SameWriter output.old output.new }
    ensures text { IfOk result (λ left. MatchBool (reader_failed source.new)
        (PrintsUnread (Appends (held W.contents output.old) (held W.contents output.new)) left)
        (PrintsWhole (beginning from) (Appends (held W.contents output.old) (held W.contents output.new)) (unread R.remaining source.old) left)) }
    ensures err { OnErr result (MatchBool (reader_failed source.new)
        (AppendsBeginning (held W.contents output.old) (held W.contents output.new) unread_text)
        (PrintsText (beginning from) (AppendsBeginning (held W.contents output.old) (held W.contents output.new)) (unread R.remaining source.old))) }
    ensures front { IfErr result (λ fault. fault ≢ ServeFault.Write →
        PrintsLines (beginning from) (Appends (held W.contents output.old) (held W.contents output.new)) (unread R.remaining source.old)) }
    ensures counted { IsServeCounted P.failures from result }
    ensures failed { IsErrOf result ServeFault.Write ↔ IsTrue (writer_failed output.new) }
{
    let served = answer_source(alloc, maker, from, source, output, listener);
    output.finish()?;
    served
}

// Answers the script of a source. Where its reader fails, the answer is that alone.
fn answer_source<P: Pages + Drop, M: StoreMaker<P, AnyKeyer>, R: Read, W: Write, L: Listener>(
    alloc: Global,
    maker: &M,
    from: Option<Opened<P>>,
    source: &mut Source<'_, R>,
    output: &mut Output<'_, W>,
    listener: &mut L,
) -> Result<Option<Opened<P>>, ServeFault>
    requires open { IsFalse (reader_failed source.old) }
    requires open_output { IsFalse (writer_failed output.old) }
    ensures same_reader { SameReader source.old source.new }
    ensures same_writer { SameWriter output.old output.new }
    ensures text { IfOk result (λ left. MatchBool (reader_failed source.new)
        (PrintsUnread (Takes W.contents output.old output.new) left)
        (PrintsWhole (beginning from) (Takes W.contents output.old output.new) (unread R.remaining source.old) left)) }
    ensures err { OnErr result (MatchBool (reader_failed source.new)
        (TakesBeginning W.contents output.old output.new unread_text)
        (PrintsText (beginning from) (TakesBeginning W.contents output.old output.new) (unread R.remaining source.old))) }
    ensures front { IfErr result (λ fault. fault ≢ ServeFault.Write → MatchBool (reader_failed source.new)
        (Takes W.contents output.old output.new [])
        (PrintsLines (beginning from) (Takes W.contents output.old output.new) (unread R.remaining source.old))) }
    ensures counted { IsServeCounted P.failures from result }
    ensures failed { IsErrOf result ServeFault.Write ↔ IsTrue (writer_failed output.new) }
{
    match source.read_whole(alloc, SCRIPT_LIMIT) {
        Ok(script) => respond(alloc, maker, output, &script, from, listener),
        Err(InputFault::TooLong) => {
            listener.too_long();
            refuse(alloc, output, Refusal::TooLong)
        }
        Err(InputFault::Read) => refuse(alloc, output, Refusal::Read),
        Err(InputFault::Memory) => Err(ServeFault::Memory),
    }
}
