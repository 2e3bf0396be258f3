//! Scripts and loads over the program's stores, which count no page out of reach, with no one who is told of them beside
//! their text.

ghost use Rattle.std.specs.Prelude.{◌≡◌, ◌≢◌, ◌⊎◌, IfOk, IfErr, OnErr, None};
ghost use Rattle.std.specs.Io.KnownBytes.{Appends};
ghost use Rattle.exh_load.specs.Load.{IsLoadOf, Loads, Prints, PrintsFront, load_of, new_file as new_loaded};
ghost use Rattle.exh_script.specs.Left.{ended_with};
ghost use Rattle.exh_script.specs.OpenedScript.{beginning};
ghost use Rattle.exh_script.specs.Served.{EndsUnread, PrintsLines, PrintsText, PrintsToEnd, PrintsUnread, PrintsWhole, unread_text};
ghost use Rattle.exh_script.specs.Text.{new_file};
ghost use Rattle.exh_stream.specs.Output.{AppendsBeginning};
ghost use Rattle.exh_text.specs.declared.script.TheConstants.{SCRIPT_LIMIT};

use crate::{Ended, RunFault, ServeFault, done_runs_leave_wards, serve_over};
use exh_frames::{FileStore, MAKER};
use exh_load::{LoadFault, Opened};
use exh_text::{SCRIPT_LIMIT, Silent};
use std::alloc::Global;
use std::io::{Read, Write};

/// Reads a whole script, and writes its text over a new file and nothing else, as `serve_over` does. It answers how the
/// run ended: `Done` where each line was answered, `Refused` where the script was refused as a whole.
///
/// `Write`: the writer failed or took no bytes, and got a beginning of the text. `Memory`: a growth was refused, and the
/// writer got whole lines of it.
pub fn serve<R: Read, W: Write>(
    alloc: Global,
    reader: &mut R,
    writer: &mut W,
) -> Result<Ended, RunFault>
    ensures ok { IfOk result (λ ended.
        PrintsToEnd new_file (Appends (W.contents writer.old) (W.contents writer.new)) (R.remaining reader.old) ended
        ⊎ EndsUnread (Appends (W.contents writer.old) (W.contents writer.new)) ended) }
    ensures err { OnErr result (
        PrintsText new_file (AppendsBeginning (W.contents writer.old) (W.contents writer.new)) (R.remaining reader.old)
        ⊎ AppendsBeginning (W.contents writer.old) (W.contents writer.new) unread_text) }
    ensures front { IfErr result (λ fault. fault ≢ RunFault.Write →
        PrintsLines new_file (Appends (W.contents writer.old) (W.contents writer.new)) (R.remaining reader.old)) }
{
    done_runs_leave_wards();
    let (ended, _) = serve_from(alloc, None, reader, writer)?;
    Ok(ended)
}

/// Reads a whole script, and writes its text over an opened file, or over a new one where none is given, as `serve` does.
/// Where the run is `Done` it answers the wards that it left, too, and else none.
///
/// `Write` and `Memory` come as in `serve`; the wards are gone then.
pub fn serve_from<R: Read, W: Write>(
    alloc: Global,
    from: Option<Opened<FileStore>>,
    reader: &mut R,
    writer: &mut W,
) -> Result<(Ended, Option<Opened<FileStore>>), RunFault>
    ensures ok { IfOk result (λ left.
        PrintsWhole (beginning from) (Appends (W.contents writer.old) (W.contents writer.new)) (R.remaining reader.old) left.1
        ⊎ PrintsUnread (Appends (W.contents writer.old) (W.contents writer.new)) left.1) }
    ensures ended { IfOk result (λ left. left.0 ≡ ended_with left.1) }
    ensures err { OnErr result (
        PrintsText (beginning from) (AppendsBeginning (W.contents writer.old) (W.contents writer.new)) (R.remaining reader.old)
        ⊎ AppendsBeginning (W.contents writer.old) (W.contents writer.new) unread_text) }
    ensures front { IfErr result (λ fault. fault ≢ RunFault.Write →
        PrintsLines (beginning from) (Appends (W.contents writer.old) (W.contents writer.new)) (R.remaining reader.old)) }
{
    match serve_over(alloc, &MAKER, from, reader, writer, &mut Silent) {
        Ok(left) => {
            let ended = Ended::with(&left);
            Ok((ended, left))
        }
        Err(ServeFault::Write) => Err(RunFault::Write),
        Err(ServeFault::Memory) => Err(RunFault::Memory),
        Err(ServeFault::Page) => unreachable!(),
    }
}

/// Reads a whole text of a `file` line and of pairs, at most `SCRIPT_LIMIT` bytes, puts the pairs into a new file, and
/// writes what is printed of them and nothing else. It answers the file, or `None` where the text is refused.
///
/// `Write`: the writer failed or took no bytes, and got a beginning of what is printed. `Memory`: a growth was refused,
/// and the writer got whole lines of it.
pub fn load<R: Read, W: Write>(
    alloc: Global,
    reader: &mut R,
    writer: &mut W,
) -> Result<Option<Opened<FileStore>>, RunFault>
    ensures ok { IfOk result (λ file. Loads (IsLoadOf (load_of new_loaded SCRIPT_LIMIT) (R.remaining reader.old)) (Appends (W.contents writer.old) (W.contents writer.new)) file) }
    ensures err { OnErr result (Prints (IsLoadOf (load_of new_loaded SCRIPT_LIMIT) (R.remaining reader.old)) (AppendsBeginning (W.contents writer.old) (W.contents writer.new))) }
    ensures memory { IfErr result (λ fault. fault ≢ RunFault.Write → PrintsFront (IsLoadOf (load_of new_loaded SCRIPT_LIMIT) (R.remaining reader.old)) (Appends (W.contents writer.old) (W.contents writer.new))) }
{
    match exh_load::load(
        alloc,
        &MAKER,
        None,
        SCRIPT_LIMIT,
        reader,
        writer,
        &mut Silent,
    ) {
        Ok(file) => Ok(file),
        Err(LoadFault::Write) => Err(RunFault::Write),
        Err(LoadFault::Memory) => Err(RunFault::Memory),
        Err(LoadFault::Page) => unreachable!(),
    }
}
