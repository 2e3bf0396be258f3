//! The run of a script: what it prints, and how the program then ends.
ghost use Rattle.exh_script.specs.OpenedScript.{beginning};
ghost use Rattle.exh_everyday.specs.JobPath.{SavesAt};
ghost use Rattle.exh_cli.specs.ScriptRun.{IsEnding, RunPrints};

use exh_everyday::{Ending, FileWards, JobPath, MAKER, Status, print_out_of_memory};
use exh_script::{ServeFault, serve_over};
use exh_stream::Output;
use exh_text::Listener;
use std::alloc::Global;
use std::io::{Read, Write};

/// Answers the script of a reader on a writer, over the wards of a file or over a new one, and gives the wards that its
/// run leaves, where it is done. Where memory ran out the last line is `refused 10`, on the same writer. After a fault
/// of the writer nothing more is printed.
pub(crate) fn serve_script<R: Read, W: Write, L: Listener>(
    alloc: Global,
    from: Option<FileWards>,
    reader: &mut R,
    writer: &mut W,
    listener: &mut L,
) -> Result<Option<FileWards>, ServeFault>
    ensures { RunPrints (beginning from) (W.contents writer.old) (W.contents writer.new) (R.remaining reader.old) result }
{
    match serve_over(alloc, &MAKER, from, reader, writer, listener) {
        Err(ServeFault::Memory) => {
            print_out_of_memory(&mut Output::new(writer))?;
            Err(ServeFault::Memory)
        }
        served => served,
    }
}

/// How the program ends after a run, where its wards may be saved at a job's path: only those of a run that is done
/// are.
pub(crate) fn ending_of<'w>(
    outcome: Result<Option<FileWards>, ServeFault>,
    save: Option<JobPath<'w>>,
) -> Ending<'w>
    ensures ending { IsEnding outcome save.entry result }
    ensures path { SavesAt save.entry result }
{
    match outcome {
        Ok(Some(wards)) => match save {
            Some(path) => Ending::Save { path, wards },
            None => Ending::Over(Status::Done),
        },
        Ok(None) | Err(_) => Ending::Over(Status::Refused),
    }
}
