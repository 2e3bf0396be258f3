//! The run of a load: what it prints, and the file that comes of it.
ghost use Rattle.std.specs.Prelude.{◌≤◌};
ghost use Rattle.exh_load.specs.Load.{IsLoadOf, beginning, load_of};
ghost use Rattle.exh_load.specs.LongLoad.{IsLongLoad};
ghost use Rattle.exh_load.specs.declared.load_source.TheConstants.{TEXT_LIMIT};
ghost use Rattle.exh_job.specs.JobPath.{SavesAt};
ghost use Rattle.exh_job.specs.LoadRun.{IsLoadEnding, LoadPrints};

use crate::{Ending, FileWards, JobPath, Status, print_out_of_memory};
use exh_frames::MAKER;
use exh_load::{LoadFault, load, load_long};
use exh_stream::Output;
use exh_text::Listener;
use std::alloc::Global;
use std::cell::Cell;
use std::io::{Read, Write};

/// Loads the text of a reader, of at most `limit` bytes, over the wards of a file or as a new one, tells of it on a writer,
/// and answers the file that comes of it, or `None` where the text is refused. Where memory ran out the last line is
/// `refused 10`, on the same writer. After a fault of the writer nothing more is printed.
///
/// On an `Err` no file comes of it.
pub fn load_pairs<R: Read, W: Write, L: Listener>(
    alloc: Global,
    from: Option<FileWards>,
    limit: usize,
    reader: &mut R,
    writer: &mut W,
    listener: &mut L,
) -> Result<Option<FileWards>, LoadFault>
    requires { limit ≤ TEXT_LIMIT }
    ensures { LoadPrints (IsLoadOf (load_of (beginning from) limit) (R.remaining reader.old)) (W.contents writer.old) (W.contents writer.new) result }
{
    match load(alloc, &MAKER, from, limit, reader, writer, listener) {
        Err(LoadFault::Memory) => {
            print_out_of_memory(&mut Output::new(writer))?;
            Err(LoadFault::Memory)
        }
        loaded => loaded,
    }
}

/// The same of a text of any length, which is read line by line: `number` has the number of the line that is told of.
pub fn load_long_pairs<R: Read, W: Write, L: Listener>(
    alloc: Global,
    from: Option<FileWards>,
    reader: &mut R,
    writer: &mut W,
    listener: &mut L,
    number: &Cell<u64>,
) -> Result<Option<FileWards>, LoadFault>
    ensures { LoadPrints (IsLongLoad (beginning from) (R.remaining reader.old)) (W.contents writer.old) (W.contents writer.new) result }
{
    match load_long(alloc, &MAKER, from, reader, writer, listener, number) {
        Err(LoadFault::Memory) => {
            print_out_of_memory(&mut Output::new(writer))?;
            Err(LoadFault::Memory)
        }
        loaded => loaded,
    }
}

/// How the program ends after a load: the file that comes of it is saved at the job's path.
pub fn load_ending<'w>(
    loaded: Result<Option<FileWards>, LoadFault>,
    save: Option<JobPath<'w>>,
) -> Ending<'w>
    ensures ending { IsLoadEnding loaded save.entry result }
    ensures path { SavesAt save.entry result }
{
    match (loaded, save) {
        (Ok(Some(wards)), Some(path)) => Ending::Save { path, wards },
        _ => Ending::Over(Status::Refused),
    }
}
