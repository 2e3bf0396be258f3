//! The run of a `stats`.
ghost use Rattle.std.specs.Prelude.{◌≡◌, [], IsFalse};
ghost use Rattle.exh_stream.specs.Output.{SameWriter, held, pending, writer_failed};
ghost use Rattle.exh_transfer.specs.Counts.{SaysText, StatsEnd, StatsEnds};

use exh_compact::{Stats, json_of, stats_at, text_of};
use exh_run::{Run, Status, StoreError, refuse_reading, tell_text};
use exh_stream::Output;
use std::alloc::{AllocError, Global};
use std::io::Write;

/// Prints what one state of the page file has and takes, as lines or as JSON.
pub fn stats<W: Write>(run: &Run<'_>, is_json: bool, output: &mut Output<'_, W>) -> Status
    requires open { IsFalse (writer_failed output.old) }
    requires empty { pending output.old ≡ [] }
    ensures same_writer { SameWriter output.old output.new }
    ensures ends { StatsEnd (held W.contents output.old) (held W.contents output.new) (writer_failed output.new) result }
{
    let stats = stats_at(run.rt, run.path, run.seconds);
    end_stats(run, is_json, stats, output)
}

// Ends a `stats` by what the library answers.
fn end_stats<W: Write>(
    run: &Run<'_>,
    is_json: bool,
    stats: Result<Stats, StoreError>,
    output: &mut Output<'_, W>,
) -> Status
    requires open { IsFalse (writer_failed output.old) }
    requires empty { pending output.old ≡ [] }
    ensures same_writer { SameWriter output.old output.new }
    ensures ends { StatsEnds stats (held W.contents output.old) (held W.contents output.new) (writer_failed output.new) result }
{
    match stats {
        Ok(stats) => tell_stats(run, is_json, &stats, output),
        Err(fault) => refuse_reading(run, fault),
    }
}

// Prints what a file has and takes.
fn tell_stats<W: Write>(
    run: &Run<'_>,
    is_json: bool,
    stats: &Stats,
    output: &mut Output<'_, W>,
) -> Status
    requires open { IsFalse (writer_failed output.old) }
    requires empty { pending output.old ≡ [] }
    ensures same_writer { SameWriter output.old output.new }
    ensures ends { SaysText (held W.contents output.old) (held W.contents output.new) (writer_failed output.new) result }
{
    let text = stats_text(run.rt.alloc(), is_json, stats);
    tell_text(run, text, Status::Done, false, output)
}

// What is printed of it.
fn stats_text(alloc: Global, is_json: bool, stats: &Stats) -> Result<Vec<u8>, AllocError> {
    if is_json {
        json_of(alloc, stats)
    } else {
        text_of(alloc, stats)
    }
}
