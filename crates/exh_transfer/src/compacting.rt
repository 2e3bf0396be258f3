//! The run of a compact.
ghost use Rattle.std.specs.Prelude.{◌≡◌, [], IfOk, IsFalse};
ghost use Rattle.exh_stream.specs.Output.{SameWriter, held, pending, writer_failed};
ghost use Rattle.exh_run.specs.declared.Status.TheVariants.{Done};
ghost use Rattle.exh_run.specs.Ends.{Ends, Says};
ghost use Rattle.exh_transfer.specs.Compacts.{CompactEnds, compact_ended, compact_line};

use exh_compact::{CompactCounts, CompactOptions, CompactOutcome};
use exh_request::GivenSettings;
use exh_run::{Run, Status, StoreError, refuse_change, tell_full, tell_refused, tell_text};
use exh_stream::Output;
use exh_text::{push_number, push_text};
use std::alloc::{AllocError, Global};
use std::io::Write;

/// Makes the page file anew with as few pages as its pairs take, of the settings that are given, and its own where none are.
/// Where keys find no room standard error names them, and the file stays. Where the file is made anew, and only its folder isn't
/// synchronized, standard error says so.
pub fn compact<W: Write>(run: &Run<'_>, given: &GivenSettings, output: &mut Output<'_, W>) -> Status
    requires open { IsFalse (writer_failed output.old) }
    requires empty { pending output.old ≡ [] }
    ensures same_writer { SameWriter output.old output.new }
    ensures ends { CompactEnds (held W.contents output.old) (held W.contents output.new) (writer_failed output.new) result }
{
    let options = CompactOptions {
        cap: given.cap,
        ward_bits: given.ward_bits,
        keyer: given.keyer,
    };
    let done = exh_compact::compact(run.rt, run.path, &options, run.seconds);
    end_compact(run, done, output)
}

// Ends a compact by what the library answers.
fn end_compact<W: Write>(
    run: &Run<'_>,
    done: Result<CompactOutcome, StoreError>,
    output: &mut Output<'_, W>,
) -> Status
    requires open { IsFalse (writer_failed output.old) }
    requires empty { pending output.old ≡ [] }
    ensures same_writer { SameWriter output.old output.new }
    ensures ends { Ends (compact_ended done) (held W.contents output.old) (held W.contents output.new) (writer_failed output.new) result }
{
    match done {
        Ok(CompactOutcome::Done(counts)) => tell_counts(run, &counts, output),
        Ok(CompactOutcome::Unsynchronized { counts, cause }) => {
            tell_refused(run.rt, run.path, &StoreError::Unsynchronized(cause));
            tell_counts(run, &counts, output)
        }
        Ok(CompactOutcome::Full(keys)) => {
            for key in &keys {
                tell_full(run.rt, run.path, key);
            }
            Status::Missing
        }
        Err(fault) => refuse_change(run, fault),
    }
}

// Prints how many pages there were and are.
fn tell_counts<W: Write>(
    run: &Run<'_>,
    counts: &CompactCounts,
    output: &mut Output<'_, W>,
) -> Status
    requires open { IsFalse (writer_failed output.old) }
    requires empty { pending output.old ≡ [] }
    ensures same_writer { SameWriter output.old output.new }
    ensures ends { Ends (Says (compact_line counts.now) Done) (held W.contents output.old) (held W.contents output.new) (writer_failed output.new) result }
{
    let line = counts_line(run.rt.alloc(), counts);
    tell_text(run, line, Status::Done, true, output)
}

// The line of how many pages there were and are.
fn counts_line(alloc: Global, counts: &CompactCounts) -> Result<Vec<u8>, AllocError>
    ensures { IfOk result (λ line. line.items ≡ compact_line counts.now) }
{
    let mut line = Vec::new(alloc);
    push_text(&mut line, "compacted ")?;
    push_number(&mut line, counts.pages_before)?;
    push_text(&mut line, " pages to ")?;
    push_number(&mut line, counts.pages_after)?;
    push_text(&mut line, "\n")?;
    Ok(line)
}
