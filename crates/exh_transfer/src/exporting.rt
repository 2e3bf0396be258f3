//! The run of an export.
ghost use Rattle.std.specs.Prelude.{◌≡◌, ◌++◌, [], flat_map, IfOk, IsFalse, OnOk};
ghost use Rattle.exh_stream.specs.Output.{SameWriter, held, pending, writer_failed};
ghost use Rattle.exh_run.specs.Ends.{Ends, Says};
ghost use Rattle.exh_transfer.specs.Exports.{ExportEnds, export_ended, export_text, line_of_pair};
ghost use Rattle.exh_run.specs.declared.Status.TheVariants.{Done};

use exh_page::{Key, Value};
use exh_pair_text::{PairFormat, push_end, push_opening, push_pair};
use exh_run::{Pairs, Run, Status, Store, StoreError, refuse_reading, tell_text};
use exh_stream::Output;
use std::alloc::{AllocError, Global};
use std::io::Write;

/// Prints the pairs of one state of the page file, in a format: between a first line and a last one, unless they are bare.
pub fn export<W: Write>(
    run: &Run<'_>,
    format: PairFormat,
    is_bare: bool,
    output: &mut Output<'_, W>,
) -> Status
    requires open { IsFalse (writer_failed output.old) }
    requires empty { pending output.old ≡ [] }
    ensures same_writer { SameWriter output.old output.new }
    ensures ends { ExportEnds format run.now.form.is_hex is_bare (held W.contents output.old) (held W.contents output.new) (writer_failed output.new) result }
{
    let pairs = pairs_at(run);
    end_export(run, format, is_bare, pairs, output)
}

// The pairs of one state of the file.
fn pairs_at(run: &Run<'_>) -> Result<Pairs, StoreError> {
    Store::open_read_within(run.rt, run.path, run.seconds)?.pairs()
}

// Ends an export by what the library answers.
fn end_export<W: Write>(
    run: &Run<'_>,
    format: PairFormat,
    is_bare: bool,
    pairs: Result<Pairs, StoreError>,
    output: &mut Output<'_, W>,
) -> Status
    requires open { IsFalse (writer_failed output.old) }
    requires empty { pending output.old ≡ [] }
    ensures same_writer { SameWriter output.old output.new }
    ensures ends { Ends (export_ended format run.now.form.is_hex is_bare pairs) (held W.contents output.old) (held W.contents output.new) (writer_failed output.new) result }
{
    match pairs {
        Ok(pairs) => tell_pairs(run, format, is_bare, &pairs, output),
        Err(fault) => refuse_reading(run, fault),
    }
}

// Prints pairs.
fn tell_pairs<W: Write>(
    run: &Run<'_>,
    format: PairFormat,
    is_bare: bool,
    pairs: &Pairs,
    output: &mut Output<'_, W>,
) -> Status
    requires open { IsFalse (writer_failed output.old) }
    requires empty { pending output.old ≡ [] }
    ensures same_writer { SameWriter output.old output.new }
    ensures ends { Ends (Says (export_text format run.now.form.is_hex is_bare pairs.now) Done) (held W.contents output.old) (held W.contents output.new) (writer_failed output.new) result }
{
    let text = export_text(run.rt.alloc(), format, run.form.is_hex, is_bare, pairs);
    tell_text(run, text, Status::Done, false, output)
}

// The text of an export.
fn export_text(
    alloc: Global,
    format: PairFormat,
    is_hex: bool,
    is_bare: bool,
    pairs: &Pairs,
) -> Result<Vec<u8>, AllocError>
    ensures { IfOk result (λ text. text.items ≡ export_text format is_hex is_bare pairs.now) }
{
    let mut text = Vec::new(alloc);
    if is_bare {
        push_pairs(&mut text, format, is_hex, pairs)?;
        return Ok(text);
    }
    push_opening(&mut text, format)?;
    push_pairs(&mut text, format, is_hex, pairs)?;
    push_end(&mut text, format, pairs.len() as u64)?;
    Ok(text)
}

// Adds the lines of pairs.
fn push_pairs(
    text: &mut Vec<u8>,
    format: PairFormat,
    is_hex: bool,
    pairs: &Pairs,
) -> Result<(), AllocError>
    ensures { OnOk result (text.new.items ≡ text.old.items ++ flat_map (line_of_pair format is_hex) pairs.now) }
{
    for (key, value) in pairs.iter() {
        push_line(text, format, is_hex, &key, &value)?;
    }
    Ok(())
}

// Adds the line of a pair.
fn push_line(
    text: &mut Vec<u8>,
    format: PairFormat,
    is_hex: bool,
    key: &Key,
    value: &Value,
) -> Result<(), AllocError>
    ensures { OnOk result (text.new.items ≡ text.old.items ++ line_of_pair format is_hex (key.now, value.now)) }
{
    push_pair(text, format, is_hex, key.as_bytes(), value.as_bytes())
}
