//! The run of a salvage.
ghost use Rattle.std.specs.Prelude.{◌≡◌, ◌++◌, [], flat_map, IfOk, IsFalse, OnOk};
ghost use Rattle.exh_stream.specs.Output.{SameWriter, held, pending, writer_failed};
ghost use Rattle.exh_run.specs.Ends.{Ends};
ghost use Rattle.exh_transfer.specs.Salvages.{SalvageEnds, line_of_saved, salvage_ended, salvage_status, saved_text};

use crate::blocks_with_log::BlocksWithLog;
use crate::open_blocks::OpenBlocks;
use crate::salvage_notes::{tell_log_read, tell_log_unread, tell_salvage};
use exh_map::{InMemory, read_with_log};
use exh_pair_text::{PairFormat, push_end, push_opening, push_pair};
use exh_run::{Run, Status, StoreError, open_regular, refuse_reading, tell_text};
use exh_salvage::{Salvage, SavedPair, salvage_of};
use exh_stream::Output;
use std::alloc::{AllocError, Global};
use std::io::Write;

/// Prints the pairs of each block of the file that is a live page, in a format, as an export prints those of a legal file.
/// Where a log stands beside it that fits, its blocks are those of the file with what the log has. Standard error says how many
/// blocks there are, which are lost, and which keys are met again.
pub fn salvage<W: Write>(
    run: &Run<'_>,
    format: PairFormat,
    is_bare: bool,
    output: &mut Output<'_, W>,
) -> Status
    requires open { IsFalse (writer_failed output.old) }
    requires empty { pending output.old ≡ [] }
    ensures same_writer { SameWriter output.old output.new }
    ensures ends { SalvageEnds format run.now.form.is_hex is_bare (held W.contents output.old) (held W.contents output.new) (writer_failed output.new) result }
{
    let salvaged = salvaged_at(run);
    end_salvage(run, format, is_bare, salvaged, output)
}

// What is saved of the file, which is said on standard error.
fn salvaged_at(run: &Run<'_>) -> Result<Salvage, StoreError> {
    let file = open_regular(run.rt, run.path)?;
    let blocks = OpenBlocks::of(&file)?;
    match read_with_log(run.rt, run.path, &file) {
        Ok(Some(found)) => salvaged_with_log(run, blocks, &found),
        Ok(None) => salvaged_from(run, blocks),
        Err(_) => {
            tell_log_unread(run);
            salvaged_from(run, blocks)
        }
    }
}

// What is saved of blocks of the file alone.
fn salvaged_from(run: &Run<'_>, mut blocks: OpenBlocks<'_>) -> Result<Salvage, StoreError> {
    let count = blocks.count;
    let salvage = salvage_of(run.rt.alloc(), &mut blocks, count)?;
    tell_salvage(run, &salvage, count)?;
    Ok(salvage)
}

// What is saved of the file and its log.
fn salvaged_with_log(
    run: &Run<'_>,
    blocks: OpenBlocks<'_>,
    found: &InMemory,
) -> Result<Salvage, StoreError> {
    let mut blocks = BlocksWithLog::of(run.rt.alloc(), blocks, found)?;
    let count = blocks.count();
    let salvage = salvage_of(run.rt.alloc(), &mut blocks, count)?;
    tell_log_read(run, blocks.first_of_log());
    tell_salvage(run, &salvage, count)?;
    Ok(salvage)
}

// Ends a salvage by what is saved.
fn end_salvage<W: Write>(
    run: &Run<'_>,
    format: PairFormat,
    is_bare: bool,
    salvaged: Result<Salvage, StoreError>,
    output: &mut Output<'_, W>,
) -> Status
    requires open { IsFalse (writer_failed output.old) }
    requires empty { pending output.old ≡ [] }
    ensures same_writer { SameWriter output.old output.new }
    ensures ends { Ends (salvage_ended format run.now.form.is_hex is_bare salvaged) (held W.contents output.old) (held W.contents output.new) (writer_failed output.new) result }
{
    match salvaged {
        Ok(salvage) => tell_pairs(run, format, is_bare, &salvage, output),
        Err(fault) => refuse_reading(run, fault),
    }
}

// Prints the pairs that are saved.
fn tell_pairs<W: Write>(
    run: &Run<'_>,
    format: PairFormat,
    is_bare: bool,
    salvage: &Salvage,
    output: &mut Output<'_, W>,
) -> Status
    requires open { IsFalse (writer_failed output.old) }
    requires empty { pending output.old ≡ [] }
    ensures same_writer { SameWriter output.old output.new }
    ensures ends { Ends (salvage_ended format run.now.form.is_hex is_bare (Ok salvage.now)) (held W.contents output.old) (held W.contents output.new) (writer_failed output.new) result }
{
    let text = salvage_text(run.rt.alloc(), format, run.form.is_hex, is_bare, salvage);
    tell_text(run, text, salvage_status(salvage), false, output)
}

// The status of what is saved.
fn salvage_status(salvage: &Salvage) -> Status
    ensures { result ≡ salvage_status salvage.now }
{
    if salvage.lost == 0 {
        Status::Done
    } else {
        Status::Partly
    }
}

// The text of the pairs.
fn salvage_text(
    alloc: Global,
    format: PairFormat,
    is_hex: bool,
    is_bare: bool,
    salvage: &Salvage,
) -> Result<Vec<u8>, AllocError>
    ensures { IfOk result (λ text. text.items ≡ saved_text format is_hex is_bare salvage.now.pairs.items) }
{
    let mut text = Vec::new(alloc);
    if is_bare {
        push_pairs(&mut text, format, is_hex, &salvage.pairs)?;
        return Ok(text);
    }
    push_opening(&mut text, format)?;
    push_pairs(&mut text, format, is_hex, &salvage.pairs)?;
    push_end(&mut text, format, salvage.pairs.len() as u64)?;
    Ok(text)
}

// Adds the lines of pairs.
fn push_pairs(
    text: &mut Vec<u8>,
    format: PairFormat,
    is_hex: bool,
    pairs: &[SavedPair],
) -> Result<(), AllocError>
    ensures { OnOk result (text.new.items ≡ text.old.items ++ flat_map (line_of_saved format is_hex) pairs.now) }
{
    for pair in pairs {
        push_line(text, format, is_hex, pair)?;
    }
    Ok(())
}

// Adds the line of a pair.
fn push_line(
    text: &mut Vec<u8>,
    format: PairFormat,
    is_hex: bool,
    pair: &SavedPair,
) -> Result<(), AllocError>
    ensures { OnOk result (text.new.items ≡ text.old.items ++ line_of_saved format is_hex pair.now) }
{
    push_pair(
        text,
        format,
        is_hex,
        pair.key.as_bytes(),
        pair.value.as_bytes(),
    )
}
