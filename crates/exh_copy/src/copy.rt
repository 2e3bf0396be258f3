ghost use Rattle.std.specs.Prelude.{◌≡◌, ◌+◌, ◌≤◌, [], ◌++◌, replicate, vec_len, vec_capacity, IfOk};
ghost use Rattle.std.specs.FinMap as map;
ghost use Rattle.exh_prefix.specs.declared.prefix.TheConstants.{LIMIT};
ghost use Rattle.exh_copy.specs.Additions.{AreOf};
ghost use Rattle.exh_copy.specs.Rule.{IsAfter};

use crate::name::CopyName;
use crate::published::Published;
use crate::{CopyReader, CopyWriter, NewCopyFault, NoPlace, Start};
use exh_array::Directory;
use exh_table::Table;
use left_right::writer::Writer;
use std::alloc::{AllocError, Global};
use std::sync::ledger::Blank;

/// A copy of the directory that has the table, in a file of so many ward bits: its writer, and so many
/// readers, which have the copy's name. There is room for as many further readers, or for what the
/// writer hands on. Refused: `Memory`, and `NoPlace` where `left_right` gives no reader for another cause.
pub fn new_copy<S: Start>(
    alloc: Global,
    ward_bits: u8,
    table: &Table,
    readers: u16,
) -> Result<(CopyWriter<S>, Vec<CopyReader<S>>), NewCopyFault<S>>
    requires limit { ward_bits ≤ LIMIT }
    requires ward_bits { ward_bits ≡ S.ward_bits }
    requires table { table.now ≡ S.table }
    ensures writer { IfOk result (λ copy. copy.0 ≡ record { name = copy.0.name; published = []; pending = [] }) }
    ensures readers { IfOk result (λ copy. copy.1.items ≡ replicate readers (record { name = copy.0.name; additions = [] })) }
    ensures own { IfOk result (λ copy. AreOf copy.0.name copy.1.items) }
{
    let mut made = Vec::new(alloc);
    made.reserve(usize::from(readers))?;
    let first = published_of(alloc, ward_bits, table)?;
    let second = published_of(alloc, ward_bits, table)?;
    let places = 2 * usize::from(readers) + 1;
    let writer = CopyWriter {
        writer: Writer::new(alloc, first, second, places)?,
        name: Blank::new(1),
    };
    match add_readers(&writer, readers, &mut made) {
        Ok(()) => Ok((writer, made)),
        Err(NoPlace) => Err(NewCopyFault::NoPlace(writer)),
    }
}

// A directory that has the table.
fn published_of(alloc: Global, ward_bits: u8, table: &Table) -> Result<Published, AllocError>
    requires { ward_bits ≤ LIMIT }
    ensures { IfOk result (λ published. IsAfter table.now ward_bits published []) }
{
    let mut directory = Directory::new(alloc, ward_bits)?;
    directory.join_in(table)?;
    Ok(Published {
        directory,
        additions: 0,
    })
}

// Adds so many readers, for which there is room.
fn add_readers<S: Start>(
    writer: &CopyWriter<S>,
    readers: u16,
    made: &mut Vec<CopyReader<S>>,
) -> Result<(), NoPlace>
    requires { vec_len made.old + readers ≤ vec_capacity made.old }
    ensures { IfOk result (λ _. made.new.items ≡ made.old.items ++ replicate readers (record { name = writer.now.name; additions = [] })) }
{
    for _ in 0..readers {
        let reader = writer.writer.factory().reader().map_err(|_| NoPlace)?;
        made.push_reserved(CopyReader {
            reader,
            additions: 0,
            name: CopyName::of(&writer.name),
        });
    }
    Ok(())
}
