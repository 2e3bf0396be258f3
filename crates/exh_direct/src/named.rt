ghost use Rattle.std.specs.Prelude.{◌≡◌, IfOk, IfErr, []};
ghost use Rattle.exh_format.specs.declared.file_entry.FileEntry.{FileEntry};
ghost use Rattle.exh_format.specs.FileVersion.{file_version};
ghost use Rattle.exh_format.specs.HeaderImage.{IsHeader};
ghost use Rattle.exh_direct.specs.KnownBlocks.{IsCount};
ghost use Rattle.exh_direct.specs.TableSearch.{right_told};
ghost use Rattle.exh_direct.specs.DirectAnswer.{FailsInTable, NamesPage};

use crate::search::entry_at;
use crate::walk::{first_leaf, next_bit};
use crate::{Blocks, DirectFault};
use exh_format::{FileEntry, Header, Kind};
use exh_prefix::{LIMIT, PageNo, Version, ward_number};
use std::alloc::Global;

/// The page that the table names for a pseudokey. It takes memory for the entries of the blocks that it reads.
pub(crate) fn named_page<B: Blocks>(
    alloc: Global,
    blocks: &mut B,
    version: Version,
    count: u64,
    header: &Header,
    pseudokey: u64,
) -> Result<PageNo, DirectFault>
    requires count { IsCount (B.known blocks.old) count }
    requires header { IsHeader (file_version version) header.now }
    ensures same_bytes { B.known blocks.new ≡ B.known blocks.old }
    ensures ok { IfOk result (NamesPage (file_version version) (B.known blocks.old) header.now pseudokey (B.reads blocks.old) (B.reads blocks.new)) }
    ensures err { IfErr result (FailsInTable (file_version version) (B.known blocks.old) header.now (B.reads blocks.old) (B.reads blocks.new)) }
{
    let ward = ward_number(header.settings.ward_bits, pseudokey);
    let mut leaf = first_leaf(header.settings.ward_bits, pseudokey);
    let mut read = Vec::new(alloc);
    while leaf.prefix.len() < LIMIT {
        let told = entry_at(
            alloc,
            blocks,
            version,
            count,
            header,
            &mut read,
            leaf.prefix,
        )?;
        match right_told(told, ward) {
            Some(right) => leaf = leaf.step(next_bit(leaf.prefix, pseudokey), right),
            None => return Ok(leaf.page),
        }
    }
    Ok(leaf.page)
}

// The right page of the split that an entry is, if it is one and of the ward.
fn right_told(told: Option<FileEntry>, ward: u8) -> Option<PageNo>
    ensures { result ≡ right_told ward told }
{
    let item = told?;
    match item.entry.kind {
        Kind::Split { right } if item.ward == ward => Some(right),
        _ => None,
    }
}
