ghost use Rattle.std.specs.Prelude.{◌≡◌, ◌≤◌, ◌++◌, length, IfOk, OnOk};
ghost use Rattle.exh_versions.specs.PlainFile.{entries_of_table, entries_of_tables};

use exh_format::FileEntry;
use exh_table::Table;
use std::alloc::{AllocError, Global};

/// The entries of tables, the table of each ward, ward 0's first. It takes memory for them: an `AllocError` where that is
/// refused.
pub(crate) fn entries_of_tables(
    alloc: Global,
    tables: &[Table],
) -> Result<Vec<FileEntry>, AllocError>
    requires { length tables.now ≤ 16 }
    ensures { IfOk result (λ entries. entries.items ≡ entries_of_tables tables.now) }
{
    let mut entries = Vec::new(alloc);
    for ward in 0..tables.len() {
        push_entries(&mut entries, ward as u8, &tables[ward])?;
    }
    Ok(entries)
}

// Puts the entries of a ward's table behind others.
fn push_entries(entries: &mut Vec<FileEntry>, ward: u8, table: &Table) -> Result<(), AllocError>
    ensures { OnOk result (entries.new.items ≡ entries.old.items ++ entries_of_table (ward, table.now)) }
{
    for (prefix, entry) in table.entries() {
        entries.push(FileEntry {
            ward,
            prefix: *prefix,
            entry: *entry,
        })?;
    }
    Ok(())
}
