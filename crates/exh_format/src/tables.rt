ghost use Rattle.std.specs.Prelude.{◌≡◌, ℕ, ◌≤◌, length, get_or, map, IfOk};
ghost use Rattle.std.specs.FinMap.{empty};
ghost use Rattle.exh_format.specs.TableImage.{AreRising, prefixes_of};
ghost use Rattle.exh_format.specs.LegalFile.{table_naming, tables_of};

use crate::FileEntry;
use exh_legal::Table;
use std::alloc::{AllocError, Global};

/// How many wards an entry may name: each number that a byte has.
pub(crate) const NAMED_WARDS: usize = 256;

/// Of each ward that an entry may name, the table of the entries that name it. It takes memory for an
/// entry of a table each.
pub(crate) fn tables_of(alloc: Global, entries: &[FileEntry]) -> Result<Vec<Table>, AllocError>
    requires { AreRising (prefixes_of entries.now) }
    ensures { IfOk result (λ tables. tables.items ≡ tables_of entries.now) }
{
    let mut tables = empty_tables(alloc)?;
    for item in entries {
        let table = &mut tables[item.ward as usize];
        table.put_greater(item.prefix, item.entry)?;
    }
    Ok(tables)
}

// A table with no entry for each ward that an entry may name.
fn empty_tables(alloc: Global) -> Result<Vec<Table>, AllocError>
    ensures count { IfOk result (λ tables. length tables.items ≡ NAMED_WARDS) }
    ensures none { IfOk result (λ tables. (number : ℕ) → get_or tables.items number empty ≡ empty) }
{
    let mut tables = Vec::new(alloc);
    for number in 0..NAMED_WARDS {
        tables.push(Table::new(alloc))?;
    }
    Ok(tables)
}
