ghost use Rattle.std.specs.Prelude.{◌≡◌, ◌^◌, ◌<◌, length};
ghost use Rattle.std.specs.FinMap as fin;
ghost use Rattle.exh_prefix.specs.declared.prefix.TheConstants.{LIMIT};
ghost use Rattle.exh_legal.specs.ChangeNumbers as versions;

use exh_table::Table;

/// How many changes of a ward's pages its table tells of: the index of the last. A ward's table has
/// fewer than 2^`LIMIT` entries (`entries_are_few`). It takes no memory.
pub fn index_of(table: &Table) -> u64
    requires { length (fin.entries table.now) < 2 ^ LIMIT }
    ensures index { result ≡ versions.index_of table.now }
    ensures few { result < 2 ^ 62 }
{
    let mut told = 0;
    for (_, entry) in table.entries() {
        told += u64::from(entry.number);
    }
    told
}
