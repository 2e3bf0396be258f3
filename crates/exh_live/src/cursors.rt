ghost use Rattle.std.specs.Prelude.{◌≡◌, ◌≤◌, IfOk};
ghost use Rattle.exh_prefix.specs.declared.prefix.TheConstants.{WARD_BITS_LIMIT};
ghost use Rattle.exh_live.specs.Rounds.{AreFirstCursors, changes_told, is_of_ward};

use exh_prefix::{Prefix, ward_number};
use exh_table::Table;
use std::alloc::{AllocError, Global};
use std::marker::Model;

/// A courier's cursors, one for each ward: the index of the last notice that it carried. Contracts see
/// them in the order of the wards' numbers.
#[derive(Drop)]
pub struct Cursors {
    pub(crate) of_wards: Vec<u64>,
}

impl Model for Cursors {
    ghost use Rattle.std.specs.Prelude.{ℕ, List};

    ghost Value = { List ℕ };

    ghost view = { λ a. a.of_wards.items };
}

impl Cursors {
    /// The cursors of a courier to a copy that begins with this table, in a file that is cut into
    /// 2^`ward_bits` wards: of each ward how many changes of its pages the table tells of. An `AllocError`
    /// where memory is refused, or for 2^64 changes.
    pub fn new(alloc: Global, ward_bits: u8, table: &Table) -> Result<Cursors, AllocError>
        requires { ward_bits ≤ WARD_BITS_LIMIT }
        ensures { IfOk result (AreFirstCursors ward_bits table.now) }
    {
        let mut of_wards = Vec::new(alloc);
        for number in 0..1 << ward_bits {
            of_wards.push(changes_of(table, ward_bits, number)?)?;
        }
        Ok(Cursors { of_wards })
    }
}

// How many changes of a ward's pages a table tells of. That they are too many for 64 bits counts as a refusal
// of memory: as many prefixes as there are don't tell of so many.
fn changes_of(table: &Table, ward_bits: u8, number: u8) -> Result<u64, AllocError>
    requires { ward_bits ≤ WARD_BITS_LIMIT }
    ensures { IfOk result (λ told. told ≡ changes_told ward_bits table.now number) }
{
    let mut told: u64 = 0;
    for (prefix, entry) in table.entries() {
        if is_of(*prefix, ward_bits, number) {
            told = told.checked_add(u64::from(entry.number)).ok_or(AllocError)?;
        }
    }
    Ok(told)
}

// Whether a prefix begins with that of the ward of this number.
fn is_of(prefix: Prefix, ward_bits: u8, number: u8) -> bool
    requires { ward_bits ≤ WARD_BITS_LIMIT }
    ensures { result ≡ is_of_ward ward_bits number prefix }
{
    ward_bits <= prefix.len() && ward_number(ward_bits, prefix.low()) == number
}
