ghost use Rattle.std.specs.Prelude.{◌≡◌, ℕ, ◌<◌, ◌≤◌, ◌^◌, length, slice_get, Some};
ghost use Rattle.std.specs.FinMap.{entries};
ghost use Rattle.exh_prefix.specs.declared.prefix.TheConstants.{LIMIT, WARD_BITS_LIMIT};
ghost use Rattle.exh_keyer.specs.Pseudokey.{any_pseudokey};
ghost use Rattle.exh_keyer.specs.declared.any_keyer.AnyKeyer.{AnyKeyer};
ghost use Rattle.exh_format.specs.declared.header.TheConstants.{COUNTS_LEN};
ghost use Rattle.exh_file.specs.Opened.{AreWardsOf, in_file};
ghost use Rattle.exh_ward.specs.WardState.{IsSoundWard, WardState};
ghost use Rattle.exh_file.specs.Saved.{AreSound, counts_in, entries_of_all, header_of};

use exh_format::{COUNTS_LEN, Header};
use exh_keyer::AnyKeyer;
use exh_legal::entries_are_few;
use exh_page::FileSettings;
use exh_stores::Pages;
use exh_table::Table;
use exh_ward::Ward;

/// The header of the page file of these wards.
pub(crate) fn header_of<P: Pages + Drop>(
    settings: FileSettings<AnyKeyer>,
    wards: &[Ward<P, AnyKeyer>],
) -> Header
    requires { AreWardsOf (in_file settings wards.now) }
    ensures header { result ≡ header_of (in_file settings wards.now) }
    ensures sound { AreSound wards.now }
{
    Header {
        settings,
        entry_count: entry_count_of(wards),
        page_counts: page_counts_of(wards),
    }
}

// How many pages each ward has, and zeros for those that aren't there.
fn page_counts_of<P: Pages + Drop>(wards: &[Ward<P, AnyKeyer>]) -> [u32; COUNTS_LEN]
    requires { length wards.now ≤ COUNTS_LEN }
    ensures { result ≡ counts_in wards.now }
{
    let mut counts = [0; COUNTS_LEN];
    for number in 0..wards.len() {
        counts[number] = wards[number].page_count();
    }
    counts
}

// How many entries the tables of all wards have.
fn entry_count_of<P: Pages + Drop>(wards: &[Ward<P, AnyKeyer>]) -> u32
    requires few { length wards.now ≤ COUNTS_LEN }
    requires bits { (number : ℕ) (ward : WardState AnyKeyer) → slice_get wards.now number ≡ Some ward → ward.ward_bits ≤ WARD_BITS_LIMIT }
    ensures count { result ≡ length (entries_of_all wards.now) }
    ensures sound { AreSound wards.now }
{
    let mut count = 0;
    for number in 0..wards.len() {
        count += entry_count_in(&wards[number]);
    }
    count
}

// How many entries a ward's table has.
fn entry_count_in<P: Pages + Drop>(ward: &Ward<P, AnyKeyer>) -> u32
    requires { ward.now.ward_bits ≤ WARD_BITS_LIMIT }
    ensures count { result ≡ length (entries ward.now.table) }
    ensures few { result < 2 ^ LIMIT }
    ensures sound { IsSoundWard any_pseudokey ward.now }
{
    entries_are_few();
    table_len(ward.table())
}

// How many entries a table has.
fn table_len(table: &Table) -> u32
    requires { length (entries table.now) < 2 ^ LIMIT }
    ensures { result ≡ length (entries table.now) }
{
    let mut count = 0;
    for _told in table.entries() {
        count += 1;
    }
    count
}
