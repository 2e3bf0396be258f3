ghost use Rattle.std.specs.Prelude.{◌≡◌, ◌<◌, ◌≤◌, ◌^◌, ◌++◌, ℕ, Bool, List, length, slice_get, Some, IsSome, IfOk, OnOk};
ghost use Rattle.std.specs.FinMap.{empty};
ghost use Rattle.exh_prefix.specs.declared.prefix.TheConstants.{LIMIT, WARD_BITS_LIMIT};
ghost use Rattle.exh_prefix.specs.Prefix.{HasPrefix};
ghost use Rattle.exh_notice.specs.declared.entry.Entry.{Entry as EntryValue};
ghost use Rattle.exh_format.specs.Table.{IsTableOf, TableMap};
ghost use Rattle.exh_cells.specs.Fit.{FitEach, HasPrefixes};
ghost use Rattle.exh_cells.specs.Told.{AreTablesOf, entry_in, told_at, kind_in, number_at, told_by_cell};

use crate::cell::{Cell, SLOTS, Slot};
use crate::fit::{ward_at, ward_count};
use exh_format::Table;
use exh_notice::{Entry, Kind};
use exh_prefix::{PageNo, Prefix};
use std::alloc::{AllocError, Global};

/// The table of each ward that cells tell of, the cells of pages that have these low bounds. It takes memory for an
/// entry of a table each: an `AllocError` where that is refused.
pub fn tables_of_cells(
    alloc: Global,
    ward_bits: u8,
    lows: &[u64],
    cells: &[Cell],
) -> Result<Vec<Table>, AllocError>
    requires bits { ward_bits ≤ WARD_BITS_LIMIT }
    requires all { length cells.now ≡ length lows.now }
    requires fit { FitEach ward_bits lows.now cells.now }
    ensures { IfOk result (λ tables. AreTablesOf ward_bits lows.now cells.now tables.items) }
{
    let mut tables = empty_tables(alloc, ward_count(ward_bits))?;
    for place in 0..lows.len() {
        let low = lows[place];
        let ward = ward_at(ward_bits, low);
        put_cell(&mut tables[ward], cells, low, &cells[place])?;
    }
    Ok(tables)
}

// So many tables with no entry.
fn empty_tables(alloc: Global, count: usize) -> Result<Vec<Table>, AllocError>
    ensures count { IfOk result (λ tables. length tables.items ≡ count) }
    ensures none { IfOk result (λ tables. (number : ℕ) (table : TableMap) → slice_get tables.items number ≡ Some table → table ≡ empty) }
{
    let mut tables = Vec::new(alloc);
    for number in 0..count {
        tables.push(Table::new(alloc))?;
    }
    Ok(tables)
}

// Puts the entries that the cell of a page of a low bound tells of.
fn put_cell(table: &mut Table, cells: &[Cell], low: u64, cell: &Cell) -> Result<(), AllocError>
    requires { HasPrefixes low cell.now.slots }
    ensures { OnOk result ((told : List (List Bool × EntryValue)) → IsTableOf told table.old → IsTableOf (told ++ told_by_cell cells.now low cell.now) table.new) }
{
    for len in 0..SLOTS {
        put_entry(table, low, len as u8, entry_of(cells, cell.slots[len]))?;
    }
    Ok(())
}

// Puts an entry, if there is one, at the prefix of a length that has a low bound.
fn put_entry(table: &mut Table, low: u64, len: u8, entry: Option<Entry>) -> Result<(), AllocError>
    requires { IsSome entry → HasPrefix len low }
    ensures { OnOk result ((told : List (List Bool × EntryValue)) → IsTableOf told table.old → IsTableOf (told ++ told_at low len entry) table.new) }
{
    let Some(entry) = entry else {
        return Ok(());
    };
    let prefix = Prefix::new(len, low).unwrap();
    table.put_greater(prefix, entry)?;
    Ok(())
}

// The entry that a slot tells of, if there is one.
fn entry_of(cells: &[Cell], slot: Slot) -> Option<Entry>
    ensures { result ≡ entry_in cells.now slot }
{
    if slot.number == 0 {
        return None;
    }
    Some(Entry {
        number: slot.number,
        kind: kind_of(cells, slot),
    })
}

// The kind that a slot's number tells.
fn kind_of(cells: &[Cell], slot: Slot) -> Kind
    ensures { result ≡ kind_in cells.now slot }
{
    if slot.number % 2 == 1 {
        Kind::Split {
            right: number_at(cells, slot.page),
        }
    } else {
        Kind::Merge
    }
}

// The number in its ward of the page at a place, 0 where there is none.
fn number_at(cells: &[Cell], place: u32) -> PageNo
    ensures { result ≡ number_at cells.now place }
{
    match cells.get(place as usize) {
        Some(cell) => cell.number,
        None => 0,
    }
}
