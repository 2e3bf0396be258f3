ghost use Rattle.std.specs.Prelude.{◌≡◌, ◌≤◌, ◌<◌, ◌^◌, length, IfOk};
ghost use Rattle.exh_prefix.specs.declared.prefix.TheConstants.{WARD_BITS_LIMIT};
ghost use Rattle.exh_prefix.specs.Leading.{ward_of};
ghost use Rattle.exh_cells.specs.declared.fit.TheConstants.{COUNTS_LEN};
ghost use Rattle.exh_cells.specs.CellLaws.{AreApart, AreTold};
ghost use Rattle.exh_placing.specs.Placed.{HavePlaces};

use crate::TableList;
use crate::place_index::index_of_lows;
use crate::slots::cell_of;
use exh_cells::{COUNTS_LEN, Cell, matched_tables_are_told};
use exh_prefix::ward_number;
use std::alloc::{AllocError, Global};

/// The cells that tell of these tables, one table for each ward: those of pages that have these low bounds, no two the
/// same, in the order of their places. Each entry has pages of its ward for both children of its prefix, as the entries
/// of a legal ward have. It takes memory for a cell and an entry of an index a page: an `AllocError` where that is
/// refused.
pub fn cells_of_tables<T: TableList>(
    alloc: Global,
    ward_bits: u8,
    lows: &[u64],
    tables: &T,
) -> Result<Vec<Cell>, AllocError>
    requires bits { ward_bits ≤ WARD_BITS_LIMIT }
    requires few { length lows.now < 2 ^ 32 }
    requires apart { AreApart lows.now }
    requires tables { HavePlaces ward_bits lows.now (T.tables tables.now) }
    ensures { IfOk result (λ cells. AreTold ward_bits lows.now cells.items (T.tables tables.now)) }
{
    matched_tables_are_told();
    let places = index_of_lows(alloc, lows)?;
    let mut found = [0; COUNTS_LEN];
    let mut cells = Vec::with_capacity(alloc, lows.len())?;
    for place in 0..lows.len() {
        let low = lows[place];
        let ward = ward_at(ward_bits, low);
        cells.push(cell_of(&places, tables.table(ward), low, found[ward]))?;
        found[ward] += 1;
    }
    Ok(cells)
}

// The ward of a page of a low bound.
pub(crate) fn ward_at(ward_bits: u8, low: u64) -> usize
    requires { ward_bits ≤ WARD_BITS_LIMIT }
    ensures ward { result ≡ ward_of ward_bits low }
    ensures within { result < 2 ^ ward_bits }
    ensures few { result < COUNTS_LEN }
{
    usize::from(ward_number(ward_bits, low))
}
