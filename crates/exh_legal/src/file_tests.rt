ghost use Rattle.std.specs.Prelude.{◌≡◌, ℕ, ◌<◌, ◌≤◌, ◌^◌, length, map, slice_get, Some, IfOk, IsTrue, ◌↔◌};
ghost use Rattle.std.specs.FinMap.{empty};
ghost use Rattle.exh_prefix.specs.declared.prefix.TheConstants.{LIMIT};
ghost use Rattle.exh_page.specs.declared.page.Page.{Page};
ghost use Rattle.exh_legal.specs.Pages.{IsAt};
ghost use Rattle.exh_prefix.specs.Leading.{ward_prefix};
ghost use Rattle.exh_legal.specs.LegalParts.{parts_of};
ghost use Rattle.exh_legal.specs.Reasons.{IsFirstReason, lesser_of};

use crate::Reason;
use crate::ward_tests::ward_reason;
use exh_page::PageList;
use exh_prefix::Prefix;
use exh_table::Table;
use std::alloc::{AllocError, Global};

/// The first of the six reasons that holds of a file: of its cap, its ward bits, the pages of its wards
/// and its table, given as the entries that name each ward number. There is a table for each ward at
/// least. It takes memory for a few words a page of one ward, which is given back: an `AllocError`
/// where that is refused.
pub fn first_reason<P: PageList>(
    alloc: Global,
    cap: usize,
    ward_bits: u8,
    wards: &[P],
    tables: &[Table],
) -> Result<Option<Reason>, AllocError>
    requires bits { ward_bits ≤ LIMIT }
    requires wards { length wards.now ≤ 2 ^ ward_bits }
    requires tables { length wards.now ≤ length tables.now }
    ensures { IfOk result (IsFirstReason (parts_of cap ward_bits (map P.pages wards.now) tables.now)) }
{
    let mut first = None;
    for number in 0..wards.len() {
        let ward = own_prefix(ward_bits, number);
        let found = ward_reason(alloc, cap, ward, &wards[number], &tables[number])?;
        first = lesser(first, found);
    }
    for number in wards.len()..tables.len() {
        if !is_bare(&tables[number]) {
            return Ok(lesser(first, Some(Reason::Table)));
        }
    }
    Ok(first)
}

// Whether a table has no entry.
fn is_bare(table: &Table) -> bool
    ensures { IsTrue result ↔ (table.now ≡ empty) }
{
    table.entries().next().is_none()
}

// The reason that is tested first of two.
fn lesser(one: Option<Reason>, other: Option<Reason>) -> Option<Reason>
    ensures { result ≡ lesser_of one other }
{
    match (one, other) {
        (None, other) => other,
        (one, None) => one,
        (Some(one), Some(other)) => {
            if one.number() <= other.number() {
                Some(one)
            } else {
                Some(other)
            }
        }
    }
}

// The prefix of all pseudokeys of a ward.
fn own_prefix(ward_bits: u8, number: usize) -> Prefix
    requires bits { ward_bits ≤ LIMIT }
    requires number { number < 2 ^ ward_bits }
    ensures { result ≡ ward_prefix ward_bits number }
{
    let low = if ward_bits == 0 {
        0
    } else {
        (number as u64) << (64 - ward_bits)
    };
    Prefix::new(ward_bits, low).unwrap()
}
