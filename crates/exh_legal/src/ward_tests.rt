ghost use Rattle.std.specs.Prelude.{◌≡◌, ℕ, IfOk};
ghost use Rattle.exh_page.specs.declared.page.Page.{Page};
ghost use Rattle.exh_legal.specs.Pages.{IsAt};
ghost use Rattle.exh_legal.specs.LegalParts.{IsBounded};
ghost use Rattle.exh_legal.specs.Reasons.{IsFirstOfWard};

use crate::Reason;
use crate::built_index::build_index;
use crate::cap::keeps_cap;
use crate::leaves::has_leaves;
use crate::links::{has_links, has_targets};
use crate::table_fit::fits_pages;
use exh_page::PageList;
use exh_prefix::Prefix;
use exh_table::Table;
use std::alloc::{AllocError, Global};

/// The first reason that holds of one ward: of its prefix, its pages and its table. It takes memory for
/// a few words a page, which is given back: an `AllocError` where that is refused.
pub fn ward_reason<P: PageList>(
    alloc: Global,
    cap: usize,
    ward: Prefix,
    pages: &P,
    table: &Table,
) -> Result<Option<Reason>, AllocError>
    ensures { IfOk result (IsFirstOfWard cap ward table.now (P.pages pages.now)) }
{
    if !keeps_cap(cap, pages) {
        return Ok(Some(Reason::Cap));
    }
    let Some(index) = build_index(alloc, ward, pages)? else {
        return Ok(Some(Reason::LowBounds));
    };
    if !has_leaves(ward, pages, &index) {
        return Ok(Some(Reason::Leaves));
    }
    if !has_links(ward, pages, &index) {
        return Ok(Some(Reason::Links));
    }
    if !has_targets(pages, &index) {
        return Ok(Some(Reason::Forwards));
    }
    if !fits_pages(ward, table, pages, &index) {
        return Ok(Some(Reason::Table));
    }
    Ok(None)
}
