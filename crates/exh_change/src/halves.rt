ghost use Rattle.std.specs.Prelude.{◌≡◌, ◌<◌, ◌-◌, ◌^◌, ℕ, List, Option, IfOk};
ghost use Rattle.exh_keyer.specs.Pseudokey.{any_pseudokey};
ghost use Rattle.exh_page.specs.declared.record.Record.{Record};
ghost use Rattle.exh_page.specs.declared.page.Page.TheVariants.{Live};
ghost use Rattle.exh_page.specs.Page.{IsDivisible, IsLive, IsWellFormed};
ghost use Rattle.exh_page.specs.Halves.{left_half, right_half};

use exh_keyer::AnyKeyer;
use exh_page::Page;
use exh_prefix::{PageNo, Prefix};
use std::alloc::AllocError;

/// The halves of a page that is split.
#[derive(Drop)]
pub(crate) struct Halves {
    pub(crate) left: Page,
    pub(crate) right: Page,
}

/// The halves of a live page that is shorter than `LIMIT`: the right one is to have this number in the ward. It takes memory
/// for their records.
pub(crate) fn halves_of(keyer: AnyKeyer, page: &Page, number: PageNo) -> Result<Halves, AllocError>
    requires number { number < 2 ^ 32 - 1 }
    requires formed { IsWellFormed (any_pseudokey keyer) page.now }
    requires short { IsDivisible page.now }
    ensures left { IfOk result (λ halves. halves.left ≡ left_half number page.now) }
    ensures right { IfOk result (λ halves. halves.right ≡ right_half page.now) }
    ensures left_formed { IfOk result (λ halves. IsWellFormed (any_pseudokey keyer) halves.left) }
    ensures right_formed { IfOk result (λ halves. IsWellFormed (any_pseudokey keyer) halves.right) }
{
    exh_legal::shares_are_records();
    let left = page.left_half(number)?;
    let right = page.right_half()?;
    Ok(Halves { left, right })
}

/// The prefix of a live page.
pub(crate) fn prefix_of(page: &Page) -> Prefix
    requires { IsLive page.now }
    ensures { (link : Option ℕ) × (records : List Record) × (page.now ≡ Live result link records) }
{
    match page {
        Page::Live { prefix, .. } => *prefix,
        Page::Forward { .. } => unreachable!(),
    }
}
