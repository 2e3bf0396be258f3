//! The store of a new ward.
ghost use Rattle.std.specs.Prelude.{◌≡◌, ◌<◌, ◌≤◌, ◌^◌, [], ◌∷◌, None, IfOk};
ghost use Rattle.exh_prefix.specs.Leading.{ward_prefix};
ghost use Rattle.exh_page.specs.declared.page.Page.TheVariants.{Live};
ghost use Rattle.exh_prefix.specs.declared.prefix.TheConstants.{WARD_BITS_LIMIT};

use crate::again;
use exh_stores::PlainPages;
use exh_ward::first_page;
use std::alloc::{AllocError, Global};

/// A store of the first page of ward `number` of a file of 2^`ward_bits` wards. An `AllocError` where
/// memory for it was refused twice.
pub fn first_store(alloc: Global, ward_bits: u8, number: u8) -> Result<PlainPages, AllocError>
    requires bits { ward_bits ≤ WARD_BITS_LIMIT }
    requires number { number < 2 ^ ward_bits }
    ensures { IfOk result (λ store. store ≡ Live (ward_prefix ward_bits number) None [] ∷ []) }
{
    again!(Err(AllocError) => PlainPages::new(alloc, first_page(alloc, ward_bits, number)))
}
