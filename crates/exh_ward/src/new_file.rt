//! The wards of a new file.
ghost use Rattle.std.specs.Prelude.{◌≡◌, ℕ, ◌^◌, ◌≤◌, slice_get, Some, IfOk};
ghost use Rattle.exh_page.specs.declared.page.TheConstants.{CAP_LIMIT};
ghost use Rattle.exh_prefix.specs.declared.prefix.TheConstants.{WARD_BITS_LIMIT};
ghost use Rattle.exh_ward.specs.NewWards.{new_wards};
ghost use Rattle.exh_ward.specs.WardState.{IsSoundWard, WardState};

use crate::{Ward, first_page};
use exh_keyer::Keyer;
use exh_page::FileSettings;
use exh_stores::{Pages, StoreMaker};
use std::alloc::{AllocError, Global};

/// The wards of a new file of these settings, one for each number, in order, each over a store of its
/// first page that the maker makes. An `AllocError` where memory is refused.
pub fn new_wards<P: Pages + Drop, K: Keyer, M: StoreMaker<P, K>>(
    alloc: Global,
    maker: &M,
    settings: FileSettings<K>,
) -> Result<Vec<Ward<P, K>>, AllocError>
    requires some { 1 ≤ settings.cap }
    requires most { settings.cap ≤ CAP_LIMIT }
    requires bits { settings.ward_bits ≤ WARD_BITS_LIMIT }
    ensures wards { IfOk result (λ wards. wards.items ≡ new_wards settings) }
    ensures sound { IfOk result (λ wards. (number : ℕ) (ward : WardState K) → slice_get wards.items number ≡ Some ward → IsSoundWard K.pseudokey_of ward) }
{
    let mut wards = Vec::new(alloc);
    for number in 0..1 << settings.ward_bits {
        let first = first_page(alloc, settings.ward_bits, number);
        let store = maker.first(alloc, settings.keyer, first)?;
        let ward = Ward::new(
            alloc,
            store,
            settings.cap,
            settings.ward_bits,
            number,
            settings.keyer,
        );
        wards.push(ward)?;
    }
    Ok(wards)
}
