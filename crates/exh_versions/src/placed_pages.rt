ghost use Rattle.std.specs.Prelude.{◌≡◌, ◌<◌, ◌≤◌, ◌^◌, ◌-◌, ◌∷◌, [], List, length, IfOk, OnOk};
ghost use Rattle.exh_prefix.specs.declared.prefix.TheConstants.{WARD_BITS_LIMIT};
ghost use Rattle.exh_prefix.specs.Leading.{ward_of};
ghost use Rattle.exh_prefix.specs.Version.{second_version};
ghost use Rattle.exh_keyer.specs.Pseudokey.{any_pseudokey};
ghost use Rattle.exh_page.specs.declared.page.Page.{Page as PageValue};
ghost use Rattle.exh_codec.specs.PageImage.{IsImage};

use exh_codec::{BLOCK_LEN, ReadPages};
use exh_keyer::AnyKeyer;
use exh_page::{FileSettings, Page};
use exh_prefix::ward_number;
use std::alloc::{AllocError, Global};

/// The pages of a file that were read so far, in the order of their places.
#[derive(Drop)]
pub(crate) struct PlacedPages<W> {
    /// The pages of each ward, ward 0 first.
    pub(crate) wards: Vec<W>,
    /// The low bound of each page.
    pub(crate) lows: Vec<u64>,
}

impl<W: ReadPages<AnyKeyer>> PlacedPages<W> {
    ghost use Rattle.std.specs.Prelude.{◌≡◌, ◌<◌, ◌≤◌, ◌^◌, ◌-◌, ◌∷◌, [], List, length, IfOk, OnOk};
    ghost use Rattle.exh_versions.specs.Reading.{AddsPages, ArePlaced, HasPlaced};

    // None yet, of a file with these settings. It takes memory for the wards.
    pub(crate) fn empty(
        alloc: Global,
        settings: FileSettings<AnyKeyer>,
    ) -> Result<PlacedPages<W>, AllocError>
        requires { settings.ward_bits ≤ WARD_BITS_LIMIT }
        ensures { IfOk result (ArePlaced W.pages W.takes settings []) }
    {
        let mut wards = Vec::new(alloc);
        for number in 0..ward_count(settings.ward_bits) {
            wards.push(W::empty(alloc, settings.keyer))?;
        }
        Ok(PlacedPages {
            wards,
            lows: Vec::new(alloc),
        })
    }

    // The page of the next place, and its block.
    pub(crate) fn push(
        &mut self,
        settings: FileSettings<AnyKeyer>,
        block: &[u8; BLOCK_LEN],
        page: Page,
    ) -> Result<(), AllocError>
        requires bits { settings.ward_bits ≤ WARD_BITS_LIMIT }
        requires placed { HasPlaced W.pages W.takes settings self.old }
        requires room { length self.old.lows.items < 2 ^ 32 - 1 }
        requires image { IsImage second_version (any_pseudokey settings.keyer) page block.now }
        ensures { OnOk result (AddsPages W.pages W.takes settings (page ∷ []) self.old self.new) }
    {
        let low = page.low();
        let ward = ward_at(settings.ward_bits, low);
        self.lows.push(low)?;
        self.wards[ward].push(block, page)?;
        Ok(())
    }
}

// The ward of a page of a low bound.
fn ward_at(ward_bits: u8, low: u64) -> usize
    requires { ward_bits ≤ WARD_BITS_LIMIT }
    ensures ward { result ≡ ward_of ward_bits low }
    ensures within { result < 2 ^ ward_bits }
{
    usize::from(ward_number(ward_bits, low))
}

// How many wards there are.
fn ward_count(ward_bits: u8) -> usize
    requires { ward_bits ≤ WARD_BITS_LIMIT }
    ensures { result ≡ 2 ^ ward_bits }
{
    1 << ward_bits
}
