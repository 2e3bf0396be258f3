//! The low bounds of wards' pages, in an order.
ghost use Rattle.std.specs.Prelude.{◌≡◌, ◌≢◌, ◌<◌, length, IfErr, IfOk};
ghost use Rattle.exh_page.specs.Page.{low_bound};
ghost use Rattle.exh_stores.specs.PageStore.{IfPage};
ghost use Rattle.exh_placing.specs.PlacedFile.{lows_of};
ghost use Rattle.exh_placing.specs.WardFile.{ArePagesOf};
ghost use Rattle.exh_file.specs.Placing.{ordered_pages, own_pages};
ghost use Rattle.exh_file.specs.Saved.{HasCountedOf, pages_of_all};

use crate::SaveFault;
use exh_format::push_item;
use exh_keyer::AnyKeyer;
use exh_placing::PageAt;
use exh_prefix::PageNo;
use exh_stores::Pages;
use exh_ward::Ward;
use std::alloc::Global;

/// The low bounds of the pages of wards in an order of them.
///
/// `Page`: a page is out of reach. `Memory`: a growth was refused.
pub(crate) fn lows_in<P: Pages + Drop>(
    alloc: Global,
    wards: &mut [Ward<P, AnyKeyer>],
    order: &[PageAt],
) -> Result<Vec<u64>, SaveFault>
    requires { ArePagesOf (pages_of_all wards.old) order.now (ordered_pages wards.old order.now) }
    ensures lows { IfOk result (λ lows. lows.items ≡ lows_of (ordered_pages wards.old order.now)) }
    ensures fault { IfErr result (λ fault. fault ≢ SaveFault.Write) }
    ensures counted { IfErr result (λ fault. fault ≡ SaveFault.Page → HasCountedOf P.failures wards.old) }
    ensures same { IfOk result (λ _. wards.new ≡ wards.old) }
{
    let mut lows = Vec::with_capacity(alloc, order.len())?;
    for place in 0..order.len() {
        let low = low_at(wards, order[place])?;
        push_item(&mut lows, low)?;
    }
    Ok(lows)
}

// The low bound of a page of wards.
fn low_at<P: Pages + Drop>(wards: &mut [Ward<P, AnyKeyer>], at: PageAt) -> Result<u64, SaveFault>
    requires ward { at.ward < length wards.old }
    requires page { at.number < length (own_pages wards.old at.ward) }
    ensures low { IfOk result (λ low. IfPage (own_pages wards.old at.ward) at.number (λ page. low ≡ low_bound page)) }
    ensures fault { IfErr result (λ fault. fault ≢ SaveFault.Write) }
    ensures counted { IfErr result (λ fault. fault ≡ SaveFault.Page → HasCountedOf P.failures wards.old) }
    ensures same { IfOk result (λ _. wards.new ≡ wards.old) }
{
    low_of(&mut wards[at.ward as usize], at.number)
}

// The low bound of the page of a number.
fn low_of<P: Pages + Drop>(ward: &mut Ward<P, AnyKeyer>, number: PageNo) -> Result<u64, SaveFault>
    requires { number < length ward.old.pages }
    ensures low { IfOk result (λ low. IfPage ward.old.pages number (λ page. low ≡ low_bound page)) }
    ensures fault { IfErr result (λ fault. fault ≢ SaveFault.Write) }
    ensures counted { IfErr result (λ fault. fault ≡ SaveFault.Page → (store : P) × (ward.old.failures < P.failures store)) }
    ensures same { IfOk result (λ _. ward.new ≡ ward.old) }
{
    match ward.head(number) {
        Ok(head) => Ok(head.low()),
        Err(fault) => {
            // By whose contract a store has counted as many.
            ward.failures();
            Err(SaveFault::of_ward(fault))
        }
    }
}
