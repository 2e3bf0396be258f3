//! The calls of a ward over any store, each made once more where memory was refused.

use crate::{Difference, again};
use exh_calls::Call;
use exh_keyer::{Keyer, PlainKeyer};
use exh_notice::Notice;
use exh_prefix::PageNo;
use exh_stores::Pages;
use exh_ward::{Hop, Ward, WardFault};

// These make a call once, and need nothing of the ward: what calls them is proved with less.
fn hop_once<P: Pages + Drop>(
    ward: &mut Ward<P, PlainKeyer>,
    at: PageNo,
    client: u32,
    call: &Call,
) -> Result<Hop, WardFault> {
    let pseudokey = PlainKeyer.pseudo(call.key().as_bytes());
    if ward.covers(pseudokey) {
        ward.hop_hashed(at, client, call, pseudokey)
    } else {
        Err(WardFault::NoPage)
    }
}

fn split_once<P: Pages + Drop>(
    ward: &mut Ward<P, PlainKeyer>,
    page: PageNo,
) -> Result<Notice, WardFault> {
    ward.split(page)
}

/// A hop of a client. Refused as `Ward::hop`, and `NoPage` where the ward doesn't cover the key.
pub fn hop_of<P: Pages + Drop>(
    ward: &mut Ward<P, PlainKeyer>,
    at: PageNo,
    client: u32,
    call: &Call,
) -> Result<Hop, WardFault> {
    again!(Err(WardFault::Memory) => hop_once(ward, at, client, call))
}

/// A split. Refused as `Ward::split`.
pub fn split_page<P: Pages + Drop>(
    ward: &mut Ward<P, PlainKeyer>,
    page: PageNo,
) -> Result<Notice, WardFault> {
    again!(Err(WardFault::Memory) => split_once(ward, page))
}

/// What is left to say where a ward should not have refused.
pub fn refused(fault: WardFault) -> Difference {
    Difference::Refused(fault.number())
}
