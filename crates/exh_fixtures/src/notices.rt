//! Notices of ward 0.

use crate::{Difference, Part};
use exh_notice::{Kind, Notice};
use exh_prefix::{PageNo, Prefix};

/// The prefix of these bits, each of which is `0` or `1`. A `Difference` where there are too many.
pub fn prefix(bits: &str) -> Result<Prefix, Difference> {
    let mut prefix = Prefix::new(0, 0);
    for bit in bits.bytes() {
        prefix = prefix.and_then(|it| it.child(bit == b'1'));
    }
    prefix.ok_or(Difference::Apart(Part::Run))
}

/// A notice of ward 0 of a split.
pub fn split(index: u64, prefix: Prefix, number: u32, right: PageNo) -> Notice {
    Notice {
        ward: 0,
        index,
        prefix,
        number,
        kind: Kind::Split { right },
    }
}

/// A notice of ward 0 of a merge.
pub fn merge(index: u64, prefix: Prefix, number: u32) -> Notice {
    Notice {
        ward: 0,
        index,
        prefix,
        number,
        kind: Kind::Merge,
    }
}
