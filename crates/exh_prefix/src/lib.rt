//! Prefixes of pseudokeys: lists of up to `LIMIT` bits, their low bounds and their order.
#![tactic(auto)]

pub use laws::{
    beginners_nest, begins_its_range, children_part, equality_is_of_bits, leading_bits_tell,
    left_child_keeps_low, order_is_by_low_bound, order_is_total, right_child_clears,
};
pub use leading_bits::{leading, ward_number};
pub use prefix::{LIMIT, PageNo, Prefix, WARD_BITS_LIMIT};
pub use version::{Version, WRITTEN};

mod laws;
mod leading_bits;
mod prefix;
mod version;
