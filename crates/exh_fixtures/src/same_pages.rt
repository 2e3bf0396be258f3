//! Equal pages.

use exh_page::Page;

/// Whether two pages are the same.
pub fn are_same(one: &Page, other: &Page) -> bool {
    match (one, other) {
        (
            Page::Live {
                prefix,
                right,
                records,
            },
            Page::Live {
                prefix: its_prefix,
                right: its_right,
                records: its_records,
            },
        ) => its_prefix == prefix && its_right == right && its_records.iter().eq(records.iter()),
        (
            Page::Forward { low, target },
            Page::Forward {
                low: its_low,
                target: its_target,
            },
        ) => its_low == low && its_target == target,
        _ => false,
    }
}
