ghost use Rattle.std.specs.Prelude.{◌≡◌, ◌≤◌, length};
ghost use Rattle.exh_page.specs.Page.{records_of};
ghost use Rattle.exh_page.specs.declared.page.TheConstants.{CAP_LIMIT};
ghost use Rattle.exh_compact.specs.Shape.{bytes_of, shape_of};

use exh_page::{Page, Records};
use exh_prefix::Prefix;

/// What is counted of a page.
#[derive(Clone, Copy)]
pub struct PageShape {
    /// Whether it is a live page, and no forwarding one.
    pub is_live: bool,
    /// Its prefix; of a forwarding page the empty one.
    pub prefix: Prefix,
    /// How many records it has, none of a forwarding page.
    pub records: u8,
    /// How many bytes of its block they take: of each the key, the value, and a byte for the length of either.
    pub bytes: u16,
}

impl PageShape {
    /// Of a page with at most 16 records. It takes no memory.
    pub fn of(page: &Page) -> PageShape
        requires { length (records_of page.now) ≤ CAP_LIMIT }
        ensures { result ≡ shape_of page.now }
    {
        match page {
            Page::Live {
                prefix,
                records,
                ..
            } => PageShape {
                is_live: true,
                prefix: *prefix,
                records: records.len() as u8,
                bytes: bytes_of(records),
            },
            Page::Forward { .. } => PageShape {
                is_live: false,
                prefix: Prefix::of_number(0, 0),
                records: 0,
                bytes: 0,
            },
        }
    }
}

// How many bytes of a block records take.
fn bytes_of(records: &Records) -> u16
    requires { length records.now ≤ CAP_LIMIT }
    ensures { result ≡ bytes_of records.now }
{
    let mut bytes = 0u16;
    for item in records.iter() {
        bytes += (item.key.as_bytes().len() + item.value.as_bytes().len() + 2) as u16;
    }
    bytes
}
