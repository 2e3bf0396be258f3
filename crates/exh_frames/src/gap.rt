ghost use Rattle.std.specs.Prelude.{◌≡◌, ◌+◌, ◌<◌, ◌≤◌, slice_index};
ghost use Rattle.exh_page.specs.declared.page.TheConstants.{CAP_LIMIT};

use crate::cell::STARTS_LEN;

/// Where the bytes of a record stand in an image, or where they would.
#[derive(Clone, Copy)]
pub(crate) struct Gap {
    /// Where they begin.
    pub(crate) start: usize,
    /// Where they end, which is where they begin if no such record stands there.
    pub(crate) end: usize,
    /// How many records stand there, 0 or 1.
    pub(crate) count: u8,
}

/// The gap of the record of an index, of the places where an image's records begin.
pub(crate) fn gap_over(starts: &[usize; STARTS_LEN], index: usize) -> Gap
    requires { index < CAP_LIMIT }
    ensures { result ≡ record { start = slice_index starts.now index; end = slice_index starts.now (index + 1); count = 1 } }
{
    Gap {
        start: starts[index],
        end: starts[index + 1],
        count: 1,
    }
}

/// The gap of no record, before the one of an index.
pub(crate) fn gap_before(starts: &[usize; STARTS_LEN], index: usize) -> Gap
    requires { index ≤ CAP_LIMIT }
    ensures { result ≡ record { start = slice_index starts.now index; end = slice_index starts.now index; count = 0 } }
{
    Gap {
        start: starts[index],
        end: starts[index],
        count: 0,
    }
}
