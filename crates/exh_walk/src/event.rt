use exh_calls::Call;
use exh_prefix::PageNo;

/// What a scheduler, the network or bad luck may do to a world, in any order.
#[derive(Clone, Copy, PartialEq, Eq)]
pub enum Event {
    /// A client begins a request, at the page that a copy names.
    Begin {
        name: u32,
        client: u32,
        copy: u32,
        call: Call,
    },
    /// A request makes one hop.
    Hop {
        name: u32,
    },
    /// A page of a ward is split.
    Split {
        ward: u32,
        page: PageNo,
    },
    /// A page of a ward takes in its right buddy.
    Merge {
        ward: u32,
        page: PageNo,
    },
    /// A notice that was issued reaches a copy, for the first time or again.
    Deliver {
        copy: u32,
        ward: u32,
        index: u64,
    },
    /// A copy's table is sent.
    Send {
        copy: u32,
    },
    /// A table that was sent reaches a copy, for the first time or again.
    Combine {
        copy: u32,
        table: u32,
    },
    /// A copy loses what it was told.
    Restart {
        copy: u32,
    },
}
