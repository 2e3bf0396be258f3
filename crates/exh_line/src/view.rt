use exh_prefix::PageNo;

/// What a line of a script asks to see of the world, which stays as it was. There may be no such copy, ward or page.
#[derive(Clone, Copy)]
pub enum View {
    /// `show COPY`
    Copy { copy: u32 },
    /// `page WARD PAGE`
    Page { ward: u32, page: PageNo },
    /// `inflight`
    InFlight,
}
