use exh_prefix::PageNo;

/// A step without a call, of those that most lines ask for. An `Event`, and so a `Line`, has room for a call of three
/// texts, which each function that answers one clears and moves.
#[derive(Clone, Copy)]
pub enum ShortStep {
    Hop { name: u32 },
    Split { ward: u32, page: PageNo },
    Deliver { copy: u32, ward: u32, index: u64 },
}
