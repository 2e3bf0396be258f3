/// The moves that an answered request made, and the bound that they are within.
#[derive(Clone, Copy)]
pub struct Moves {
    pub made: u64,
    pub bound: u64,
}

/// The moves that a reply's line tells, or none.
pub type Told = Option<Moves>;
