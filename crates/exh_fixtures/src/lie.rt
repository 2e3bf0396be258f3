//! One wrong answer of the slow code.

/// Whether the next answer of the slow code is replaced by a wrong one. It happens once at most.
#[derive(Clone, Copy)]
pub struct Lie {
    waits: bool,
}

impl Lie {
    /// One wrong answer, or none.
    pub fn new(waits: bool) -> Lie {
        Lie { waits }
    }

    /// Whether this answer is to be a wrong one. The next one isn't.
    pub fn is_due(&mut self) -> bool {
        let waits = self.waits;
        self.waits = false;
        waits
    }
}
