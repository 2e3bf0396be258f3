//! Numbers that look random, the same ones for a seed.
ghost use Rattle.std.specs.Prelude.{◌<◌};

/// Numbers that look random, the same ones for a seed: those of a linear congruence mod 2^64.
#[derive(Clone, Copy)]
pub struct Dice {
    state: u64,
}

impl Dice {
    /// The numbers of a seed.
    pub fn new(seed: u64) -> Dice {
        Dice { state: seed }
    }

    /// The next number.
    pub fn word(&mut self) -> u64 {
        self.state = self
            .state
            .wrapping_mul(6_364_136_223_846_793_005)
            .wrapping_add(1_442_695_040_888_963_407);
        self.state ^ (self.state >> 32)
    }

    /// The next number, below the number of sides.
    pub fn roll(&mut self, sides: usize) -> usize
        requires { 0 < sides }
        ensures { result < sides }
    {
        self.word() as usize % sides
    }
}
