ghost use Rattle.std.specs.Prelude.{◌≡◌, ◌↔◌, IsTrue, IfOk, OnOk, OnErr};
ghost use Rattle.exh_join.specs.JoinLaws.{JoinLaws};

use std::alloc::AllocError;

/// Values with a partial order in which each two have a least value that is at least both, their join.
/// So values may be joined in any order and as often as one wishes.
pub trait Join: Drop {
    /// The order of the values.
    ghost IsAtMost: { Self → Self → Type 0 };

    /// The join of two values.
    ghost join: { Self → Self → Self };

    /// Whether this value is at most the other. It takes no memory, and always succeeds.
    fn at_most(&self, other: &Self) -> bool
        ensures { IsTrue result ↔ IsAtMost self.now other.now };

    /// A value equal to this one: an `AllocError` where memory for it is refused.
    fn try_clone(&self) -> Result<Self, AllocError>
        ensures { IfOk result (λ copy. copy ≡ self.now) };

    /// Becomes the join of this value and the other. Where memory is refused, an `AllocError`, it stays
    /// as before.
    fn join_in(&mut self, other: &Self) -> Result<(), AllocError>
        ensures ok { OnOk result (self.new ≡ join self.old other.now) }
        ensures err { OnErr result (self.new ≡ self.old) };

    /// What each implementation proves of its order and join, for all values.
    ghost laws: { JoinLaws IsAtMost join };
}
