ghost use Rattle.std.specs.Prelude.{◌≡◌, ◌<◌, ◌≤◌, ℕ, slice_get, Some};
ghost use Rattle.exh_ward.specs.WardState.{WardState};

use super::World;
use exh_keyer::Keyer;
use exh_stores::Pages;

impl<P: Pages + Drop, K: Keyer> World<P, K> {
    /// The most page faults of a ward, 0 where none has met one: so many its store has counted. It takes no memory.
    pub fn most_failures(&self) -> u64
        ensures most { (number : ℕ) (ward : WardState K) → slice_get self.now.wards number ≡ Some ward → ward.failures ≤ result }
        ensures store { 0 < result → (store : P) × (P.failures store ≡ result) }
    {
        let mut most = 0;
        for ward in &self.wards {
            let failures = ward.failures();
            if most < failures {
                most = failures;
            }
        }
        most
    }
}
