ghost use Rattle.std.specs.Prelude.{◌≡◌};

use super::Ward;
use exh_keyer::Keyer;
use exh_stores::Pages;

impl<P: Pages + Drop, K: Keyer> Ward<P, K> {
    /// How often a page couldn't be reached, as the ward's store counts. It takes no memory.
    pub fn failures(&self) -> u64
        ensures count { result ≡ self.now.failures }
        ensures store { (store : P) × (P.failures store ≡ self.now.failures) }
    {
        self.store.failures()
    }
}
