ghost use Rattle.std.specs.Prelude.{◌≡◌, ◌-◌, ◌≤◌, ◌<◌, ◌^◌, length};

use exh_keyer::Keyer;
use exh_stores::Pages;
use exh_ward::Ward;

/// How many changes a ward has had since it had so many notices.
pub(super) fn changes_since<P: Pages + Drop, K: Keyer>(ward: &Ward<P, K>, noticed: usize) -> u64
    requires { noticed ≤ length ward.now.notices }
    ensures count { result ≡ length ward.now.notices - noticed }
    ensures small { result < 2 ^ 63 }
{
    let issued = ward.notices_after(0).len();
    (issued - noticed) as u64
}
