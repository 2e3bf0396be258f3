ghost use Rattle.std.specs.Prelude.{◌^◌, ◌<◌, IfOk, IfErr};
ghost use Rattle.exh_ward.specs.WardFault.{IsStoreFault};
ghost use Rattle.exh_live.specs.Refused.{IsSomeWardsFault};
ghost use Rattle.exh_live.specs.Rounds.{IsKeeperRound};

use crate::lock::yield_and_lock;
use crate::{Identity, LiveFile};
use exh_keyer::Keyer;
use exh_stores::Pages;
use exh_ward::WardFault;
use std::sync::Wait;

impl<P: Pages + Drop, K: Keyer, F: Identity> LiveFile<P, K, F> {
    /// One round of a keeper over a ward of the file, from its page 0 upwards, each page that was there
    /// at the first turn once: a page that is live, as is its right buddy, is merged with it where both
    /// have together at most half as many records as a page may, rounded down. Each page is read and
    /// merged in one turn of the ward's lock. A page is passed over whose parent has the greatest
    /// number. It answers how many merges it made. Refused at any point: `Memory`, also where the lock kept a ward of
    /// another number, which no file has; and `Page`, where a store of the wards' kind has counted a failure in that
    /// turn. The merges made then stay. It may wait for callers, and lets other threads run before each turn of the
    /// lock.
    pub fn keeper_round<R: Wait>(&self, rt: &R, ward: u8) -> Result<u32, WardFault>
        requires { ward < 2 ^ self.now.ward_bits }
        ensures round { IfOk result (IsKeeperRound K.pseudokey_of ward) }
        ensures fault { IfErr result IsStoreFault }
        ensures refused { IfErr result (IsSomeWardsFault P.failures K.pseudokey_of) }
    {
        let lock = &self.wards[usize::from(ward)];
        let pages = yield_and_lock(lock, rt).page_count(ward)?;
        let mut merges = 0;
        for page in 0..pages {
            if yield_and_lock(lock, rt).keep_counted(ward, page)? {
                merges += 1;
            }
        }
        Ok(merges)
    }
}
