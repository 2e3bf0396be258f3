ghost use Rattle.std.specs.Prelude.{◌≡◌, ℕ, ◌^◌, ◌≤◌, length, map, slice_get, Some, IfOk};
ghost use Rattle.exh_array.specs.Pointers.{HasArrayOf};
ghost use Rattle.exh_ward.specs.WardState.{WardState, IsSoundWard};
ghost use Rattle.exh_prefix.specs.declared.prefix.TheConstants.{WARD_BITS_LIMIT};
ghost use Rattle.exh_world.specs.NewWorld.{AreWardsFor, IsMadeAnew, settings_of, tables_joined, world_of_wards};
ghost use Rattle.exh_world.specs.Sound.{IsSoundWorld};

use super::World;
use crate::in_flight::InFlight;
use exh_array::{Copies, Directory};
use exh_keyer::Keyer;
use exh_legal::walks_name_homes;
use exh_page::Config;
use exh_stores::Pages;
use exh_ward::Ward;
use std::alloc::{AllocError, Global};

impl<P: Pages + Drop, K: Keyer> World<P, K> {
    /// The world of given wards, one for each number, in order, each of the config's `cap`,
    /// `ward_bits` and `keyer`: their tables together are the start table and that of each copy, and
    /// the changes are those that the wards make from now on, whatever notices they had before. No
    /// table was sent, and no request is in flight. An `AllocError` where memory is
    /// refused.
    pub fn from_wards(
        alloc: Global,
        config: Config<K>,
        wards: Vec<Ward<P, K>>,
    ) -> Result<World<P, K>, AllocError>
        requires bits { config.ward_bits ≤ WARD_BITS_LIMIT }
        requires count { length wards.items ≡ 2 ^ config.ward_bits }
        requires each { AreWardsFor config wards.items }
        ensures world { IfOk result (λ world. world ≡ world_of_wards config wards.items) }
        ensures sound { IfOk result (IsSoundWorld K.pseudokey_of) }
    {
        walks_name_homes();
        let start = joined_tables(alloc, config.ward_bits, &wards)?;
        let noticed = notice_counts(alloc, &wards)?;
        let copies = Copies::new(alloc, start, config.copies)?;
        let in_flight = InFlight::new(alloc);
        Ok(World {
            alloc,
            cap: config.cap as usize,
            ward_bits: config.ward_bits,
            keyer: config.keyer,
            wards,
            noticed,
            copies,
            in_flight,
        })
    }

    /// The world's wards as they stand, in the order of their numbers. Its copies, its sent tables and
    /// its requests in flight are dropped. A world of these wards (`from_wards`) has the copies that it
    /// is made with, and each notice of this one can be delivered to them. It takes
    /// no memory.
    pub fn into_wards(self) -> Vec<Ward<P, K>>
        ensures wards { result.items ≡ self.wards }
        ensures bits { self.ward_bits ≤ WARD_BITS_LIMIT }
        ensures count { length result.items ≡ 2 ^ self.ward_bits }
        ensures each { (copies : ℕ) → AreWardsFor (settings_of self copies) result.items }
        ensures anew { (copies : ℕ) → IsMadeAnew self copies (world_of_wards (settings_of self copies) result.items) }
    {
        self.wards
    }
}

// The wards' tables together. The wards are sound, as each says when asked for its table.
fn joined_tables<P: Pages + Drop, K: Keyer>(
    alloc: Global,
    ward_bits: u8,
    wards: &[Ward<P, K>],
) -> Result<Directory, AllocError>
    requires { ward_bits ≤ WARD_BITS_LIMIT }
    ensures table { IfOk result (λ directory. directory.table ≡ tables_joined wards.now) }
    ensures array { IfOk result (HasArrayOf ward_bits) }
    ensures sound { IfOk result (λ _. (number : ℕ) (ward : WardState K) → slice_get wards.now number ≡ Some ward → IsSoundWard K.pseudokey_of ward) }
{
    let mut directory = Directory::new(alloc, ward_bits)?;
    for ward in wards {
        directory.join_in(ward.table())?;
    }
    Ok(directory)
}

// How many notices each ward has.
fn notice_counts<P: Pages + Drop, K: Keyer>(
    alloc: Global,
    wards: &[Ward<P, K>],
) -> Result<Vec<usize>, AllocError>
    ensures { IfOk result (λ counts. counts.items ≡ map (λ ward. length ward.notices) wards.now) }
{
    let mut counts = Vec::new(alloc);
    for ward in wards {
        counts.push(ward.notices_after(0).len())?;
    }
    Ok(counts)
}
