ghost use Rattle.std.specs.Prelude.{◌≡◌, ◌≤◌, ◌↔◌, IfOk, IsErrOf};
ghost use Rattle.exh_frames.specs.CacheSize.{IsCacheSize};
ghost use Rattle.exh_page.specs.declared.page.TheConstants.{CAP_LIMIT};
ghost use Rattle.exh_prefix.specs.declared.prefix.TheConstants.{WARD_BITS_LIMIT};
ghost use Rattle.exh_world.specs.NewWorld.{new_world};
ghost use Rattle.exh_world.specs.Sound.{IsSoundWorld};

use super::World;
use crate::in_flight::InFlight;
use exh_array::{Copies, Directory};
use exh_frames::{CacheFault, FramedMaker, FramedPages};
use exh_keyer::Keyer;
use exh_page::Config;
use exh_stores::{Pages, PlainMaker, PlainPages, StoreMaker};
use exh_ward::new_wards;
use std::alloc::{AllocError, Global};

impl<K: Keyer> World<PlainPages, K> {
    /// The world of a new file, as `new_over`, with its pages in memory.
    pub fn new(alloc: Global, config: Config<K>) -> Result<World<PlainPages, K>, AllocError>
        requires some { 1 ≤ config.cap }
        requires most { config.cap ≤ CAP_LIMIT }
        requires bits { config.ward_bits ≤ WARD_BITS_LIMIT }
        ensures world { IfOk result (λ world. world ≡ new_world config) }
        ensures sound { IfOk result (IsSoundWorld K.pseudokey_of) }
    {
        World::new_over(alloc, &PlainMaker, config)
    }
}

impl<K: Keyer> World<FramedPages<K>, K> {
    /// The world of a new file, as `new_over`, with its pages as images, behind a cache of so many decoded pages in each
    /// ward, 1 to 1,024. `CacheFault::Size` for any other size; `CacheFault::Memory` where a growth is refused.
    pub fn new_framed(
        alloc: Global,
        config: Config<K>,
        cache_size: usize,
    ) -> Result<World<FramedPages<K>, K>, CacheFault>
        requires some { 1 ≤ config.cap }
        requires most { config.cap ≤ CAP_LIMIT }
        requires bits { config.ward_bits ≤ WARD_BITS_LIMIT }
        ensures size { IsErrOf result CacheFault.Size ↔ (IsCacheSize cache_size → ⊥) }
        ensures world { IfOk result (λ world. world ≡ new_world config) }
        ensures sound { IfOk result (IsSoundWorld K.pseudokey_of) }
    {
        let maker = FramedMaker::new(cache_size)?;
        Ok(World::new_over(alloc, &maker, config)?)
    }
}

impl<P: Pages + Drop, K: Keyer> World<P, K> {
    /// The world of a new file, over stores that the maker makes: each ward has one page of no record, no
    /// copy was told of a split, and no request is in flight. An `AllocError` where memory is refused.
    pub fn new_over<M: StoreMaker<P, K>>(
        alloc: Global,
        maker: &M,
        config: Config<K>,
    ) -> Result<World<P, K>, AllocError>
        requires some { 1 ≤ config.cap }
        requires most { config.cap ≤ CAP_LIMIT }
        requires bits { config.ward_bits ≤ WARD_BITS_LIMIT }
        ensures world { IfOk result (λ world. world ≡ new_world config) }
        ensures sound { IfOk result (IsSoundWorld K.pseudokey_of) }
    {
        let wards = new_wards(alloc, maker, config.file_settings())?;
        let mut noticed = Vec::new(alloc);
        noticed.resize(1 << config.ward_bits, 0)?;
        let start = Directory::new(alloc, config.ward_bits)?;
        let copies = Copies::new(alloc, start, config.copies)?;
        let in_flight = InFlight::new(alloc);
        Ok(World {
            alloc,
            cap: config.cap as usize,
            ward_bits: config.ward_bits,
            keyer: config.keyer,
            wards,
            noticed,
            copies,
            in_flight,
        })
    }
}
