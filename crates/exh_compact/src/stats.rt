ghost use Rattle.std.specs.Prelude.{◌≡◌, IfErr, IfOk, OnOk};
ghost use Rattle.exhash.specs.Opened.{AreWardsOf, in_file};
ghost use Rattle.exh_compact.specs.Reach.{AreLeft};
ghost use Rattle.exh_compact.specs.Stats.{AreStatsOf};

use crate::WardCounts;
use crate::counting::{
    block_bytes, by_bits, by_records, byte_count, forward_count, full_limit_count, limit_count,
    live_count, longest, record_count,
};
use crate::gathering::gathered;
use exh_keyer::AnyKeyer;
use exh_page::FileSettings;
use exh_prefix::Prefix;
use exh_stores::Pages;
use exh_ward::{Ward, WardFault};
use std::alloc::Global;

/// How many numbers of records a page may have: 0 to 16.
pub const RECORD_COUNTS: usize = 17;

/// How many lengths a prefix may have: 0 to `LIMIT`.
pub const BIT_COUNTS: usize = 21;

/// How much a page file has.
#[derive(Drop)]
pub struct Stats {
    /// Its version: 1, 2 or 3.
    pub version: u8,
    pub settings: FileSettings<AnyKeyer>,
    pub records: u64,
    /// How many live pages it has, and how many forwarding ones.
    pub live: u64,
    pub forwarding: u64,
    /// How many live pages have so many records: none, one, and so on up to 16.
    pub by_records: [u64; RECORD_COUNTS],
    /// How many live pages have a prefix of so many bits: none, one, and so on up to `LIMIT`.
    pub by_bits: [u64; BIT_COUNTS],
    /// The first of the longest prefixes; its length is the file's depth.
    pub longest: Prefix,
    /// How many live pages have a prefix of `LIMIT` bits, so that they can't be split, and how many of these are full.
    pub at_limit: u64,
    pub full_at_limit: u64,
    /// How many bytes of the pages' blocks the records take.
    pub record_bytes: u64,
    /// How many bytes these blocks have, 4,096 each.
    pub page_bytes: u64,
    /// How much each ward has, in the order of their numbers.
    pub wards: Vec<WardCounts>,
}

/// How much the file of these wards and settings has, which is of this version. It takes memory for some bytes a page.
///
/// `Memory`: a growth was refused. `Page`: a page is out of reach, which its ward has counted.
pub fn stats_of<P: Pages + Drop>(
    alloc: Global,
    version: u8,
    settings: FileSettings<AnyKeyer>,
    wards: &mut Vec<Ward<P, AnyKeyer>>,
) -> Result<Stats, WardFault>
    requires { AreWardsOf (in_file settings wards.old.items) }
    ensures stats { IfOk result (AreStatsOf version (in_file settings wards.old.items)) }
    ensures same { OnOk result (wards.new.items ≡ wards.old.items) }
    ensures err { IfErr result (AreLeft wards.old.items wards.new.items) }
{
    let gathered = gathered(alloc, wards)?;
    let shapes = gathered.shapes.as_slice();
    Ok(Stats {
        version,
        settings,
        records: record_count(shapes),
        live: live_count(shapes),
        forwarding: forward_count(shapes),
        by_records: by_records(shapes),
        by_bits: by_bits(shapes),
        longest: longest(shapes),
        at_limit: limit_count(shapes),
        full_at_limit: full_limit_count(settings.cap, shapes),
        record_bytes: byte_count(shapes),
        page_bytes: block_bytes(shapes),
        wards: gathered.wards,
    })
}
