//! Live files of stores that are looked at.
ghost use Rattle.std.specs.Prelude.{◌≡◌, ◌≤◌, IfOk};
ghost use Rattle.exh_keyer.specs.Pseudokey.{plain_pseudokey};
ghost use Rattle.exh_live.specs.declared.ledgers.TheConstants.{ANSWER_PARTS, ENTRY_PARTS};
ghost use Rattle.exh_prefix.specs.declared.prefix.TheConstants.{WARD_BITS_LIMIT};

use crate::watched_pages::{WatchedMaker, WatchedPages};
use crate::{CAP, File};
use exh_keyer::PlainKeyer;
use exh_live::{ANSWER_PARTS, ENTRY_PARTS, Identity, LiveFile};
use exh_page::FileSettings;
use exh_stores::{Pages, StoreMaker};
use exh_ward::new_wards;
use std::alloc::{AllocError, Global};
use std::sync::ledger::Blank;
use std::time::Clock;

/// A live file of such stores, of keyer plain.
pub type WatchedFile<'a, P, R, F> = File<WatchedPages<'a, P, R>, F>;

/// A new one of 2^`ward_bits` wards, of pages of two records. An `AllocError` where memory is refused.
pub fn watched_file<'a, P: Pages + Drop, M: StoreMaker<P, PlainKeyer>, R: Clock, F: Identity>(
    alloc: Global,
    maker: &WatchedMaker<'a, M, R>,
    ward_bits: u8,
    answers: Blank,
    entries: Blank,
) -> Result<WatchedFile<'a, P, R, F>, AllocError>
    requires bits { ward_bits ≤ WARD_BITS_LIMIT }
    requires answers { (answers.name ≡ F.answers) × (answers.parts ≡ ANSWER_PARTS) }
    requires entries { (entries.name ≡ F.entries) × (entries.parts ≡ ENTRY_PARTS) }
    requires hashed { F.hashing ≡ plain_pseudokey }
    ensures settings { IfOk result (λ file. (file.cap ≡ CAP) × (file.ward_bits ≡ ward_bits)) }
{
    let settings = FileSettings {
        cap: CAP as u8,
        ward_bits,
        keyer: PlainKeyer,
    };
    let wards = new_wards(alloc, maker, settings)?;
    LiveFile::new(alloc, wards, answers, entries)
}
