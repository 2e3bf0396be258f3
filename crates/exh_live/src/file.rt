//! The new file of a storm, and what it leaves.
ghost use Rattle.std.specs.Prelude.{◌≡◌, ◌<◌, ◌^◌, map, IfOk, IfErr, OnOk};
ghost use Rattle.exh_prefix.specs.Leading.{ward_of};
ghost use Rattle.exh_calls.specs.Settled.{IsSettled, answer_count};
ghost use Rattle.exh_keyer.specs.Pseudokey.{sha_pseudokey};
ghost use Rattle.exh_live.specs.declared.ledgers.TheConstants.{ANSWER_PARTS, ENTRY_PARTS};
ghost use Rattle.exh_page.specs.StormConfig.{IsStormConfig};
ghost use Rattle.exh_live.specs.declared.fault.StormFault.TheVariants.{Mismatch as NotSettled};

use crate::{Closed, Identity, LiveFile, Outcomes, StormFault, WardJournals};
use exh_calls::{Diary, settle};
use exh_keyer::ShaKeyer;
use exh_page::{FileSettings, StormConfig};
use exh_stores::{Pages, StoreMaker};
use exh_ward::{Ward, new_wards};
use std::alloc::{AllocError, Global};
use std::sync::ledger::Blank;

/// The file of a storm, of keyer sha.
pub type StormFile<P, F> = LiveFile<P, ShaKeyer, F>;

/// A ward of it.
pub type StormWard<P> = Ward<P, ShaKeyer>;

/// What a settled storm leaves: the wards and the callers' diaries, each by their numbers, and how many
/// answers the diaries have.
#[derive(Drop)]
pub struct StormLeft<P: Pages + Drop> {
    pub closed: Closed<P, ShaKeyer>,
    pub answers: u64,
}

/// A storm that is over: what its workers came to, and what it leaves.
#[derive(Drop)]
pub struct StormEnd<P: Pages + Drop> {
    /// None where memory was refused before all workers were joined.
    pub outcomes: Option<Outcomes>,
    /// What is left, or the first refusal of the workers; where none was refused, why the file isn't settled.
    pub left: Result<StormLeft<P>, StormFault>,
}

/// The new file of a storm, of the cap and the ward bits that it asks for, over stores that the maker makes. An
/// `AllocError` where memory is refused.
pub fn new_file<P: Pages + Drop, M: StoreMaker<P, ShaKeyer>, F: Identity>(
    alloc: Global,
    maker: &M,
    config: &StormConfig,
    answers: Blank,
    entries: Blank,
) -> Result<StormFile<P, F>, AllocError>
    requires config { IsStormConfig config.now }
    requires answers { (answers.name ≡ F.answers) × (answers.parts ≡ ANSWER_PARTS) }
    requires entries { (entries.name ≡ F.entries) × (entries.parts ≡ ENTRY_PARTS) }
    requires hashed { F.hashing ≡ sha_pseudokey }
    ensures settings { IfOk result (λ file. (file.cap ≡ config.now.cap) × (file.ward_bits ≡ config.now.ward_bits)) }
    ensures seats { IfOk result (λ file. file.seats ≡ 0) }
{
    let settings = FileSettings {
        cap: config.cap as u8,
        ward_bits: config.ward_bits,
        keyer: ShaKeyer,
    };
    let wards = new_wards(alloc, maker, settings)?;
    LiveFile::new(alloc, wards, answers, entries)
}

/// How many answers the diaries of a closed file and its wards, in order, settle to; else `Mismatch`.
/// There are fewer than 2^64.
pub(crate) fn settled<P: Pages + Drop>(
    config: &StormConfig,
    wards: &[StormWard<P>],
    diaries: &[Diary],
) -> Result<u64, StormFault>
    requires config { IsStormConfig config.now }
    requires few { answer_count diaries.now < 2 ^ 64 }
    ensures settled { OnOk result (IsSettled (λ key. ward_of config.now.ward_bits (sha_pseudokey key)) (map (λ ward. ward.journal) wards.now) diaries.now) }
    ensures count { IfOk result (λ count. count ≡ answer_count diaries.now) }
    ensures fault { IfErr result (λ fault. (fault ≡ NotSettled) × (¬ IsSettled (λ key. ward_of config.now.ward_bits (sha_pseudokey key)) (map (λ ward. ward.journal) wards.now) diaries.now)) }
{
    let journals = WardJournals {
        ward_bits: config.ward_bits,
        keyer: ShaKeyer,
        wards,
    };
    match settle(&journals, diaries) {
        Ok(settled) => Ok(settled.answers as u64),
        Err(_) => Err(StormFault::Mismatch),
    }
}
