//! New live files of keyer plain, and what they leave.
ghost use Rattle.std.specs.Prelude.{◌≡◌, ◌≤◌, IfOk};
ghost use Rattle.exh_keyer.specs.Pseudokey.{plain_pseudokey};
ghost use Rattle.exh_live.specs.LiveFile.{IsNewWardOf};
ghost use Rattle.exh_page.specs.declared.page.TheConstants.{CAP_LIMIT};
ghost use Rattle.exh_live.specs.declared.ledgers.TheConstants.{ANSWER_PARTS, ENTRY_PARTS};
ghost use Rattle.exh_prefix.specs.declared.prefix.TheConstants.{WARD_BITS_LIMIT};

use crate::caller::{File, PlainFile};
use exh_calls::{Diary, Mismatch, settle};
use exh_fixtures::{Difference, Part, Run, same};
use exh_keyer::PlainKeyer;
use exh_live::{
    ANSWER_PARTS, CloseFault, Closed, ENTRY_PARTS, Identity, LiveFile, Seat, WardJournals,
};
use exh_page::{CAP_LIMIT, FileSettings};
use exh_stores::{Pages, PlainMaker, PlainPages};
use exh_ward::{Ward, new_wards};
use std::alloc::{AllocError, Global};
use std::sync::ledger::Blank;

/// How many records a page of a story's file holds.
pub const CAP: usize = 2;

/// A ward of a file of keyer plain, with its pages in memory.
pub type PlainWard = Ward<PlainPages, PlainKeyer>;

/// A new file of 2^`ward_bits` wards, of pages of at most `cap` records and of keyer plain. An
/// `AllocError` where memory is refused.
pub fn new_file<F: Identity>(
    alloc: Global,
    cap: usize,
    ward_bits: u8,
    answers: Blank,
    entries: Blank,
) -> Result<PlainFile<F>, AllocError>
    requires some { 1 ≤ cap }
    requires most { cap ≤ CAP_LIMIT }
    requires bits { ward_bits ≤ WARD_BITS_LIMIT }
    requires answers { (answers.name ≡ F.answers) × (answers.parts ≡ ANSWER_PARTS) }
    requires entries { (entries.name ≡ F.entries) × (entries.parts ≡ ENTRY_PARTS) }
    requires hashed { F.hashing ≡ plain_pseudokey }
    ensures settings { IfOk result (λ file. (file.cap ≡ cap) × (file.ward_bits ≡ ward_bits)) }
{
    let settings = FileSettings {
        cap: cap as u8,
        ward_bits,
        keyer: PlainKeyer,
    };
    let wards = new_wards(alloc, &PlainMaker, settings)?;
    LiveFile::new(alloc, wards, answers, entries)
}

/// A file of this new ward alone, of a story's pages. An `AllocError` where memory is refused.
pub fn one_ward_file<P: Pages + Drop, F: Identity>(
    alloc: Global,
    keyer: PlainKeyer,
    ward: Ward<P, PlainKeyer>,
    answers: Blank,
    entries: Blank,
) -> Result<File<P, F>, AllocError>
    requires new { IsNewWardOf CAP 0 keyer 0 ward }
    requires answers { (answers.name ≡ F.answers) × (answers.parts ≡ ANSWER_PARTS) }
    requires entries { (entries.name ≡ F.entries) × (entries.parts ≡ ENTRY_PARTS) }
    requires hashed { F.hashing ≡ plain_pseudokey }
    ensures settings { IfOk result (λ file. (file.cap ≡ CAP) × (file.ward_bits ≡ 0)) }
{
    let mut wards = Vec::new(alloc);
    wards.push(ward)?;
    LiveFile::new(alloc, wards, answers, entries)
}

/// What a file leaves that is closed with these seats, once more where memory was refused; else the
/// refusal's number.
pub fn close<P: Pages + Drop, F: Identity>(
    file: File<P, F>,
    seats: Vec<Seat<F>>,
) -> Result<Closed<P, PlainKeyer>, u8> {
    match file.close(seats) {
        Ok(closed) => Ok(closed),
        Err(back) if back.fault == CloseFault::Memory => close_once(back.file, back.seats),
        Err(back) => Err(back.fault.number()),
    }
}

fn close_once<P: Pages + Drop, F: Identity>(
    file: File<P, F>,
    seats: Vec<Seat<F>>,
) -> Result<Closed<P, PlainKeyer>, u8> {
    match file.close(seats) {
        Ok(closed) => Ok(closed),
        Err(back) => Err(back.fault.number()),
    }
}

/// Closes a file of 2^`ward_bits` wards with these seats, and counts as a step whether its diaries and
/// wards settle to so many answers. A `Difference` where it can't be closed.
pub fn close_settled<P: Pages + Drop, F: Identity>(
    run: &mut Run,
    ward_bits: u8,
    file: File<P, F>,
    seats: Vec<Seat<F>>,
    answers: u128,
) -> Result<Closed<P, PlainKeyer>, Difference>
    requires { ward_bits ≤ WARD_BITS_LIMIT }
{
    let closed = close(file, seats).map_err(Difference::Refused)?;
    let count = settled(
        ward_bits,
        closed.wards.as_slice(),
        closed.diaries.as_slice(),
    );
    run.tally.step(same(count == Ok(answers), Part::Journal));
    Ok(closed)
}

/// How many answers the diaries and the wards settle to, or else the refusal's number.
pub fn settled<P: Pages + Drop>(
    ward_bits: u8,
    wards: &[Ward<P, PlainKeyer>],
    diaries: &[Diary],
) -> Result<u128, u8>
    requires { ward_bits ≤ WARD_BITS_LIMIT }
{
    let journals = WardJournals {
        ward_bits,
        keyer: PlainKeyer,
        wards,
    };
    match settle(&journals, diaries) {
        Ok(settled) => Ok(settled.answers),
        Err(_) => Err(Mismatch::NUMBER),
    }
}
