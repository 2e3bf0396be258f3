//! A live file whose pages are all out of reach once its keys are put: a courier carries what it carries over pages in
//! memory, while calls and a keeper's rounds are refused.
ghost use Rattle.std.specs.Prelude.{◌≡◌, ◌^◌, ℕ, length, IfOk};
ghost use Rattle.std.specs.FinMap as map;
ghost use Rattle.exh_keyer.specs.Pseudokey.{plain_pseudokey};
ghost use Rattle.exh_copy.specs.Additions.{AreOf};
ghost use Rattle.exh_live.specs.LiveFile.{IsNewWardOf};
ghost use Rattle.exh_live.specs.declared.ledgers.TheConstants.{ANSWER_PARTS, ENTRY_PARTS};

use crate::{
    CAP, Caller, File, Reader, Writer, close, is_carried, is_told, keep, next_caller,
    one_ward_file, settled,
};
use exh_calls::Reply;
use exh_copy::{NewCopyFault, Start, new_copy};
use exh_fixtures::{Asked, BrokenPages, Difference, Part, Said, first_store, same};
use exh_keyer::{Keyer, PlainKeyer};
use exh_live::{ANSWER_PARTS, Cursors, ENTRY_PARTS, Identity};
use exh_prefix::PageNo;
use exh_table::Table;
use exh_walk::OpenGate;
use exh_ward::Ward;
use std::alloc::{AllocError, Global};
use std::marker::Brand;
use std::sync::Wait;
use std::sync::ledger::Blank;

type BrokenFile<F> = File<BrokenPages, F>;

// Three puts, of which the third takes one split where a page has two records: `#80` is in page 1 then.
const PUTS: [Said<'static>; 3] = [
    Said::New(b"\0", b"a"),
    Said::New(b"\x80", b"b"),
    Said::New(b"\x40", b"x"),
];

const ANSWERS: u128 = 3;

const MOVED_KEY: &[u8] = b"\x80";

const ITS_PAGE: PageNo = 1;

// More calls of pages than the puts make.
const MOST: u64 = 100;

// The refusal of a page that is out of reach.
const OUT_OF_REACH: u8 = 11;

// Plays the story over pages of which no call is done, one, two, and so on, up to those by which the puts are answered.
fn play<R: Wait>(rt: &R, alloc: Global) -> Result<(), Difference> {
    for calls in 0..MOST {
        if play_broken(rt, alloc, calls)? {
            return Ok(());
        }
    }
    Err(Difference::Apart(Part::Run))
}

// Plays the story over pages of which so many calls are done. Answers whether the puts were answered by these.
fn play_broken<R: Wait>(rt: &R, alloc: Global, calls: u64) -> Result<bool, Difference> {
    let answers = Blank::new(ANSWER_PARTS);
    let entries = Blank::new(ENTRY_PARTS);
    with_copy::<R, Brand, Brand>(rt, alloc, calls, answers, entries)
}

fn with_copy<R: Wait, F: Identity, S: Start>(
    rt: &R,
    alloc: Global,
    calls: u64,
    answers: Blank,
    entries: Blank,
) -> Result<bool, Difference>
    requires copy { S.ward_bits ≡ 0 }
    requires table { S.table ≡ map.empty }
    requires answers { (answers.name ≡ F.answers) × (answers.parts ≡ ANSWER_PARTS) }
    requires entries { (entries.name ≡ F.entries) × (entries.parts ≡ ENTRY_PARTS) }
    requires hashed { F.hashing ≡ plain_pseudokey }
{
    match new_copy::<S>(alloc, 0, &Table::new(alloc), 1) {
        Ok((mut writer, mut copies)) => {
            let outcome = take_file::<R, F, S>(
                rt,
                alloc,
                calls,
                &mut writer,
                &mut copies,
                answers,
                entries,
            );
            drop(writer.close(rt));
            outcome
        }
        Err(NewCopyFault::Memory) => Err(Difference::Memory(AllocError)),
        Err(NewCopyFault::NoPlace(writer)) => {
            drop(writer.close(rt));
            Err(Difference::Apart(Part::Run))
        }
    }
}

// What the caller was answered settles with what its ward answered.
fn take_file<R: Wait, F: Identity, S: Start>(
    rt: &R,
    alloc: Global,
    calls: u64,
    writer: &mut Writer<S>,
    copies: &mut Vec<Reader<S>>,
    answers: Blank,
    entries: Blank,
) -> Result<bool, Difference>
    requires own { AreOf writer.old.name copies.old.items }
    requires answers { (answers.name ≡ F.answers) × (answers.parts ≡ ANSWER_PARTS) }
    requires entries { (entries.name ≡ F.entries) × (entries.parts ≡ ENTRY_PARTS) }
    requires hashed { F.hashing ≡ plain_pseudokey }
{
    let mut seats = Vec::new(alloc);
    seats.reserve(1)?;
    let mut file = broken_file::<F>(alloc, calls, answers, entries)?;
    let mut caller = next_caller(&mut file, copies)?;
    let is_played = take_steps(rt, alloc, &file, &mut caller, writer)?;
    seats.push_reserved(caller.seat);
    let closed = close(file, seats).map_err(Difference::Refused)?;
    let count = settled(0, closed.wards.as_slice(), closed.diaries.as_slice());
    same(!is_played || count == Ok(ANSWERS), Part::Journal)?;
    Ok(is_played)
}

fn take_steps<R: Wait, F: Identity, S: Start>(
    rt: &R,
    alloc: Global,
    file: &BrokenFile<F>,
    caller: &mut Caller<F, S>,
    writer: &mut Writer<S>,
) -> Result<bool, Difference>
    requires bits { file.now.ward_bits ≡ 0 }
    requires own { caller.old.copy.name ≡ writer.old.name }
{
    if !are_put(rt, file, caller)? {
        return Ok(false);
    }
    are_unreached(rt, file, caller)?;
    take_rounds(rt, alloc, file, caller, writer)?;
    are_unreached(rt, file, caller)?;
    Ok(true)
}

// Whether the puts were answered before pages were out of reach.
fn are_put<R: Wait, F: Identity, S: Start>(
    rt: &R,
    file: &BrokenFile<F>,
    caller: &mut Caller<F, S>,
) -> Result<bool, Difference>
    ensures { caller.new.copy.name ≡ caller.old.copy.name }
{
    'puts: for said in &PUTS {
        let told = is_told(rt, file, caller, said.asked(), &OpenGate, said.reply()?);
        if is_out_of_reach(told.err()) {
            return Ok(false);
        }
        told?;
    }
    Ok(true)
}

// A call and a keeper's round are refused.
fn are_unreached<R: Wait, F: Identity, S: Start>(
    rt: &R,
    file: &BrokenFile<F>,
    caller: &mut Caller<F, S>,
) -> Result<(), Difference>
    requires { file.now.ward_bits ≡ 0 }
    ensures { caller.new.copy.name ≡ caller.old.copy.name }
{
    let get = Asked::Get(MOVED_KEY);
    let got = is_told(rt, file, caller, get, &OpenGate, Reply::None);
    let kept = keep(rt, file, 0);
    same(
        is_out_of_reach(got.err()) && is_out_of_reach(kept.err()),
        Part::Refusal,
    )
}

fn is_out_of_reach(fault: Option<Difference>) -> bool {
    matches!(fault, Some(Difference::Refused(OUT_OF_REACH)))
}

// A round carries the notice of the split, which a told look shows, and the next round none.
fn take_rounds<R: Wait, F: Identity, S: Start>(
    rt: &R,
    alloc: Global,
    file: &BrokenFile<F>,
    caller: &mut Caller<F, S>,
    writer: &mut Writer<S>,
) -> Result<(), Difference>
    requires bits { file.now.ward_bits ≡ 0 }
    requires own { caller.old.copy.name ≡ writer.old.name }
{
    let mut cursors = Cursors::new(alloc, 0, &Table::new(alloc))?;
    is_carried(rt, file, writer, &mut cursors, 1)?;
    let Ok(handed) = writer.tell() else {
        return Err(Difference::Apart(Part::Run));
    };
    caller.copy.learn(handed);
    let page = caller.copy.look(PlainKeyer.pseudo(MOVED_KEY));
    same(page == Some(ITS_PAGE), Part::Pointer)?;
    is_carried(rt, file, writer, &mut cursors, 0)
}

// A new file of one ward, of whose pages so many calls are done.
fn broken_file<F: Identity>(
    alloc: Global,
    calls: u64,
    answers: Blank,
    entries: Blank,
) -> Result<BrokenFile<F>, AllocError>
    requires answers { (answers.name ≡ F.answers) × (answers.parts ≡ ANSWER_PARTS) }
    requires entries { (entries.name ≡ F.entries) × (entries.parts ≡ ENTRY_PARTS) }
    requires hashed { F.hashing ≡ plain_pseudokey }
    ensures { IfOk result (λ file. file.ward_bits ≡ 0) }
{
    let keyer = PlainKeyer;
    let ward = broken_ward(alloc, keyer, calls)?;
    one_ward_file(alloc, keyer, ward, answers, entries)
}

fn broken_ward(
    alloc: Global,
    keyer: PlainKeyer,
    calls: u64,
) -> Result<Ward<BrokenPages, PlainKeyer>, AllocError>
    ensures { IfOk result (IsNewWardOf 2 0 keyer 0) }
{
    let store = BrokenPages {
        inner: first_store(alloc, 0, 0)?,
        left: calls,
        failures: 0,
    };
    Ok(Ward::new(alloc, store, CAP as u8, 0, 0, keyer))
}

#[test]
fn a_courier_reaches_no_page(rt: HostRuntime) {
    assert!(rt; play(&rt, rt.alloc()).is_ok());
}
