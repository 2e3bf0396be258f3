//! Steps of a live file, each with what it comes to.
ghost use Rattle.std.specs.Prelude.{◌≡◌, ◌^◌, ◌≤◌, length, IfOk};
ghost use Rattle.std.specs.FinMap as map;
ghost use Rattle.exh_copy.specs.Additions.{AreOf};
ghost use Rattle.exh_prefix.specs.declared.prefix.TheConstants.{WARD_BITS_LIMIT};

use crate::lists::{EMPTIED, FILLED};
use crate::{Caller, PlainFile, Reader, Writer, is_carried, is_held, is_kept, is_told};
use exh_copy::{NewCopyFault, Start, new_copy};
use exh_fixtures::{Asked, Difference, Part, Run, Said, again, prefix, same, split, told_reply};
use exh_keyer::{Keyer, PlainKeyer};
use exh_live::{Cursors, Identity};
use exh_prefix::PageNo;
use exh_table::Table;
use exh_walk::{Gate, OpenGate, TurnGate};
use std::alloc::{AllocError, Global};
use std::mem::replace;
use std::sync::Wait;

/// A step of a live file, of its caller, or of the copy of its directory.
#[derive(Clone, Copy)]
pub enum LiveStep {
    /// A call.
    Call(Said<'static>),
    /// A call that is answered within so many turns.
    Within(u32, Said<'static>),
    /// A get of a key that takes more turns than these.
    Held(u32, &'static [u8]),
    /// The copy is told of the first split of the page of these bits: of this index, and with this right half.
    Tell(u64, &'static str, PageNo),
    /// A keeper's round in ward 0 that makes so many merges.
    Kept(u32),
    /// The same in the ward of this number.
    KeptIn(u8, u32),
    /// A courier's round that takes so many notices.
    Carried(u64),
    /// So many of a courier's rounds, each of which takes nothing.
    Idle(u32),
    /// After the three keys so many times: two of them are deleted, a keeper merges the two pages, and the two keys
    /// are put again, which takes a split.
    Refilled(u32),
    /// A call that is asked so many times, each time with the same reply.
    Often(u32, Said<'static>),
    /// A call of a caller that looks at a copy which was told of the first split of page 0, and is closed: it is
    /// answered at the turn after so many.
    Closed(u32, Said<'static>),
    /// The same as `Carried` of a courier to a copy that was told of nothing.
    Stale(u64),
    /// A courier's round of which the growth of this number is refused, where such are refused on asking: it is
    /// refused.
    Refused(u8),
    /// A told look for a key names this page.
    Named(&'static [u8], PageNo),
    /// A courier's round to another copy, which is new, takes so many notices; told looks at that copy for these keys
    /// name this page then.
    Anew(u64, &'static [&'static [u8]], PageNo),
}

// More bytes than any memory has. Who refuses growths on asking takes a growth of these and n more as asked to refuse
// the n-th one after it.
const ASKS: usize = 1 << 62;

/// Takes steps. The file has 2^`ward_bits` wards. These, and the copy that is told of them and at which the
/// caller looks, begin with this table.
pub fn take_steps<R: Wait, F: Identity, S: Start>(
    rt: &R,
    run: &mut Run,
    file: &PlainFile<F>,
    ward_bits: u8,
    caller: &mut Caller<F, S>,
    writer: &mut Writer<S>,
    start: &Table,
    lists: [&[LiveStep]; 2],
) -> Result<(), Difference>
    requires limit { file.now.ward_bits ≤ WARD_BITS_LIMIT }
    requires bits { ward_bits ≡ file.now.ward_bits }
    requires copy { S.ward_bits ≡ ward_bits }
    requires table { S.table ≡ map.empty }
    requires own { caller.old.copy.name ≡ writer.old.name }
{
    let mut cursors = first_cursors(run.alloc, ward_bits, start)?;
    let [first, second] = lists;
    take_list(
        rt,
        run,
        file,
        ward_bits,
        caller,
        writer,
        &mut cursors,
        first,
    );
    take_list(
        rt,
        run,
        file,
        ward_bits,
        caller,
        writer,
        &mut cursors,
        second,
    );
    Ok(())
}

fn take_list<R: Wait, F: Identity, S: Start>(
    rt: &R,
    run: &mut Run,
    file: &PlainFile<F>,
    ward_bits: u8,
    caller: &mut Caller<F, S>,
    writer: &mut Writer<S>,
    cursors: &mut Cursors,
    list: &[LiveStep],
)
    requires limit { file.now.ward_bits ≤ WARD_BITS_LIMIT }
    requires bits { ward_bits ≡ file.now.ward_bits }
    requires copy { S.ward_bits ≡ ward_bits }
    requires table { S.table ≡ map.empty }
    requires cursors { length cursors.old ≡ 2 ^ file.now.ward_bits }
    requires own { caller.old.copy.name ≡ writer.old.name }
    ensures cursors { length cursors.new ≡ 2 ^ file.now.ward_bits }
    ensures own { caller.new.copy.name ≡ writer.new.name }
{
    'steps: for step in list {
        let outcome = take(rt, run, file, ward_bits, caller, writer, cursors, step);
        run.tally.step(outcome);
    }
}

fn take<R: Wait, F: Identity, S: Start>(
    rt: &R,
    run: &mut Run,
    file: &PlainFile<F>,
    ward_bits: u8,
    caller: &mut Caller<F, S>,
    writer: &mut Writer<S>,
    cursors: &mut Cursors,
    step: &LiveStep,
) -> Result<(), Difference>
    requires limit { file.now.ward_bits ≤ WARD_BITS_LIMIT }
    requires bits { ward_bits ≡ file.now.ward_bits }
    requires copy { S.ward_bits ≡ ward_bits }
    requires table { S.table ≡ map.empty }
    requires cursors { length cursors.old ≡ 2 ^ file.now.ward_bits }
    requires own { caller.old.copy.name ≡ writer.old.name }
    ensures cursors { length cursors.new ≡ length cursors.old }
    ensures own { caller.new.copy.name ≡ writer.new.name }
{
    match step {
        LiveStep::Call(said) => is_called(rt, run, file, caller, said, &OpenGate),
        LiveStep::Within(turns, said) => {
            is_called(rt, run, file, caller, said, &TurnGate(*turns))
        }
        LiveStep::Held(turns, key) => {
            is_held(rt, file, caller, Asked::Get(key), &TurnGate(*turns))
        }
        LiveStep::Tell(index, bits, right) => tell(rt, writer, *index, bits, *right),
        LiveStep::Kept(merges) => is_kept_in(rt, file, ward_bits, 0, *merges),
        LiveStep::KeptIn(ward, merges) => is_kept_in(rt, file, ward_bits, *ward, *merges),
        LiveStep::Carried(notices) => is_carried(rt, file, writer, cursors, *notices),
        LiveStep::Idle(rounds) => are_idle(rt, file, writer, cursors, *rounds),
        LiveStep::Refilled(times) => are_refilled(rt, file, ward_bits, caller, *times),
        LiveStep::Often(times, said) => is_told_often(rt, file, caller, *times, said),
        LiveStep::Closed(turns, said) => {
            let closed = closed_reader(rt, run.alloc, ward_bits);
            is_told_closed(rt, file, caller, closed, *turns, said)
        }
        LiveStep::Stale(notices) => is_stale(rt, run.alloc, file, ward_bits, writer, *notices),
        LiveStep::Refused(growth) => is_refused(rt, run.alloc, file, writer, cursors, *growth),
        LiveStep::Named(key, page) => is_named(writer, &mut caller.copy, key, *page),
        LiveStep::Anew(notices, keys, page) => {
            is_carried_anew::<R, F, S>(rt, run.alloc, file, ward_bits, *notices, keys, *page)
        }
    }
}

// Whether a call has its reply under a gate. The first reply is taken for a wrong one where that is due.
fn is_called<R: Wait, F: Identity, S: Start, G: Gate>(
    rt: &R,
    run: &mut Run,
    file: &PlainFile<F>,
    caller: &mut Caller<F, S>,
    said: &Said<'static>,
    gate: &G,
) -> Result<(), Difference>
    ensures { caller.new.copy.name ≡ caller.old.copy.name }
{
    let reply = told_reply(&mut run.lie, said.reply()?);
    is_told(rt, file, caller, said.asked(), gate, reply)
}

// Whether a round of a courier to a copy that was told of nothing takes so many notices.
fn is_stale<R: Wait, F: Identity, S: Start>(
    rt: &R,
    alloc: Global,
    file: &PlainFile<F>,
    ward_bits: u8,
    writer: &mut Writer<S>,
    notices: u64,
) -> Result<(), Difference>
    requires limit { file.now.ward_bits ≤ WARD_BITS_LIMIT }
    requires bits { ward_bits ≡ file.now.ward_bits }
    ensures { writer.new.name ≡ writer.old.name }
{
    let mut others = first_cursors(alloc, ward_bits, &Table::new(alloc))?;
    is_carried(rt, file, writer, &mut others, notices)
}

// Whether a keeper's round in a ward makes so many merges. A `Difference` where there is no such ward.
fn is_kept_in<R: Wait, F: Identity>(
    rt: &R,
    file: &PlainFile<F>,
    ward_bits: u8,
    ward: u8,
    merges: u32,
) -> Result<(), Difference>
    requires limit { file.now.ward_bits ≤ WARD_BITS_LIMIT }
    requires bits { ward_bits ≡ file.now.ward_bits }
{
    if ward >= 1 << ward_bits {
        return Err(Difference::Apart(Part::Run));
    }
    is_kept(rt, file, ward, merges)
}

// Whether a courier's round is refused of which a growth is.
fn is_refused<R: Wait, F: Identity, S: Start>(
    rt: &R,
    alloc: Global,
    file: &PlainFile<F>,
    writer: &mut Writer<S>,
    cursors: &mut Cursors,
    growth: u8,
) -> Result<(), Difference>
    requires { length cursors.old ≡ 2 ^ file.now.ward_bits }
    ensures cursors { length cursors.new ≡ length cursors.old }
    ensures name { writer.new.name ≡ writer.old.name }
{
    let mut asked: Vec<u8> = Vec::new(alloc);
    let is_asked = asked.reserve(ASKS + usize::from(growth)).is_err();
    let is_refused = file.courier_round(rt, writer, cursors).is_err();
    same(is_asked && is_refused, Part::Refusal)
}

// Whether so many rounds of a courier take nothing.
fn are_idle<R: Wait, F: Identity, S: Start>(
    rt: &R,
    file: &PlainFile<F>,
    writer: &mut Writer<S>,
    cursors: &mut Cursors,
    rounds: u32,
) -> Result<(), Difference>
    requires { length cursors.old ≡ 2 ^ file.now.ward_bits }
    ensures cursors { length cursors.new ≡ length cursors.old }
    ensures name { writer.new.name ≡ writer.old.name }
{
    'rounds: for _ in 0..rounds {
        is_carried(rt, file, writer, cursors, 0)?;
    }
    Ok(())
}

// Whether the pages of the three keys are emptied, merged and filled again so many times.
fn are_refilled<R: Wait, F: Identity, S: Start>(
    rt: &R,
    file: &PlainFile<F>,
    ward_bits: u8,
    caller: &mut Caller<F, S>,
    times: u32,
) -> Result<(), Difference>
    requires limit { file.now.ward_bits ≤ WARD_BITS_LIMIT }
    requires bits { ward_bits ≡ file.now.ward_bits }
    ensures { caller.new.copy.name ≡ caller.old.copy.name }
{
    'times: for _ in 0..times {
        are_told(rt, file, caller, &EMPTIED)?;
        is_kept_in(rt, file, ward_bits, 0, 1)?;
        are_told(rt, file, caller, &FILLED)?;
    }
    Ok(())
}

fn are_told<R: Wait, F: Identity, S: Start>(
    rt: &R,
    file: &PlainFile<F>,
    caller: &mut Caller<F, S>,
    all: &[Said<'static>],
) -> Result<(), Difference>
    ensures { caller.new.copy.name ≡ caller.old.copy.name }
{
    'all: for said in all {
        is_told(rt, file, caller, said.asked(), &OpenGate, said.reply()?)?;
    }
    Ok(())
}

// Whether a call that is asked so many times has the same reply each time.
fn is_told_often<R: Wait, F: Identity, S: Start>(
    rt: &R,
    file: &PlainFile<F>,
    caller: &mut Caller<F, S>,
    times: u32,
    said: &Said<'static>,
) -> Result<(), Difference>
    ensures { caller.new.copy.name ≡ caller.old.copy.name }
{
    'times: for _ in 0..times {
        is_told(rt, file, caller, said.asked(), &OpenGate, said.reply()?)?;
    }
    Ok(())
}

// Whether a call of the caller, which meanwhile looks at another copy, is answered at the turn after so many.
fn is_told_closed<R: Wait, F: Identity, S: Start>(
    rt: &R,
    file: &PlainFile<F>,
    caller: &mut Caller<F, S>,
    closed: Result<Reader<S>, Difference>,
    turns: u32,
    said: &Said<'static>,
) -> Result<(), Difference>
    ensures { caller.new.copy.name ≡ caller.old.copy.name }
{
    let closed = closed?;
    let reply = said.reply()?;
    let own = replace(&mut caller.copy, closed);
    let held = is_held(rt, file, caller, said.asked(), &TurnGate(turns));
    let next = TurnGate(turns.saturating_add(1));
    let told = is_told(rt, file, caller, said.asked(), &next, reply);
    caller.copy = own;
    held.and(told)
}

// A reader of a copy that was told of the first split of page 0, and is closed.
fn closed_reader<R: Wait, S: Start>(
    rt: &R,
    alloc: Global,
    ward_bits: u8,
) -> Result<Reader<S>, Difference>
    requires limit { ward_bits ≤ WARD_BITS_LIMIT }
    requires copy { S.ward_bits ≡ ward_bits }
    requires table { S.table ≡ map.empty }
{
    match new_copy::<S>(alloc, ward_bits, &Table::new(alloc), 1) {
        Ok((mut writer, mut readers)) => {
            let told = tell(rt, &mut writer, 1, "", 1);
            drop(writer.close(rt));
            told?;
            readers.pop().ok_or(Difference::Apart(Part::Run))
        }
        Err(NewCopyFault::Memory) => Err(Difference::Memory(AllocError)),
        Err(NewCopyFault::NoPlace(writer)) => {
            drop(writer.close(rt));
            Err(Difference::Apart(Part::Run))
        }
    }
}

// The cursors of a courier to a copy that begins with a table.
fn first_cursors(alloc: Global, ward_bits: u8, table: &Table) -> Result<Cursors, Difference>
    requires { ward_bits ≤ WARD_BITS_LIMIT }
    ensures { IfOk result (λ cursors. length cursors ≡ 2 ^ ward_bits) }
{
    match again!(Err(AllocError) => Cursors::new(alloc, ward_bits, table)) {
        Ok(cursors) => Ok(cursors),
        Err(error) => Err(Difference::Memory(error)),
    }
}

// Tells the copy of a split.
fn tell<R: Wait, S: Start>(
    rt: &R,
    writer: &mut Writer<S>,
    index: u64,
    bits: &str,
    right: PageNo,
) -> Result<(), Difference>
    ensures { writer.new.name ≡ writer.old.name }
{
    let notice = split(index, prefix(bits)?, 1, right);
    again!(Err(AllocError) => writer.take(&notice))?;
    again!(Err(AllocError) => writer.publish(rt))?;
    Ok(())
}

// Tells a reader of the copy what was published: its look for a key names this page then.
fn is_named<S: Start>(
    writer: &mut Writer<S>,
    copy: &mut Reader<S>,
    key: &[u8],
    page: PageNo,
) -> Result<(), Difference>
    requires { copy.old.name ≡ writer.old.name }
    ensures { copy.new.name ≡ writer.new.name }
{
    match writer.tell() {
        Ok(handed) => copy.learn(handed),
        Err(_) => return Err(Difference::Apart(Part::Run)),
    }
    same(
        copy.look(PlainKeyer.pseudo(key)) == Some(page),
        Part::Pointer,
    )
}

// Whether a courier's round to a new copy takes so many notices, and told looks at it for these keys then name this page.
fn is_carried_anew<R: Wait, F: Identity, S: Start>(
    rt: &R,
    alloc: Global,
    file: &PlainFile<F>,
    ward_bits: u8,
    notices: u64,
    keys: &[&[u8]],
    page: PageNo,
) -> Result<(), Difference>
    requires limit { file.now.ward_bits ≤ WARD_BITS_LIMIT }
    requires bits { ward_bits ≡ file.now.ward_bits }
    requires copy { S.ward_bits ≡ ward_bits }
    requires table { S.table ≡ map.empty }
{
    let start = Table::new(alloc);
    let mut cursors = first_cursors(alloc, ward_bits, &start)?;
    match new_copy::<S>(alloc, ward_bits, &start, 1) {
        Ok((mut writer, mut readers)) => {
            let carried = is_carried(rt, file, &mut writer, &mut cursors, notices);
            let named = are_named(&mut writer, &mut readers, keys, page);
            drop(writer.close(rt));
            carried.and(named)
        }
        Err(NewCopyFault::Memory) => Err(Difference::Memory(AllocError)),
        Err(NewCopyFault::NoPlace(writer)) => {
            drop(writer.close(rt));
            Err(Difference::Apart(Part::Run))
        }
    }
}

// Whether told looks for these keys, by one of these readers of the copy, name this page.
fn are_named<S: Start>(
    writer: &mut Writer<S>,
    readers: &mut Vec<Reader<S>>,
    keys: &[&[u8]],
    page: PageNo,
) -> Result<(), Difference>
    requires { AreOf writer.old.name readers.old.items }
{
    let Some(mut copy) = readers.pop() else {
        return Err(Difference::Apart(Part::Run));
    };
    'keys: for key in keys {
        is_named(writer, &mut copy, key, page)?;
    }
    Ok(())
}
