//! A file served to callers on threads of their own, until each has put its pairs, and what it leaves.
ghost use Rattle.std.specs.Prelude.{◌≡◌, ◌≤◌, ◌^◌, length};
ghost use Rattle.exh_keyer.specs.Pseudokey.{any_pseudokey};
ghost use Rattle.exh_live.specs.declared.ledgers.TheConstants.{ANSWER_PARTS, ENTRY_PARTS};
ghost use Rattle.exh_prefix.specs.declared.prefix.TheConstants.{WARD_BITS_LIMIT};
ghost use Rattle.example_threads.specs.Unasked.{AreUnasked};

use crate::caller::{Caller, File, Pair};
use anyhow::{Context, bail};
use exh_copy::{CopyReader, CopyWriter, NewCopyFault, Start, new_copy};
use exh_frames::FileStore;
use exh_join::Join;
use exh_keyer::AnyKeyer;
use exh_live::{ANSWER_PARTS, Closed, Cursors, ENTRY_PARTS, Identity, LiveFile, Seat, settle};
use exh_page::{FileSettings, Key, Value};
use exh_system::Opened;
use exh_table::Table;
use exh_ward::Ward;
use std::alloc::{AllocError, Global};
use std::marker::Brand;
use std::sync::Wait;
use std::sync::ledger::Blank;
use std::thread::{self, JoinHandle, Scope, Threads};

// What each caller puts, each into a ward of its own: so the pages that come of it don't depend on who comes first. One
// more reads values back.
const WORK: [&[Pair]; 2] = [
    &[("fay", "pink")],
    &[("gil", "gold"), ("hal", "grey"), ("ivy", "brown")],
];

const CALLERS: u16 = 3;

/// The keys whose values are read back.
pub const NAMES: [&str; 9] = [
    "ann", "bob", "cid", "dan", "eve", "fay", "gil", "hal", "ivy",
];

/// What a service leaves: the wards, the values of those keys, and how many answers were settled.
#[derive(Drop)]
pub struct Served {
    pub opened: Opened<FileStore>,
    pub values: Vec<Value>,
    pub answers: u128,
}

// The seats of all callers, and the values that the last one got.
#[derive(Drop)]
struct Done<F: Identity> {
    seats: Vec<Seat<F>>,
    values: Vec<Value>,
}

// A caller's thread.
type Thread<F, S> = JoinHandle<(Caller<F, S>, anyhow::Result<()>)>;

/// Serves the wards of a page file, of which nothing was asked yet.
///
/// An error: memory or a page was refused, or what is left isn't settled.
pub fn serve<R: Threads + Wait + Sync>(
    rt: &R,
    alloc: Global,
    opened: Opened<FileStore>,
) -> anyhow::Result<Served>
    requires { AreUnasked opened }
{
    let table = told_table(alloc, opened.wards())?;
    let answers = Blank::new(ANSWER_PARTS);
    let entries = Blank::new(ENTRY_PARTS);
    serve_as::<R, Brand, Brand>(rt, alloc, opened, &table, answers, entries)
}

// What the wards tell of their splits and merges so far: what a copy of the directory begins with.
fn told_table(alloc: Global, wards: &[Ward<FileStore, AnyKeyer>]) -> Result<Table, AllocError> {
    let mut table = Table::new(alloc);
    for ward in wards {
        table.join_in(ward.table())?;
    }
    Ok(table)
}

// The same, over a live file and a copy of these names.
fn serve_as<R: Threads + Wait + Sync, F: Identity + Send + Sync, S: Start + Send + Sync>(
    rt: &R,
    alloc: Global,
    opened: Opened<FileStore>,
    table: &Table,
    answers: Blank,
    entries: Blank,
) -> anyhow::Result<Served>
    requires unasked { AreUnasked opened }
    requires answers { (answers.name ≡ F.answers) × (answers.parts ≡ ANSWER_PARTS) }
    requires entries { (entries.name ≡ F.entries) × (entries.parts ≡ ENTRY_PARTS) }
    requires hashed { F.hashing ≡ any_pseudokey opened.keyer }
    requires start { (S.table ≡ table.now) × (S.ward_bits ≡ opened.ward_bits) }
{
    let settings = opened.settings();
    let ward_bits = settings.ward_bits;
    let wards = opened.into_wards();
    let mut file: File<F> = LiveFile::new(alloc, wards, answers, entries)?;
    let Done { seats, values } = serve_copy::<R, F, S>(rt, alloc, ward_bits, &mut file, table)?;
    let closed = file.close(seats);
    match closed {
        Ok(closed) => settle_all(settings, closed, values),
        Err(back) => Err(back.fault.into()),
    }
}

// What a closed file leaves, where its callers' diaries and its wards' journals say the same.
fn settle_all(
    settings: FileSettings<AnyKeyer>,
    closed: Closed<FileStore, AnyKeyer>,
    values: Vec<Value>,
) -> anyhow::Result<Served> {
    let Closed { wards, diaries } = closed;
    let answers = settle(&wards, &diaries)?.answers;
    let opened = Opened::from_wards(settings, wards);
    match opened {
        Ok(opened) => Ok(Served {
            opened,
            values,
            answers,
        }),
        Err(_) => bail!("the wards aren't those of one file"),
    }
}

// Lets the callers put and get through a new copy of the directory, which is closed afterwards.
fn serve_copy<R: Threads + Wait + Sync, F: Identity + Send + Sync, S: Start + Send + Sync>(
    rt: &R,
    alloc: Global,
    ward_bits: u8,
    file: &mut File<F>,
    table: &Table,
) -> anyhow::Result<Done<F>>
    requires limit { ward_bits ≤ WARD_BITS_LIMIT }
    requires bits { file.old.ward_bits ≡ ward_bits }
    requires start { (S.table ≡ table.now) × (S.ward_bits ≡ ward_bits) }
{
    let mut cursors = Cursors::new(alloc, ward_bits, table)?;
    let copy = new_copy::<S>(alloc, ward_bits, table, CALLERS);
    match copy {
        Ok((mut writer, readers)) => {
            let done = serve_callers(rt, alloc, file, readers, &mut writer, &mut cursors);
            drop(writer.close(rt));
            done
        }
        Err(NewCopyFault::Memory) => bail!("memory was refused"),
        Err(NewCopyFault::NoPlace(writer)) => {
            drop(writer.close(rt));
            bail!("no reader was given")
        }
    }
}

// Lets all callers but the last put their pairs at once, and the last one get what was put.
fn serve_callers<R: Threads + Wait + Sync, F: Identity + Send + Sync, S: Start + Send + Sync>(
    rt: &R,
    alloc: Global,
    file: &mut File<F>,
    readers: Vec<CopyReader<S>>,
    writer: &mut CopyWriter<S>,
    cursors: &mut Cursors,
) -> anyhow::Result<Done<F>>
    requires { length cursors.old ≡ 2 ^ file.old.ward_bits }
{
    let mut callers = new_callers(alloc, file, readers)?;
    let mut last = callers.pop().context("there is no caller")?;
    let mut seats = put_at_once(rt, alloc, file, callers, writer, cursors)?;
    let values = get_all(rt, alloc, file, &mut last)?;
    seats.push(last.seat)?;
    Ok(Done { seats, values })
}

// A caller for each reader of the copy, with a seat of the file.
fn new_callers<F: Identity, S: Start>(
    alloc: Global,
    file: &mut File<F>,
    readers: Vec<CopyReader<S>>,
) -> anyhow::Result<Vec<Caller<F, S>>>
    ensures { file.new.ward_bits ≡ file.old.ward_bits }
{
    let mut callers = Vec::new(alloc);
    for copy in readers {
        let seat = file.seat()?;
        callers.push(Caller { seat, copy })?;
    }
    Ok(callers)
}

// Lets callers put their pairs, each on a thread of its own, while this one tells their copy of splits.
fn put_at_once<R: Threads + Wait + Sync, F: Identity + Send + Sync, S: Start + Send + Sync>(
    rt: &R,
    alloc: Global,
    file: &File<F>,
    callers: Vec<Caller<F, S>>,
    writer: &mut CopyWriter<S>,
    cursors: &mut Cursors,
) -> anyhow::Result<Vec<Seat<F>>>
    requires { length cursors.old ≡ 2 ^ file.now.ward_bits }
{
    thread::scope(
        thread::scope_env(),
        rt,
        move |scope| -> anyhow::Result<Vec<Seat<F>>>
            requires { length cursors.now ≡ 2 ^ file.now.ward_bits }
        {
            let threads = start_callers(scope, rt, alloc, file, callers)?;
            join_callers(rt, alloc, file, threads, writer, cursors)
        },
    )
}

// Starts a thread for each caller.
fn start_callers<
    's,
    E,
    R: Wait + Sync,
    F: Identity + Send + Sync + 's,
    S: Start + Send + Sync + 's,
>(
    scope: &Scope<'s, E>,
    rt: &'s R,
    alloc: Global,
    file: &'s File<F>,
    callers: Vec<Caller<F, S>>,
) -> Result<Vec<Thread<F, S>>, AllocError> {
    let mut threads = Vec::new(alloc);
    for (number, caller) in callers.into_iter().enumerate() {
        let spawned = scope.spawn(move || put_work(rt, file, caller, number));
        threads.push(spawned.map_err(|_| AllocError)?)?;
    }
    Ok(threads)
}

// Lets a caller put the pairs of its number.
fn put_work<R: Wait, F: Identity, S: Start>(
    rt: &R,
    file: &File<F>,
    caller: Caller<F, S>,
    number: usize,
) -> (Caller<F, S>, anyhow::Result<()>) {
    let mut caller = caller;
    let put = match WORK.get(number) {
        Some(pairs) => caller.put_all(rt, file, pairs),
        None => Ok(()),
    };
    (caller, put)
}

// Carries notices to the copy until the callers are done, and gives their seats.
fn join_callers<R: Threads + Wait, F: Identity, S: Start>(
    rt: &R,
    alloc: Global,
    file: &File<F>,
    threads: Vec<Thread<F, S>>,
    writer: &mut CopyWriter<S>,
    cursors: &mut Cursors,
) -> anyhow::Result<Vec<Seat<F>>>
    requires { length cursors.old ≡ 2 ^ file.now.ward_bits }
{
    let mut seats = Vec::new(alloc);
    for thread in threads {
        file.courier_round(rt, writer, cursors)?;
        let (caller, put) = thread.join(rt);
        put?;
        seats.push(caller.seat)?;
    }
    file.courier_round(rt, writer, cursors)?;
    Ok(seats)
}

// The values of the keys that are read back.
fn get_all<R: Wait, F: Identity, S: Start>(
    rt: &R,
    alloc: Global,
    file: &File<F>,
    caller: &mut Caller<F, S>,
) -> anyhow::Result<Vec<Value>> {
    let mut values = Vec::new(alloc);
    for name in NAMES {
        let key = Key::from_bytes(name.as_bytes())?;
        let value = caller.get(rt, file, key)?.context("a key has no value")?;
        values.push(value)?;
    }
    Ok(values)
}
