//! Many pages: each is called and worn down, while the gate counts turns and the store looks at pages.
ghost use Rattle.std.specs.Prelude.{◌≡◌};
ghost use Rattle.exh_keyer.specs.Pseudokey.{plain_pseudokey};
ghost use Rattle.exh_live.specs.declared.ledgers.TheConstants.{ANSWER_PARTS, ENTRY_PARTS};

use exh_fakes::{
    CAME_BETWEEN, Caller, Conductor, Count, LOOKS, Look, Reader, Rule, Then, WatchedFile,
    WatchedMaker, Who, is_kept, is_told, next_caller, watched_file,
};
use exh_fixtures::{Difference, Part, Run, Said, same, told_reply};
use exh_frames::{PlainMaker, PlainPages};
use exh_live::{ANSWER_PARTS, ENTRY_PARTS, Identity};
use std::sync::Wait;
use std::sync::ledger::Blank;
use std::thread::{Threads, join};
use std::time::Clock;

type CountedFile<'a, R, F> = WatchedFile<'a, PlainPages, R, F>;

const TURNS: Count = Count::Third;

const HAS_ENDED: Count = Count::Calls;

const RULES: [Rule; 1] = [Rule(Who::Anybody, None, Then::Raise(TURNS))];

// Which call is asked.
#[derive(Clone, Copy)]
enum Kind {
    Put,
    Get,
    Delete,
}

impl Kind {
    // The call of a key, with its reply.
    fn of(self, key: &[u8]) -> Said<'_> {
        match self {
            Kind::Put => Said::New(key, b"v"),
            Kind::Get => Said::Is(key, b"v"),
            Kind::Delete => Said::Was(key, b"v"),
        }
    }
}

// Numbers of keys, from the first up to the one before the second: the bits of a number, the last one first,
// are the leading bits of its key.
type Keys = (u16, u16);

// After the first 2,048 keys there are 1,024 pages of two, and page n has the keys n and n + 1,024. Of the pages
// 986 to 1,023 each is split for its third key, and its right half for a third one: these are 76 pages more.
const ALL: [Keys; 4] = [(0, 2048), (3034, 3072), (4058, 4096), (6106, 6144)];

// A key of each page.
const ONE_EACH: [Keys; 3] = [(0, 1024), (2010, 2048), (4058, 4096)];

// From page 0 by right links, 1 + 2 + .. + 1,100 pages are looked at.
const PAGES_LOOKED_AT: u64 = 605_550;

// Merges of a keeper's rounds over empty pages: as many as there are two halves of one page when a round begins.
const MERGES: [u32; 13] = [512, 256, 128, 64, 38, 38, 32, 16, 8, 4, 2, 1, 0];

// So many rounds, or calls, are made at most until a call comes between two turns of a round.
const TRIES: u32 = 1_000;

/// Runs it, over a copy that is told of nothing.
pub(crate) fn run<R: Threads + Wait + Clock + Sync, F: Identity + Sync + Send>(
    rt: &R,
    run: &mut Run,
    copies: &mut Vec<Reader>,
    answers: Blank,
    entries: Blank,
) -> Result<(), Difference>
    requires answers { (answers.name ≡ F.answers) × (answers.parts ≡ ANSWER_PARTS) }
    requires entries { (entries.name ≡ F.entries) × (entries.parts ≡ ENTRY_PARTS) }
    requires hashed { F.hashing ≡ plain_pseudokey }
{
    let watch = Conductor::new(rt, &RULES);
    let maker = WatchedMaker::new(&PlainMaker, Look::Counts(0), &watch);
    let mut file = watched_file::<PlainPages, PlainMaker, R, F>(
        run.alloc, &maker, 0, answers, entries,
    )?;
    let mut caller = next_caller(&mut file, copies)?;
    take_steps(rt, run, &file, &mut caller, &watch);
    Ok(())
}

fn take_steps<R: Threads + Wait + Clock + Sync, F: Identity + Sync + Send>(
    rt: &R,
    run: &mut Run,
    file: &CountedFile<'_, R, F>,
    caller: &mut Caller<F>,
    watch: &Conductor<'_, R>,
)
    requires { file.now.ward_bits ≡ 0 }
{
    for keys in &ALL {
        ask_keys(rt, run, file, caller, watch, *keys, Kind::Put);
    }
    let before = (watch.count(TURNS), watch.count(LOOKS));
    for keys in &ONE_EACH {
        ask_keys(rt, run, file, caller, watch, *keys, Kind::Get);
    }
    let turns = watch.count(TURNS).wrapping_sub(before.0);
    let looks = watch.count(LOOKS).wrapping_sub(before.1);
    let is_counted = turns == PAGES_LOOKED_AT && looks == PAGES_LOOKED_AT;
    run.tally.step(same(is_counted, Part::Walk));
    let met = meet(rt, file, caller, watch);
    run.tally.step(met);
    for keys in &ALL {
        ask_keys(rt, run, file, caller, watch, *keys, Kind::Delete);
    }
    for merges in &MERGES {
        run.tally.step(is_kept(rt, file, 0, *merges));
    }
}

// Asks a call of each of these keys, which together are a step.
fn ask_keys<R: Wait + Clock, F: Identity>(
    rt: &R,
    run: &mut Run,
    file: &CountedFile<'_, R, F>,
    caller: &mut Caller<F>,
    watch: &Conductor<'_, R>,
    keys: Keys,
    kind: Kind,
) {
    let (from, end) = keys;
    let mut told = Ok(());
    for number in from..end {
        let asked = ask_key(rt, run, file, caller, watch, number, kind);
        if told.is_ok() {
            told = asked;
        }
    }
    run.tally.step(told);
}

fn ask_key<R: Wait + Clock, F: Identity>(
    rt: &R,
    run: &mut Run,
    file: &CountedFile<'_, R, F>,
    caller: &mut Caller<F>,
    watch: &Conductor<'_, R>,
    number: u16,
    kind: Kind,
) -> Result<(), Difference> {
    let key = number.reverse_bits().to_be_bytes();
    let said = kind.of(&key);
    let reply = told_reply(&mut run.lie, said.reply()?);
    is_told(rt, file, caller, said.asked(), watch, reply)
}

// Makes rounds of a keeper, which merge nothing, beside gets of a key of page 0, until one of these comes between
// two turns of a round.
fn meet<R: Threads + Wait + Clock + Sync, F: Identity + Sync + Send>(
    rt: &R,
    file: &CountedFile<'_, R, F>,
    caller: &mut Caller<F>,
    watch: &Conductor<'_, R>,
) -> Result<(), Difference>
    requires { file.now.ward_bits ≡ 0 }
{
    // Each call began at page 0 so far, behind the page of the call before.
    let before = watch.count(CAME_BETWEEN);
    let (kept, asked) = join(
        rt,
        || {
            let kept = keep_on(rt, file, watch, before);
            watch.raise(HAS_ENDED, 1);
            kept
        },
        || ask_on(rt, file, caller, watch),
    );
    kept?;
    asked?;
    same(watch.count(CAME_BETWEEN) > before, Part::Walk)
}

// Makes rounds until a call has come between two turns, as none had before.
fn keep_on<R: Wait + Clock, F: Identity>(
    rt: &R,
    file: &CountedFile<'_, R, F>,
    watch: &Conductor<'_, R>,
    before: u64,
) -> Result<(), Difference>
    requires { file.now.ward_bits ≡ 0 }
{
    for _ in 0..TRIES {
        if watch.count(CAME_BETWEEN) > before {
            return Ok(());
        }
        is_kept(rt, file, 0, 0)?;
    }
    Ok(())
}

fn ask_on<R: Wait + Clock, F: Identity>(
    rt: &R,
    file: &CountedFile<'_, R, F>,
    caller: &mut Caller<F>,
    watch: &Conductor<'_, R>,
) -> Result<(), Difference> {
    for _ in 0..TRIES {
        if watch.count(HAS_ENDED) > 0 {
            return Ok(());
        }
        // So the calls don't end before the rounds have begun.
        watch.rest();
        let said = Kind::Get.of(b"\0\0");
        is_told(rt, file, caller, said.asked(), watch, said.reply()?)?;
    }
    Ok(())
}
