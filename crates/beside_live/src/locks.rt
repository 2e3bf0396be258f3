//! A lock for each ward: a caller is answered in ward 1 while the lock of ward 0 is held.
ghost use Rattle.std.specs.Prelude.{◌≡◌};
ghost use Rattle.exh_keyer.specs.Pseudokey.{plain_pseudokey};
ghost use Rattle.exh_live.specs.declared.ledgers.TheConstants.{ANSWER_PARTS, ENTRY_PARTS};

use exh_fakes::{
    Caller, Conductor, IS_LATE, IS_READ, Look, MAY_GO, Reader, WatchedFile, WatchedMaker, is_told,
    two_callers, watched_file,
};
use exh_fixtures::{Asked, Difference, Part, Run, same};
use exh_frames::{Pages, StoreMaker};
use exh_keyer::PlainKeyer;
use exh_live::{ANSWER_PARTS, ENTRY_PARTS, Identity, OpenGate};
use exh_ward::Reply;
use std::sync::Wait;
use std::sync::ledger::Blank;
use std::thread::{Threads, join};
use std::time::Clock;

/// Runs it, over two wards of a maker's stores, of which the first one waits at its first reading.
pub(crate) fn run<
    R: Threads + Wait + Clock + Sync,
    P: Pages + Drop + Send + Sync,
    M: StoreMaker<P, PlainKeyer>,
    F: Identity + Sync + Send,
>(
    rt: &R,
    run: &mut Run,
    copies: &mut Vec<Reader>,
    signs: &Conductor<'_, R>,
    stores: &M,
    answers: Blank,
    entries: Blank,
) -> Result<(), Difference>
    requires answers { (answers.name ≡ F.answers) × (answers.parts ≡ ANSWER_PARTS) }
    requires entries { (entries.name ≡ F.entries) × (entries.parts ≡ ENTRY_PARTS) }
    requires hashed { F.hashing ≡ plain_pseudokey }
{
    let maker = WatchedMaker::new(&*stores, Look::Waits, &*signs);
    let mut file = watched_file::<P, M, R, F>(run.alloc, &maker, 1, answers, entries)?;
    let (mut first, mut second) = two_callers(&mut file, copies)?;
    let (waited, told) = join(
        rt,
        || put(rt, &file, &mut first, b"\0"),
        || put_meanwhile(rt, &file, &mut second, signs),
    );
    run.tally.step(told);
    run.tally.step(waited);
    let is_late = (signs.count(IS_LATE) > 0) != run.lie.is_due();
    run.tally.step(same(!is_late, Part::Run));
    Ok(())
}

fn put<R: Wait + Clock, P: Pages + Drop, F: Identity>(
    rt: &R,
    file: &WatchedFile<'_, P, R, F>,
    caller: &mut Caller<F>,
    key: &[u8],
) -> Result<(), Difference> {
    is_told(
        rt,
        file,
        caller,
        Asked::Put(key, b"a"),
        &OpenGate,
        Reply::New,
    )
}

// Puts a key of ward 1 once the other caller reads in ward 0, and lets that one go on then.
fn put_meanwhile<R: Wait + Clock, P: Pages + Drop, F: Identity>(
    rt: &R,
    file: &WatchedFile<'_, P, R, F>,
    caller: &mut Caller<F>,
    signs: &Conductor<'_, R>,
) -> Result<(), Difference> {
    let is_read = signs.wait_for(IS_READ, 1);
    let told = put(rt, file, caller, b"\x80");
    signs.raise(MAY_GO, 1);
    same(is_read, Part::Run)?;
    told
}
