//! Page faults in a file: each access of a page that a list of steps makes is refused in turn, and the
//! refused step is made once more. Each step that reaches a page must have been refused, each comes to what
//! it should, and the ward is in the end as one that met no fault.
ghost use Rattle.std.specs.Prelude.{IfOk};
ghost use Rattle.exh_keyer.specs.Pseudokey.{any_pseudokey};
ghost use Rattle.exh_world.specs.Sound.{IsSoundWorld};

use crate::alike::are_alike;
use crate::answers::ROOM;
use crate::played::CONFIG;
use crate::steps::{STEP_COUNT, STEPS, Step};
use exh_fixtures::{Difference, Part, Run, again, first_store, same};
use exh_frames::{FailingPages, PlainPages};
use exh_keyer::AnyKeyer;
use exh_script::{ResponseFault, Run as Script, push_response};
use exh_ward::Ward;
use exh_world::World;
use std::alloc::{AllocError, Global};

type FailingWard = Ward<FailingPages<PlainPages>, AnyKeyer>;

// More accesses than the steps make.
const MOST: u64 = 1000;

/// Whether a step was refused, and came to what it should each time.
#[derive(Clone, Copy)]
struct Note {
    is_refused: bool,
    is_right: bool,
}

/// What the lines leave, and whether a page was out of reach.
#[derive(Drop)]
struct Left {
    wards: Vec<FailingWard>,
    met: bool,
}

/// Takes the steps, without a fault and then with a fault at each access.
pub(crate) fn run(run: &mut Run) -> Result<(), Difference> {
    let mut notes = [Note {
        is_refused: false,
        is_right: true,
    }; STEP_COUNT];
    run_beside(run.alloc, &mut notes)?;
    notes[0].is_right = !run.lie.is_due() && notes[0].is_right;
    for (step, note) in STEPS.iter().zip(&notes) {
        let is_refused = note.is_refused == step.reaches_a_page();
        run.tally
            .step(same(is_refused && note.is_right, Part::Fault));
    }
    Ok(())
}

// Who owns wards has few exits, for the prover's sake: each drops them.
fn run_beside(alloc: Global, notes: &mut [Note]) -> Result<(), Difference> {
    let mut unhurt = again!(Err(AllocError) => answer_all(alloc, 0, notes))?;
    run_each_access(alloc, &mut unhurt, notes)
}

// Takes the steps of files whose first access is refused, the second, and so on, up to one that has no access
// of this number. Where memory is refused the file is to be made anew.
fn run_each_access(alloc: Global, unhurt: &mut Left, notes: &mut [Note]) -> Result<(), Difference> {
    same(!unhurt.met, Part::Healed)?;
    for at in 1..MOST {
        if !again!(Err(Difference::Memory(_)) => run_failing(alloc, at, unhurt, notes))? {
            return Ok(());
        }
    }
    Err(Difference::Apart(Part::Healed))
}

// Takes the steps of a file whose access of this number is refused. Answers whether there is one.
fn run_failing(
    alloc: Global,
    at: u64,
    unhurt: &mut Left,
    notes: &mut [Note],
) -> Result<bool, Difference> {
    let mut left = answer_all(alloc, at, notes)?;
    end_failing(&mut left, unhurt)
}

fn end_failing(left: &mut Left, unhurt: &mut Left) -> Result<bool, Difference> {
    if left.met {
        for (ward, other) in left.wards.iter_mut().zip(unhurt.wards.iter_mut()) {
            are_alike(ward, other)?;
        }
    }
    Ok(left.met)
}

// Answers the lines over an empty file, whose access of this number is refused.
fn answer_all(alloc: Global, at: u64, notes: &mut [Note]) -> Result<Left, AllocError> {
    let mut script = Script {
        world: failing_world(alloc, at)?,
        tells_moves: true,
    };
    let met = answer_lines(alloc, &mut script, notes)?;
    let Script { world, .. } = script;
    Ok(Left {
        wards: world.into_wards(),
        met,
    })
}

fn failing_world(
    alloc: Global,
    at: u64,
) -> Result<World<FailingPages<PlainPages>, AnyKeyer>, AllocError>
    ensures { IfOk result (IsSoundWorld any_pseudokey) }
{
    let mut wards = Vec::new(alloc);
    wards.reserve(1)?;
    let store = FailingPages::new(first_store(alloc, 0, 0)?, at);
    wards.push_reserved(Ward::new(alloc, store, CONFIG.cap, CONFIG.ward_bits, 0, CONFIG.keyer));
    World::from_wards(alloc, CONFIG, wards)
}

// Answers the lines, each once more where a page was out of reach. Answers whether one was.
fn answer_lines(
    alloc: Global,
    script: &mut Script<FailingPages<PlainPages>>,
    notes: &mut [Note],
) -> Result<bool, AllocError>
    requires { IsSoundWorld any_pseudokey script.old.world }
{
    let mut met = false;
    let mut text = Vec::with_capacity(alloc, ROOM)?;
    'lines: for (step, note) in STEPS.iter().zip(notes.iter_mut()) {
        met |= answer_step(&mut text, script, step, note)?;
    }
    Ok(met)
}

// Answers a step that is a line, as its note says then. Answers whether a page was out of reach.
fn answer_step(
    text: &mut Vec<u8>,
    script: &mut Script<FailingPages<PlainPages>>,
    step: &Step,
    note: &mut Note,
) -> Result<bool, AllocError>
    requires { IsSoundWorld any_pseudokey script.old.world }
    ensures { IsSoundWorld any_pseudokey script.new.world }
{
    let (words, want) = match step {
        Step::Line(words, want) | Step::Far(words, want) => (words, want),
    };
    let told = is_printed(text, script, words, want)?;
    if told.is_some() {
        note.is_right &= told == Some(true);
        return Ok(false);
    }
    note.is_refused = true;
    let told = is_printed(text, script, words, want)?;
    note.is_right &= told == Some(true);
    Ok(true)
}

// Whether a line prints this text; `None` where a page was out of reach.
fn is_printed(
    text: &mut Vec<u8>,
    script: &mut Script<FailingPages<PlainPages>>,
    words: &str,
    want: &str,
) -> Result<Option<bool>, AllocError>
    requires { IsSoundWorld any_pseudokey script.old.world }
    ensures { IsSoundWorld any_pseudokey script.new.world }
{
    text.clear();
    match push_response(text, script, words.as_bytes()) {
        Ok(()) => Ok(Some(text.as_slice() == want.as_bytes())),
        Err(ResponseFault::Memory) => Err(AllocError),
        Err(ResponseFault::Page) => Ok(None),
    }
}
