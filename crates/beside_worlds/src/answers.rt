//! Lines of a script over a world in memory, each with what it prints.
ghost use Rattle.std.specs.Prelude.{OnOk};
ghost use Rattle.exh_keyer.specs.Pseudokey.{any_pseudokey};
ghost use Rattle.exh_world.specs.Sound.{IsSoundWorld};
ghost use Rattle.beside_worlds.specs.Anew.{HasSettings};

use exh_fixtures::{Part, Run, same};
use exh_frames::PlainPages;
use exh_script::{ResponseFault, Run as Script, lines_keep_settings, push_response};
use std::alloc::AllocError;

/// A script over pages in memory.
pub(crate) type PlainScript = Script<PlainPages>;

/// A line, and what it prints.
pub(crate) type Line = (&'static str, &'static str);

/// More bytes than a line prints.
pub(crate) const ROOM: usize = 200;

/// Answers a line, which is a step, over what stands in a text. An `AllocError` where memory is refused: what
/// comes then isn't what would come otherwise.
pub(crate) fn answer(
    run: &mut Run,
    script: &mut PlainScript,
    text: &mut Vec<u8>,
    line: &Line,
) -> Result<(), AllocError>
    requires { IsSoundWorld any_pseudokey script.old.world }
    ensures sound { IsSoundWorld any_pseudokey script.new.world }
    ensures settings { OnOk result (HasSettings script.old.world → HasSettings script.new.world) }
{
    let (words, want) = line;
    text.clear();
    respond(script, text, words)?;
    let is_right = text.as_slice() == want.as_bytes();
    let outcome = same(is_right != run.lie.is_due(), Part::Outcome);
    run.tally.step(outcome);
    Ok(())
}

// Pages in memory are never out of reach.
#[tactic(auto, using(crate::proofs::Settings::line_keeps))]
fn respond(script: &mut PlainScript, text: &mut Vec<u8>, words: &str) -> Result<(), AllocError>
    requires { IsSoundWorld any_pseudokey script.old.world }
    ensures sound { IsSoundWorld any_pseudokey script.new.world }
    ensures settings { OnOk result (HasSettings script.old.world → HasSettings script.new.world) }
{
    lines_keep_settings();
    match push_response(text, script, words.as_bytes()) {
        Ok(()) => Ok(()),
        Err(ResponseFault::Memory | ResponseFault::Page) => Err(AllocError),
    }
}
