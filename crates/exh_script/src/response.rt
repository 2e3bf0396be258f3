ghost use Rattle.std.specs.Prelude.{◌≡◌, ◌⊎◌, ◌++◌, OnErr, OnOk, IsErrOf};
ghost use Rattle.exh_keyer.specs.Pseudokey.{any_pseudokey};
ghost use Rattle.exh_world.specs.Sound.{IsSoundWorld};
ghost use Rattle.exh_world.specs.Step.{Step as StepsTo};
ghost use Rattle.exh_script.specs.RefusedLines.{LeavesTheOthers};
ghost use Rattle.exh_script.specs.Text.{CountsPageFault, after_asked, after_line, line_response, response_text, response_to, view_response};
ghost use Rattle.exh_script.specs.View.{view_result};
ghost use Rattle.exh_line.specs.LineStart.{short_event};
ghost use Rattle.exh_text.specs.Printing.{Keeps};
ghost use Rattle.exh_line.specs.declared.line.Line.TheVariants.{Step};
ghost use Rattle.exh_line.specs.declared.view.View.TheVariants.{Copy, Page};

use crate::begun::push_begun;
use crate::in_flight_text::push_in_flight;
use crate::laws::lines_go_alike;
use crate::{ResponseFault, Run};
use exh_keyer::AnyKeyer;
use exh_line::{
    Answer, Line, LineStart, ShortStep, View, parse_line, push_answer, push_outcome, push_page,
    push_refusal, push_shown,
};
use exh_prefix::PageNo;
use exh_stores::Pages;
use exh_walk::{Event, Outcome, StepFault};
use exh_ward::WardFault;
use exh_world::{World, page_faults_are_counted, steps_are_computed};
use std::alloc::AllocError;

/// Does what a line after the first asks, as it stands in the script, and adds what it prints.
///
/// `Memory`: a growth was refused, and the world is as before the line or as after it. `Page`: a page couldn't be
/// reached; then nothing was added, and the world is as before, but that a ward has counted that. So a caller may go on,
/// and whatever lines come are answered as without the refused one. Whatever comes of it, what was there stands in front
/// of what was added.
#[tactic(auto, unfolding(crate::specs::Text::line_response, crate::specs::Text::after_line))]
pub fn push_response<P: Pages + Drop>(
    out: &mut Vec<u8>,
    run: &mut Run<P>,
    line: &[u8],
) -> Result<(), ResponseFault>
    requires { IsSoundWorld any_pseudokey run.old.world }
    ensures text { OnOk result (out.new.items ≡ out.old.items ++ response_text (line_response run.old.tells_moves run.old.world line.now)) }
    ensures kept { Keeps out.old.items out.new.items }
    ensures world { OnOk result (run.new.world ≡ after_line run.old.world line.now) }
    ensures sound { IsSoundWorld any_pseudokey run.new.world }
    ensures telling { run.new.tells_moves ≡ run.old.tells_moves }
    ensures silent { IsErrOf result ResponseFault.Page → out.new.items ≡ out.old.items }
    ensures counted { IsErrOf result ResponseFault.Page → CountsPageFault run.old.world run.new.world }
    ensures memory { IsErrOf result ResponseFault.Memory → (run.new.world ≡ run.old.world) ⊎ (run.new.world ≡ after_line run.old.world line.now) }
    ensures others { OnErr result (LeavesTheOthers run.old.tells_moves run.old.world line.now run.new.world) }
{
    lines_go_alike();
    match LineStart::parse(line) {
        Some(LineStart::Begin(begin)) => push_begun(out, run, line, begin),
        Some(LineStart::Step(step)) => push_step(out, run, step),
        None => push_parsed(out, run, line),
    }
}

// Does a step without a call, and adds what that prints.
fn push_step<P: Pages + Drop>(
    out: &mut Vec<u8>,
    run: &mut Run<P>,
    step: ShortStep,
) -> Result<(), ResponseFault>
    requires { IsSoundWorld any_pseudokey run.old.world }
    ensures text { OnOk result (out.new.items ≡ out.old.items ++ response_text (response_to run.old.tells_moves run.old.world (Step (short_event step)))) }
    ensures kept { Keeps out.old.items out.new.items }
    ensures world { OnOk result (run.new.world ≡ after_asked run.old.world (Step (short_event step))) }
    ensures sound { IsSoundWorld any_pseudokey run.new.world }
    ensures telling { run.new.tells_moves ≡ run.old.tells_moves }
    ensures silent { IsErrOf result ResponseFault.Page → out.new.items ≡ out.old.items }
    ensures counted { IsErrOf result ResponseFault.Page → CountsPageFault run.old.world run.new.world }
    ensures memory { IsErrOf result ResponseFault.Memory → (run.new.world ≡ run.old.world) ⊎ (run.new.world ≡ after_asked run.old.world (Step (short_event step))) }
{
    steps_are_computed::<AnyKeyer>();
    page_faults_are_counted::<AnyKeyer>();
    match &make_step(&mut run.world, step) {
        Ok(outcome) => Ok(push_outcome(out, step, outcome, run.tells_moves)?),
        Err(StepFault::Ward(WardFault::Memory)) => Err(ResponseFault::Memory),
        Err(StepFault::Ward(WardFault::Page)) => Err(ResponseFault::Page),
        Err(fault) => Ok(push_refusal(out, (*fault).into())?),
    }
}

fn make_step<P: Pages + Drop>(
    world: &mut World<P, AnyKeyer>,
    step: ShortStep,
) -> Result<Outcome, StepFault>
    ensures step { StepsTo any_pseudokey world.old (short_event step) result world.new }
    ensures sound { IsSoundWorld any_pseudokey world.new }
{
    match step {
        ShortStep::Hop { name } => world.hop(name),
        ShortStep::Split { ward, page } => world.split(ward, page),
        ShortStep::Deliver { copy, ward, index } => world.deliver(copy, ward, index),
    }
}

// The same of any line.
#[tactic(auto, unfolding(crate::specs::Text::line_response, crate::specs::Text::after_line))]
pub(crate) fn push_parsed<P: Pages + Drop>(
    out: &mut Vec<u8>,
    run: &mut Run<P>,
    line: &[u8],
) -> Result<(), ResponseFault>
    requires { IsSoundWorld any_pseudokey run.old.world }
    ensures text { OnOk result (out.new.items ≡ out.old.items ++ response_text (line_response run.old.tells_moves run.old.world line.now)) }
    ensures kept { Keeps out.old.items out.new.items }
    ensures world { OnOk result (run.new.world ≡ after_line run.old.world line.now) }
    ensures sound { IsSoundWorld any_pseudokey run.new.world }
    ensures telling { run.new.tells_moves ≡ run.old.tells_moves }
    ensures silent { IsErrOf result ResponseFault.Page → out.new.items ≡ out.old.items }
    ensures counted { IsErrOf result ResponseFault.Page → CountsPageFault run.old.world run.new.world }
    ensures memory { IsErrOf result ResponseFault.Memory → (run.new.world ≡ run.old.world) ⊎ (run.new.world ≡ after_line run.old.world line.now) }
{
    match &parse_line(line) {
        Ok(Line::Step(event)) => push_event(out, run, event),
        Ok(Line::View(view)) => push_view(out, &mut run.world, *view),
        Err(fault) => Ok(push_refusal(out, (*fault).into())?),
    }
}

fn push_event<P: Pages + Drop>(
    out: &mut Vec<u8>,
    run: &mut Run<P>,
    event: &Event,
) -> Result<(), ResponseFault>
    requires { IsSoundWorld any_pseudokey run.old.world }
    ensures text { OnOk result (out.new.items ≡ out.old.items ++ response_text (response_to run.old.tells_moves run.old.world (Step event.now))) }
    ensures kept { Keeps out.old.items out.new.items }
    ensures world { OnOk result (run.new.world ≡ after_asked run.old.world (Step event.now)) }
    ensures sound { IsSoundWorld any_pseudokey run.new.world }
    ensures telling { run.new.tells_moves ≡ run.old.tells_moves }
    ensures silent { IsErrOf result ResponseFault.Page → out.new.items ≡ out.old.items }
    ensures counted { IsErrOf result ResponseFault.Page → CountsPageFault run.old.world run.new.world }
    ensures memory { IsErrOf result ResponseFault.Memory → (run.new.world ≡ run.old.world) ⊎ (run.new.world ≡ after_asked run.old.world (Step event.now)) }
{
    steps_are_computed::<AnyKeyer>();
    page_faults_are_counted::<AnyKeyer>();
    match &run.world.step(event) {
        Ok(outcome) => {
            let answer = Answer::of_outcome(event, outcome, run.tells_moves);
            Ok(push_answer(out, &answer)?)
        }
        // A step that is refused for want of memory, or for a page out of reach, has no answer.
        Err(StepFault::Ward(WardFault::Memory)) => Err(ResponseFault::Memory),
        Err(StepFault::Ward(WardFault::Page)) => Err(ResponseFault::Page),
        Err(fault) => Ok(push_refusal(out, (*fault).into())?),
    }
}

// A view, or its refusal, and the world as it was.
fn push_view<P: Pages + Drop>(
    out: &mut Vec<u8>,
    world: &mut World<P, AnyKeyer>,
    view: View,
) -> Result<(), ResponseFault>
    requires { IsSoundWorld any_pseudokey world.old }
    ensures text { OnOk result (out.new.items ≡ out.old.items ++ response_text (view_response (view_result world.old view))) }
    ensures kept { Keeps out.old.items out.new.items }
    ensures world { OnOk result (world.new ≡ world.old) }
    ensures sound { IsSoundWorld any_pseudokey world.new }
    ensures silent { IsErrOf result ResponseFault.Page → out.new.items ≡ out.old.items }
    ensures counted { IsErrOf result ResponseFault.Page → CountsPageFault world.old world.new }
    ensures memory { IsErrOf result ResponseFault.Memory → world.new ≡ world.old }
{
    match view {
        View::Copy { copy } => Ok(push_copy_shown(out, world, copy)?),
        View::Page { ward, page } => push_page_shown(out, world, ward, page),
        View::InFlight => Ok(push_in_flight(out, world)?),
    }
}

fn push_copy_shown<P: Pages + Drop>(
    out: &mut Vec<u8>,
    world: &World<P, AnyKeyer>,
    copy: u32,
) -> Result<(), AllocError>
    ensures text { OnOk result (out.new.items ≡ out.old.items ++ response_text (view_response (view_result world.now (Copy copy)))) }
    ensures kept { Keeps out.old.items out.new.items }
{
    match world.copy(copy) {
        Ok(directory) => push_shown(out, world.ward_bits(), copy, directory),
        Err(fault) => push_refusal(out, fault.into()),
    }
}

fn push_page_shown<P: Pages + Drop>(
    out: &mut Vec<u8>,
    world: &mut World<P, AnyKeyer>,
    ward: u32,
    page: PageNo,
) -> Result<(), ResponseFault>
    ensures text { OnOk result (out.new.items ≡ out.old.items ++ response_text (view_response (view_result world.old (Page ward page)))) }
    ensures kept { Keeps out.old.items out.new.items }
    ensures same { OnOk result (world.new ≡ world.old) }
    ensures sound { IsSoundWorld any_pseudokey world.new }
    ensures silent { IsErrOf result ResponseFault.Page → out.new.items ≡ out.old.items }
    ensures counted { IsErrOf result ResponseFault.Page → CountsPageFault world.old world.new }
    ensures memory { IsErrOf result ResponseFault.Memory → world.new ≡ world.old }
{
    match world.page_line(ward, page) {
        Ok(head) => Ok(push_page(out, ward, page, head)?),
        Err(StepFault::Ward(WardFault::Memory)) => Err(ResponseFault::Memory),
        Err(StepFault::Ward(WardFault::Page)) => Err(ResponseFault::Page),
        Err(fault) => Ok(push_refusal(out, fault.into())?),
    }
}
