ghost use Rattle.std.specs.Prelude.{◌≡◌, ◌⊎◌, ◌++◌, Some, Ok, OnOk, IsErrOf};
ghost use Rattle.exh_calls.specs.declared.call.Call.{Call as CallType};
ghost use Rattle.exh_calls.specs.declared.call.Call.TheVariants.{Get, Put, Del};
ghost use Rattle.exh_keyer.specs.Pseudokey.{any_pseudokey};
ghost use Rattle.exh_world.specs.Sound.{IsSoundWorld};
ghost use Rattle.exh_script.specs.Text.{CountsPageFault, after_asked, after_line, line_response, response_text, response_to};
ghost use Rattle.exh_walk.specs.declared.event.Event.TheVariants.{Begin as BeginOf};
ghost use Rattle.exh_line.specs.CallWords.{call_of};
ghost use Rattle.exh_line.specs.Grammar.{call_in_range, line_of};
ghost use Rattle.exh_line.specs.LineStart.{IsStartOf};
ghost use Rattle.exh_text.specs.LineFault.{ranged};
ghost use Rattle.exh_text.specs.Printing.{Keeps};
ghost use Rattle.exh_line.specs.declared.line.Line.TheVariants.{Step};
ghost use Rattle.exh_line.specs.declared.line_start.LineStart.TheVariants.{Begin};

use crate::response::push_parsed;
use crate::{ResponseFault, Run};
use exh_calls::Call;
use exh_keyer::AnyKeyer;
use exh_line::{BeginWords, CallWords, push_refusal, push_standing};
use exh_stores::Pages;
use exh_text::ByteWord;
use exh_walk::{Outcome, StepFault};
use exh_ward::WardFault;
use exh_world::{page_faults_are_counted, steps_are_computed};

/// Does what a line asks that is a `begin` if its last words spell a call, and adds what it prints, as `push_response`
/// does. The call is made in a function of its verb's, where it is asked, so that room for one is cleared once.
#[tactic(auto, unfolding(crate::specs::Text::line_response, crate::specs::Text::after_line))]
pub(crate) fn push_begun<P: Pages + Drop>(
    out: &mut Vec<u8>,
    run: &mut Run<P>,
    line: &[u8],
    begin: BeginWords<'_>,
) -> Result<(), ResponseFault>
    requires sound { IsSoundWorld any_pseudokey run.old.world }
    requires start { IsStartOf line.now (Begin begin) }
    ensures text { OnOk result (out.new.items ≡ out.old.items ++ response_text (line_response run.old.tells_moves run.old.world line.now)) }
    ensures kept { Keeps out.old.items out.new.items }
    ensures world { OnOk result (run.new.world ≡ after_line run.old.world line.now) }
    ensures sound { IsSoundWorld any_pseudokey run.new.world }
    ensures telling { run.new.tells_moves ≡ run.old.tells_moves }
    ensures silent { IsErrOf result ResponseFault.Page → out.new.items ≡ out.old.items }
    ensures counted { IsErrOf result ResponseFault.Page → CountsPageFault run.old.world run.new.world }
    ensures memory { IsErrOf result ResponseFault.Memory → (run.new.world ≡ run.old.world) ⊎ (run.new.world ≡ after_line run.old.world line.now) }
{
    let BeginWords {
        name,
        client,
        copy,
        call,
    } = begin;
    match CallWords::split(call) {
        Some(CallWords::Get { key }) => push_get(out, run, line, name, client, copy, &key),
        Some(CallWords::Put { key, value }) => {
            push_put(out, run, line, name, client, copy, &key, &value)
        }
        Some(CallWords::Del { key }) => push_del(out, run, line, name, client, copy, &key),
        Some(call) => push_read(out, run, line, name, client, copy, call),
        None => push_parsed(out, run, line),
    }
}

// A `begin` of a get.
#[tactic(auto, unfolding(crate::specs::Text::line_response, crate::specs::Text::after_line))]
fn push_get<P: Pages + Drop>(
    out: &mut Vec<u8>,
    run: &mut Run<P>,
    line: &[u8],
    name: u32,
    client: u32,
    copy: u32,
    key: &ByteWord<'_>,
) -> Result<(), ResponseFault>
    requires sound { IsSoundWorld any_pseudokey run.old.world }
    requires start { (asked : CallType) → ranged call_in_range (Some (Get key.now)) ≡ Ok asked → line_of line.now ≡ Ok (Step (BeginOf name client copy asked)) }
    ensures text { OnOk result (out.new.items ≡ out.old.items ++ response_text (line_response run.old.tells_moves run.old.world line.now)) }
    ensures kept { Keeps out.old.items out.new.items }
    ensures world { OnOk result (run.new.world ≡ after_line run.old.world line.now) }
    ensures sound { IsSoundWorld any_pseudokey run.new.world }
    ensures telling { run.new.tells_moves ≡ run.old.tells_moves }
    ensures silent { IsErrOf result ResponseFault.Page → out.new.items ≡ out.old.items }
    ensures counted { IsErrOf result ResponseFault.Page → CountsPageFault run.old.world run.new.world }
    ensures memory { IsErrOf result ResponseFault.Memory → (run.new.world ≡ run.old.world) ⊎ (run.new.world ≡ after_line run.old.world line.now) }
{
    match key.key() {
        Some(key) => push_begin(out, run, name, client, copy, &Call::Get { key }),
        None => push_parsed(out, run, line),
    }
}

// A `begin` of a put.
#[tactic(auto, unfolding(crate::specs::Text::line_response, crate::specs::Text::after_line))]
fn push_put<P: Pages + Drop>(
    out: &mut Vec<u8>,
    run: &mut Run<P>,
    line: &[u8],
    name: u32,
    client: u32,
    copy: u32,
    key: &ByteWord<'_>,
    value: &ByteWord<'_>,
) -> Result<(), ResponseFault>
    requires sound { IsSoundWorld any_pseudokey run.old.world }
    requires start { (asked : CallType) → ranged call_in_range (Some (Put key.now value.now)) ≡ Ok asked → line_of line.now ≡ Ok (Step (BeginOf name client copy asked)) }
    ensures text { OnOk result (out.new.items ≡ out.old.items ++ response_text (line_response run.old.tells_moves run.old.world line.now)) }
    ensures kept { Keeps out.old.items out.new.items }
    ensures world { OnOk result (run.new.world ≡ after_line run.old.world line.now) }
    ensures sound { IsSoundWorld any_pseudokey run.new.world }
    ensures telling { run.new.tells_moves ≡ run.old.tells_moves }
    ensures silent { IsErrOf result ResponseFault.Page → out.new.items ≡ out.old.items }
    ensures counted { IsErrOf result ResponseFault.Page → CountsPageFault run.old.world run.new.world }
    ensures memory { IsErrOf result ResponseFault.Memory → (run.new.world ≡ run.old.world) ⊎ (run.new.world ≡ after_line run.old.world line.now) }
{
    match key.key() {
        Some(key) => match value.value() {
            Some(value) => push_begin(out, run, name, client, copy, &Call::Put { key, value }),
            None => push_parsed(out, run, line),
        },
        None => push_parsed(out, run, line),
    }
}

// A `begin` of a del.
#[tactic(auto, unfolding(crate::specs::Text::line_response, crate::specs::Text::after_line))]
fn push_del<P: Pages + Drop>(
    out: &mut Vec<u8>,
    run: &mut Run<P>,
    line: &[u8],
    name: u32,
    client: u32,
    copy: u32,
    key: &ByteWord<'_>,
) -> Result<(), ResponseFault>
    requires sound { IsSoundWorld any_pseudokey run.old.world }
    requires start { (asked : CallType) → ranged call_in_range (Some (Del key.now)) ≡ Ok asked → line_of line.now ≡ Ok (Step (BeginOf name client copy asked)) }
    ensures text { OnOk result (out.new.items ≡ out.old.items ++ response_text (line_response run.old.tells_moves run.old.world line.now)) }
    ensures kept { Keeps out.old.items out.new.items }
    ensures world { OnOk result (run.new.world ≡ after_line run.old.world line.now) }
    ensures sound { IsSoundWorld any_pseudokey run.new.world }
    ensures telling { run.new.tells_moves ≡ run.old.tells_moves }
    ensures silent { IsErrOf result ResponseFault.Page → out.new.items ≡ out.old.items }
    ensures counted { IsErrOf result ResponseFault.Page → CountsPageFault run.old.world run.new.world }
    ensures memory { IsErrOf result ResponseFault.Memory → (run.new.world ≡ run.old.world) ⊎ (run.new.world ≡ after_line run.old.world line.now) }
{
    match key.key() {
        Some(key) => push_begin(out, run, name, client, copy, &Call::Del { key }),
        None => push_parsed(out, run, line),
    }
}

// A `begin` of any call.
#[tactic(auto, unfolding(crate::specs::Text::line_response, crate::specs::Text::after_line))]
fn push_read<P: Pages + Drop>(
    out: &mut Vec<u8>,
    run: &mut Run<P>,
    line: &[u8],
    name: u32,
    client: u32,
    copy: u32,
    call: CallWords<'_>,
) -> Result<(), ResponseFault>
    requires sound { IsSoundWorld any_pseudokey run.old.world }
    requires start { (asked : CallType) → ranged call_in_range (Some (call_of call)) ≡ Ok asked → line_of line.now ≡ Ok (Step (BeginOf name client copy asked)) }
    ensures text { OnOk result (out.new.items ≡ out.old.items ++ response_text (line_response run.old.tells_moves run.old.world line.now)) }
    ensures kept { Keeps out.old.items out.new.items }
    ensures world { OnOk result (run.new.world ≡ after_line run.old.world line.now) }
    ensures sound { IsSoundWorld any_pseudokey run.new.world }
    ensures telling { run.new.tells_moves ≡ run.old.tells_moves }
    ensures silent { IsErrOf result ResponseFault.Page → out.new.items ≡ out.old.items }
    ensures counted { IsErrOf result ResponseFault.Page → CountsPageFault run.old.world run.new.world }
    ensures memory { IsErrOf result ResponseFault.Memory → (run.new.world ≡ run.old.world) ⊎ (run.new.world ≡ after_line run.old.world line.now) }
{
    match &call.read() {
        Ok(call) => push_begin(out, run, name, client, copy, call),
        Err(_) => push_parsed(out, run, line),
    }
}

// Begins a request, and adds what that prints.
#[inline(always)]
fn push_begin<P: Pages + Drop>(
    out: &mut Vec<u8>,
    run: &mut Run<P>,
    name: u32,
    client: u32,
    copy: u32,
    call: &Call,
) -> Result<(), ResponseFault>
    requires { IsSoundWorld any_pseudokey run.old.world }
    ensures text { OnOk result (out.new.items ≡ out.old.items ++ response_text (response_to run.old.tells_moves run.old.world (Step (BeginOf name client copy call.now)))) }
    ensures kept { Keeps out.old.items out.new.items }
    ensures world { OnOk result (run.new.world ≡ after_asked run.old.world (Step (BeginOf name client copy call.now))) }
    ensures sound { IsSoundWorld any_pseudokey run.new.world }
    ensures telling { run.new.tells_moves ≡ run.old.tells_moves }
    ensures silent { IsErrOf result ResponseFault.Page → out.new.items ≡ out.old.items }
    ensures counted { IsErrOf result ResponseFault.Page → CountsPageFault run.old.world run.new.world }
    ensures memory { IsErrOf result ResponseFault.Memory → (run.new.world ≡ run.old.world) ⊎ (run.new.world ≡ after_asked run.old.world (Step (BeginOf name client copy call.now))) }
{
    steps_are_computed::<AnyKeyer>();
    page_faults_are_counted::<AnyKeyer>();
    match run.world.begin(name, client, copy, call) {
        Ok(Outcome::Begun { ward, page }) => Ok(push_standing(out, name, ward, page)?),
        Ok(_) => unreachable!(),
        Err(StepFault::Ward(WardFault::Memory)) => Err(ResponseFault::Memory),
        Err(StepFault::Ward(WardFault::Page)) => Err(ResponseFault::Page),
        Err(fault) => Ok(push_refusal(out, fault.into())?),
    }
}
