ghost use Rattle.std.specs.Prelude.{◌≡◌, ◌≢◌, ◌⊎◌, ◌++◌, ◌<◌, ◌≤◌, ◌↔◌, [], Ok, None, IfOk, IfErr, OnOk, OnErr, IsErrOf, IsFalse, IsTrue};
ghost use Rattle.exh_keyer.specs.Pseudokey.{any_pseudokey};
ghost use Rattle.exh_page.specs.declared.page.TheConstants.{CAP_LIMIT};
ghost use Rattle.exh_prefix.specs.declared.prefix.TheConstants.{WARD_BITS_LIMIT};
ghost use Rattle.exh_line.specs.RefusalText.{refusal_text};
ghost use Rattle.exh_script.specs.Replies.{world_left};
ghost use Rattle.exh_script.specs.Text.{after_line, line_response, response_text, start_in, text_after, text_from, text_of_lines};
ghost use Rattle.exh_script.specs.Left.{left_after, left_of_lines};
ghost use Rattle.exh_script.specs.OpenedScript.{beginning};
ghost use Rattle.exh_script.specs.Served.{FallsNowhere, HasCountedMore, HaveCounted, IsServeCounted, fault_of, PrintsFront, PrintsFrontFrom};
ghost use Rattle.exh_stream.specs.Output.{SameWriter, Takes, TakesBeginning, writer_failed};
ghost use Rattle.exh_text.specs.TextLines.{lines_of};
ghost use Rattle.exh_world.specs.Sound.{IsSoundWorld};

use crate::beginning::{begin, leave};
use crate::{ResponseFault, Run, ServeFault, lines_keep_settings, push_response};
use exh_keyer::AnyKeyer;
use exh_line::{Refusal, push_refusal};
use exh_load::Opened;
use exh_stores::{Pages, StoreMaker};
use exh_stream::Output;
use exh_text::{LineFault, Lines, Listener, Settings, parse_file_line};
use exh_world::steps_have_outcomes;
use std::alloc::Global;
use std::io::Write;

/// Answers a script over an opened file or over none. On an `Ok` with wards its run is done, and these are what it
/// leaves; without them it was refused. On an `Err` a beginning of its text went out, after `Memory` and `Page` that of
/// a beginning of its lines.
#[tactic(auto, unfolding(crate::specs::Text::start_of, crate::specs::Text::settings_of))]
pub(crate) fn respond<P: Pages + Drop, M: StoreMaker<P, AnyKeyer>, W: Write, L: Listener>(
    alloc: Global,
    maker: &M,
    output: &mut Output<'_, W>,
    script: &[u8],
    from: Option<Opened<P>>,
    listener: &mut L,
) -> Result<Option<Opened<P>>, ServeFault>
    requires { IsFalse (writer_failed output.old) }
    ensures same_writer { SameWriter output.old output.new }
    ensures text { OnOk result (Takes W.contents output.old output.new (text_of_lines (beginning from) (lines_of script.now))) }
    ensures left { IfOk result (λ left. left ≡ left_of_lines (beginning from) (lines_of script.now)) }
    ensures err { OnErr result (TakesBeginning W.contents output.old output.new (text_of_lines (beginning from) (lines_of script.now))) }
    ensures front { IfErr result (λ fault. fault ≢ ServeFault.Write → Takes W.contents output.old output.new []
        ⊎ PrintsFront (beginning from) (Takes W.contents output.old output.new) (lines_of script.now)) }
    ensures counted { IsServeCounted P.failures from result }
    ensures failed { IsErrOf result ServeFault.Write ↔ IsTrue (writer_failed output.new) }
{
    let mut lines = Lines::new(script);
    let Some(first) = lines.next() else {
        return refuse(alloc, output, LineFault::Syntax.into());
    };
    match parse_file_line(first) {
        Ok(settings) => serve_file(
            alloc, maker, output, from, &settings, lines, script, listener,
        ),
        Err(fault) => {
            listener.first_refused(script, first, fault);
            refuse(alloc, output, fault.into())
        }
    }
}

/// Answers with a refusal alone, and leaves no wards.
pub(crate) fn refuse<P: Pages + Drop, W: Write>(
    alloc: Global,
    output: &mut Output<'_, W>,
    refusal: Refusal,
) -> Result<Option<Opened<P>>, ServeFault>
    requires { IsFalse (writer_failed output.old) }
    ensures same_writer { SameWriter output.old output.new }
    ensures text { OnOk result (Takes W.contents output.old output.new (refusal_text refusal)) }
    ensures left { IfOk result (λ left. left ≡ None) }
    ensures err { OnErr result (TakesBeginning W.contents output.old output.new (refusal_text refusal)) }
    ensures front { IfErr result (λ fault. fault ≢ ServeFault.Write → Takes W.contents output.old output.new []) }
    ensures reached { IfErr result (λ fault. fault ≢ ServeFault.Page) }
    ensures failed { IsErrOf result ServeFault.Write ↔ IsTrue (writer_failed output.new) }
{
    let mut text = Vec::new(alloc);
    push_refusal(&mut text, refusal)?;
    output.push(&text)?;
    Ok(None)
}

// Answers the lines behind a right first line.
fn serve_file<P: Pages + Drop, M: StoreMaker<P, AnyKeyer>, W: Write, L: Listener>(
    alloc: Global,
    maker: &M,
    output: &mut Output<'_, W>,
    from: Option<Opened<P>>,
    settings: &Settings,
    lines: Lines<'_>,
    script: &[u8],
    listener: &mut L,
) -> Result<Option<Opened<P>>, ServeFault>
    requires open { IsFalse (writer_failed output.old) }
    requires some { 1 ≤ settings.now.file.cap }
    requires most { settings.now.file.cap ≤ CAP_LIMIT }
    requires bits { settings.now.file.ward_bits ≤ WARD_BITS_LIMIT }
    ensures same_writer { SameWriter output.old output.new }
    ensures text { OnOk result (Takes W.contents output.old output.new (text_after (start_in settings.now.tells_moves (beginning from settings.now.file)) lines.entry)) }
    ensures left { IfOk result (λ left. left ≡ left_after (start_in settings.now.tells_moves (beginning from settings.now.file)) lines.entry) }
    ensures err { OnErr result (TakesBeginning W.contents output.old output.new (text_after (start_in settings.now.tells_moves (beginning from settings.now.file)) lines.entry)) }
    ensures front { IfErr result (λ fault. fault ≢ ServeFault.Write → Takes W.contents output.old output.new []
        ⊎ PrintsFrontFrom (Takes W.contents output.old output.new) (start_in settings.now.tells_moves (beginning from settings.now.file)) lines.entry) }
    ensures counted { IsServeCounted P.failures from result }
    ensures failed { IsErrOf result ServeFault.Write ↔ IsTrue (writer_failed output.new) }
{
    lines_keep_settings();
    match begin(alloc, maker, from, &settings.file, listener)? {
        Ok(world) => {
            let tells_moves = settings.tells_moves;
            let mut run = Run { world, tells_moves };
            answer_lines(alloc, output, &mut run, lines, script, listener)?;
            listener.script_ended(run.world.in_flight().len() as u64);
            Ok(Some(leave(&settings.file, run.world)))
        }
        Err(refusal) => refuse(alloc, output, refusal),
    }
}

// Answers lines, over whatever store of pages. Want of memory and a page out of reach leave each line whole or out.
fn answer_lines<P: Pages + Drop, W: Write, L: Listener>(
    alloc: Global,
    output: &mut Output<'_, W>,
    run: &mut Run<P>,
    lines: Lines<'_>,
    script: &[u8],
    listener: &mut L,
) -> Result<(), ServeFault>
    requires open { IsFalse (writer_failed output.old) }
    requires sound { IsSoundWorld any_pseudokey run.old.world }
    ensures same_writer { SameWriter output.old output.new }
    ensures ok { OnOk result (Takes W.contents output.old output.new (text_from run.old.tells_moves run.old.world lines.entry)) }
    ensures world { OnOk result (run.new.world ≡ world_left run.old.world lines.entry) }
    ensures err { OnErr result (TakesBeginning W.contents output.old output.new (text_from run.old.tells_moves run.old.world lines.entry)) }
    ensures front { IfErr result (λ fault. fault ≢ ServeFault.Write → PrintsFrontFrom (Takes W.contents output.old output.new) (start_in run.old.tells_moves (Ok run.old.world)) lines.entry) }
    ensures counted { IfErr result (λ fault. fault ≡ ServeFault.Page → HasCountedMore P.failures run.old.world) }
    ensures failed { IsErrOf result ServeFault.Write ↔ IsTrue (writer_failed output.new) }
{
    let mut text = Vec::new(alloc);
    for line in lines {
        text.clear();
        push_line(&mut text, run, line)?;
        output.push(&text)?;
        listener.answered(script, line, &text);
    }
    Ok(())
}

// Answers a line as `push_response` does. A page out of reach is one that a store has counted, behind those that a ward
// of the world had met.
fn push_line<P: Pages + Drop>(
    out: &mut Vec<u8>,
    run: &mut Run<P>,
    line: &[u8],
) -> Result<(), ServeFault>
    requires { IsSoundWorld any_pseudokey run.old.world }
    ensures text { OnOk result (out.new.items ≡ out.old.items ++ response_text (line_response run.old.tells_moves run.old.world line.now)) }
    ensures world { OnOk result (run.new.world ≡ after_line run.old.world line.now) }
    ensures sound { IsSoundWorld any_pseudokey run.new.world }
    ensures telling { run.new.tells_moves ≡ run.old.tells_moves }
    ensures written { IsErrOf result ServeFault.Write → ⊥ }
    ensures falls { OnOk result (FallsNowhere run.old.world run.new.world) }
    ensures counted { IfErr result (λ fault. fault ≡ ServeFault.Page → HasCountedMore P.failures run.old.world) }
{
    steps_have_outcomes::<AnyKeyer>();
    match push_response(out, run, line) {
        Ok(()) => Ok(()),
        Err(fault) => Err(fault_in(run, fault)),
    }
}

// Why a run ends at a line that has no response. It asks the stores, one of which has counted as many pages out of reach
// as any ward.
fn fault_in<P: Pages + Drop>(run: &Run<P>, fault: ResponseFault) -> ServeFault
    ensures is { result ≡ fault_of fault }
    ensures counted { HaveCounted P.failures run.now.world }
{
    run.world.most_failures();
    fault.into()
}
