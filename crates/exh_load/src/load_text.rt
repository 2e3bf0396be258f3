ghost use Rattle.std.specs.Prelude.{◌≡◌, ◌≢◌, ◌+◌, ◌<◌, ◌≤◌, ◌^◌, ◌++◌, ◌↔◌, length, IfOk, IfErr, OnOk, OnErr, IsErrOf, IsTrue, IsFalse};
ghost use Rattle.exh_stream.specs.Output.{SameWriter, Takes, TakesBeginning, writer_failed};
ghost use Rattle.exh_load.specs.Load.{TakesFront, new_count, record_count};
ghost use Rattle.exh_load.specs.LoadFault.{FallsNowhere, HasCounted};
ghost use Rattle.exh_load.specs.Loader.{IsLoading, file_in};
ghost use Rattle.exh_load.specs.Loading.{after_pair_line, line_text, loaded_from, loading_of, load_text_from};

use crate::pair_line::{parse_pair_line, push_reply};
use crate::{LoadFault, Loader};
use exh_calls::Reply;
use exh_stores::Pages;
use exh_stream::Output;
use exh_text::{Lines, Listener, push_refused, push_text};
use std::alloc::Global;
use std::io::Write;

/// Puts the pairs of lines, tells those that are turned away and the lines that are none, and answers how many records
/// there are more, the greatest `u64` where they are still more. The lines are of a whole text, and the listener is told
/// of each. On an `Err` a beginning of that text went out, and the loader can be used no more.
///
/// `Write`: the writer failed or took no bytes. `Memory`: a growth was refused. `Page`: a page couldn't be reached, which
/// the store of a ward of the loader has counted since.
pub fn load_lines<P: Pages + Drop, W: Write, L: Listener>(
    alloc: Global,
    output: &mut Output<'_, W>,
    loader: &mut Loader<P>,
    lines: Lines<'_>,
    whole: &[u8],
    listener: &mut L,
) -> Result<u64, LoadFault>
    requires open { IsFalse (writer_failed output.old) }
    requires loading { IsLoading loader.old }
    ensures same_writer { SameWriter output.old output.new }
    ensures text { OnOk result (Takes W.contents output.old output.new (load_text_from (loading_of loader.old) lines.entry)) }
    ensures loaded { OnOk result (loading_of loader.new ≡ loaded_from (loading_of loader.old) lines.entry) }
    ensures loading { OnOk result (IsLoading loader.new) }
    ensures err { OnErr result (TakesBeginning W.contents output.old output.new (load_text_from (loading_of loader.old) lines.entry)) }
    ensures front { IfErr result (λ fault. fault ≢ LoadFault.Write → TakesFront W.contents output.old output.new (load_text_from (loading_of loader.old) lines.entry)) }
    ensures records { IfOk result (λ records. length lines.entry < 2 ^ 64 → records + record_count (loading_of loader.old) ≡ record_count (loading_of loader.new)) }
    ensures counted { IfErr result (λ fault. fault ≡ LoadFault.Page → HasCounted P.failures (file_in loader.old)) }
    ensures failed { IsErrOf result LoadFault.Write ↔ IsTrue (writer_failed output.new) }
{
    let mut records = 0u64;
    let mut text = Vec::new(alloc);
    'lines: for line in lines {
        text.clear();
        let more = push_line(&mut text, loader, line)?;
        output.push(&text)?;
        listener.answered(whole, line, &text);
        records = records.saturating_add(more);
    }
    Ok(records)
}

// Puts the pair of a line, prints of it what is left in `text`, and answers how many records there are more.
pub(crate) fn put_line<P: Pages + Drop, W: Write>(
    text: &mut Vec<u8>,
    output: &mut Output<'_, W>,
    loader: &mut Loader<P>,
    line: &[u8],
) -> Result<u64, LoadFault>
    requires open { IsFalse (writer_failed output.old) }
    requires loading { IsLoading loader.old }
    ensures same_writer { SameWriter output.old output.new }
    ensures text { OnOk result (Takes W.contents output.old output.new (line_text (loading_of loader.old) line.now)) }
    ensures loaded { OnOk result (loading_of loader.new ≡ after_pair_line (loading_of loader.old) line.now) }
    ensures loading { OnOk result (IsLoading loader.new) }
    ensures records { IfOk result (λ more. more + record_count (loading_of loader.old) ≡ record_count (loading_of loader.new)) }
    ensures few { IfOk result (λ more. more ≤ 1) }
    ensures err { OnErr result (TakesBeginning W.contents output.old output.new (line_text (loading_of loader.old) line.now)) }
    ensures front { IfErr result (λ fault. fault ≢ LoadFault.Write → output.new ≡ output.old) }
    ensures counted { IfErr result (λ fault. fault ≡ LoadFault.Page → HasCounted P.failures (file_in loader.old)) }
    ensures falls { OnOk result (FallsNowhere (file_in loader.old) (file_in loader.new)) }
    ensures failed { IsErrOf result LoadFault.Write ↔ IsTrue (writer_failed output.new) }
{
    text.clear();
    let more = push_line(text, loader, line)?;
    output.push(text)?;
    Ok(more)
}

// Puts the pair of a line, adds what is printed of it, and answers how many records there are more.
#[tactic(auto, unfolding(crate::specs::Loading::line_text, crate::specs::Loading::after_pair_line))]
fn push_line<P: Pages + Drop>(
    out: &mut Vec<u8>,
    loader: &mut Loader<P>,
    line: &[u8],
) -> Result<u64, LoadFault>
    requires { IsLoading loader.old }
    ensures text { OnOk result (out.new.items ≡ out.old.items ++ line_text (loading_of loader.old) line.now) }
    ensures loaded { OnOk result (loading_of loader.new ≡ after_pair_line (loading_of loader.old) line.now) }
    ensures loading { OnOk result (IsLoading loader.new) }
    ensures records { IfOk result (λ more. more + record_count (loading_of loader.old) ≡ record_count (loading_of loader.new)) }
    ensures few { IfOk result (λ more. more ≤ 1) }
    ensures fault { IfErr result (λ fault. fault ≢ LoadFault.Write) }
    ensures counted { IfErr result (λ fault. fault ≡ LoadFault.Page → HasCounted P.failures (file_in loader.old)) }
    ensures falls { OnOk result (FallsNowhere (file_in loader.old) (file_in loader.new)) }
{
    match parse_pair_line(line) {
        Ok((key, value)) => match loader.put(key, value) {
            Ok(reply) => {
                push_reply(out, &key, &reply)?;
                Ok(new_count(&reply))
            }
            Err(fault) => Err(LoadFault::of_ward(fault)),
        },
        Err(fault) => {
            push_refused(out, fault.number())?;
            push_text(out, "\n")?;
            Ok(0)
        }
    }
}

// How many records more a reply tells of.
fn new_count(reply: &Reply) -> u64
    ensures is { result ≡ new_count reply.now }
    ensures few { result ≤ 1 }
{
    match reply {
        Reply::New => 1,
        _ => 0,
    }
}
