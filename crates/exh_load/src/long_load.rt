//! The load of a text that is read line by line.
ghost use Rattle.std.specs.Prelude.{◌≡◌, ◌≢◌, ◌↔◌, ◌∷◌, ℕ, List, Option, [], Ok, IfErr, IfOk, IsErrOf, IsFalse, IsTrue, OnErr, OnOk};
ghost use Rattle.std.specs.Option.{option_map};
ghost use Rattle.std.specs.Io.KnownBytes.{Appends};
ghost use Rattle.exh_stream.specs.Output.{AppendsBeginning, SameWriter, Takes, TakesBeginning, held, pending, writer_failed};
ghost use Rattle.exh_stream.specs.Source.{SameReader};
ghost use Rattle.exh_text.specs.FileLine.{file_line_of, settings_in_range};
ghost use Rattle.exh_text.specs.declared.settings.Settings.{Settings};
ghost use Rattle.exh_load.specs.LineSource.{BreaksOff, EndsRight, HasPassed, PutsLines, break_number, text_left};
ghost use Rattle.exh_load.specs.Load.{Beginning, Loads, Prints, PrintsFront, TakesFront, beginning, refused};
ghost use Rattle.exh_load.specs.LoadFault.{HasCounted, IsLoadCounted};
ghost use Rattle.exh_load.specs.Loader.{IsLoading, file_in};
ghost use Rattle.exh_load.specs.Loading.{loading_in, loading_of};
ghost use Rattle.exh_load.specs.LongLoad.{IsLongLoad, LoadTakes};

use crate::begin::begin;
use crate::line_source::LineSource;
use crate::load_text::put_line;
use crate::number_line::{print_number, refuse};
use crate::{LoadFault, Loader};
use exh_file::Opened;
use exh_keyer::AnyKeyer;
use exh_stores::{Pages, StoreMaker};
use exh_stream::{InputFault, Output};
use exh_text::{Listener, Settings, parse_file_line};
use std::alloc::Global;
use std::cell::Cell;
use std::io::{Read, Write};

/// Reads a text line by line, of a `file` line and of pairs, puts the pairs into an opened file, or into a new one over
/// stores that the maker makes, and writes what is printed of them and nothing else. Of each line the first `LINE_LEN`
/// bytes are looked at. It answers the file, or `None` where the text is refused, as one is whose `file` line isn't the
/// opened file's. Where the reader fails, the line `refused 41` stands behind what is printed of the whole lines before,
/// and there is no file. No fault is tried again. The listener is told of lines that are refused or full, each of them as
/// if it were the text; `number` has the line's number in the text then.
///
/// `Write`: the writer failed or took no bytes, and got a beginning of what is printed. `Memory`: a growth was refused.
/// `Page`: a page couldn't be reached, which a store has counted, as in `load`. After these two the writer got whole
/// lines of it.
pub fn load_long<P: Pages + Drop, M: StoreMaker<P, AnyKeyer>, R: Read, W: Write, L: Listener>(
    alloc: Global,
    maker: &M,
    from: Option<Opened<P>>,
    reader: &mut R,
    writer: &mut W,
    listener: &mut L,
    number: &Cell<u64>,
) -> Result<Option<Opened<P>>, LoadFault>
    ensures ok { IfOk result (λ file. Loads (IsLongLoad (beginning from) (R.remaining reader.old)) (Appends (W.contents writer.old) (W.contents writer.new)) file) }
    ensures err { OnErr result (Prints (IsLongLoad (beginning from) (R.remaining reader.old)) (AppendsBeginning (W.contents writer.old) (W.contents writer.new))) }
    ensures memory { IfErr result (λ fault. fault ≢ LoadFault.Write → PrintsFront (IsLongLoad (beginning from) (R.remaining reader.old)) (Appends (W.contents writer.old) (W.contents writer.new))) }
    ensures counted { IsLoadCounted P.failures from result }
{
    load_all(
        alloc,
        maker,
        from,
        &mut LineSource::new(alloc, reader),
        &mut Output::new(writer),
        listener,
        number,
    )
}

// The same of lines. What waits is written after each fault.
fn load_all<P: Pages + Drop, M: StoreMaker<P, AnyKeyer>, R: Read, W: Write, L: Listener>(
    alloc: Global,
    maker: &M,
    from: Option<Opened<P>>,
    lines: &mut LineSource<'_, R>,
    output: &mut Output<'_, W>,
    listener: &mut L,
    number: &Cell<u64>,
) -> Result<Option<Opened<P>>, LoadFault>
    requires ends { EndsRight R.remaining lines.old }
    requires open { IsFalse (writer_failed output.old) }
    requires empty { pending output.old ≡ [] }
    ensures same_reader { SameReader lines.old.source lines.new.source }
    ensures same_writer { SameWriter output.old output.new }
    ensures ok { IfOk result (λ file. Loads (IsLongLoad (beginning from) (text_left R.remaining lines.old)) (Appends (held W.contents output.old) (held W.contents output.new)) file) }
    ensures err { OnErr result (Prints (IsLongLoad (beginning from) (text_left R.remaining lines.old)) (AppendsBeginning (held W.contents output.old) (held W.contents output.new))) }
    ensures memory { IfErr result (λ fault. fault ≢ LoadFault.Write → PrintsFront (IsLongLoad (beginning from) (text_left R.remaining lines.old)) (Appends (held W.contents output.old) (held W.contents output.new))) }
    ensures counted { IsLoadCounted P.failures from result }
{
    let loaded = load_lines_of(alloc, maker, from, lines, output, listener, number);
    output.finish()?;
    loaded
}

// Loads the lines.
fn load_lines_of<P: Pages + Drop, M: StoreMaker<P, AnyKeyer>, R: Read, W: Write, L: Listener>(
    alloc: Global,
    maker: &M,
    from: Option<Opened<P>>,
    lines: &mut LineSource<'_, R>,
    output: &mut Output<'_, W>,
    listener: &mut L,
    number: &Cell<u64>,
) -> Result<Option<Opened<P>>, LoadFault>
    requires ends { EndsRight R.remaining lines.old }
    requires open { IsFalse (writer_failed output.old) }
    ensures same_reader { SameReader lines.old.source lines.new.source }
    ensures same_writer { SameWriter output.old output.new }
    ensures loads { LoadTakes W.contents (IsLongLoad (beginning from) (text_left R.remaining lines.old)) output.old output.new result }
    ensures counted { IsLoadCounted P.failures from result }
    ensures failed { IsErrOf result LoadFault.Write ↔ IsTrue (writer_failed output.new) }
{
    match lines.next_line() {
        Ok(true) => load_first(alloc, maker, from, lines, output, listener, number),
        Ok(false) => refuse(alloc, output, 60),
        Err(fault) => break_off(alloc, output, fault),
    }
}

// Loads what the first line begins, which was gone to.
fn load_first<P: Pages + Drop, M: StoreMaker<P, AnyKeyer>, R: Read, W: Write, L: Listener>(
    alloc: Global,
    maker: &M,
    from: Option<Opened<P>>,
    lines: &mut LineSource<'_, R>,
    output: &mut Output<'_, W>,
    listener: &mut L,
    number: &Cell<u64>,
) -> Result<Option<Opened<P>>, LoadFault>
    requires ends { EndsRight R.remaining lines.old }
    requires open { IsFalse (writer_failed output.old) }
    ensures same_reader { SameReader lines.old.source lines.new.source }
    ensures same_writer { SameWriter output.old output.new }
    ensures loads { (known : Option (List ℕ)) → HasPassed R.remaining known lines.old (lines.old.line.items ∷ []) → LoadTakes W.contents (IsLongLoad (beginning from) known) output.old output.new result }
    ensures counted { IsLoadCounted P.failures from result }
    ensures failed { IsErrOf result LoadFault.Write ↔ IsTrue (writer_failed output.new) }
{
    match parse_file_line(lines.line()) {
        Ok(settings) => load_pairs(
            alloc, maker, from, &settings, lines, output, listener, number,
        ),
        Err(fault) => {
            number.set(lines.number());
            listener.first_refused(lines.line(), lines.line(), fault);
            refuse(alloc, output, fault.number())
        }
    }
}

// Loads the pairs of the lines behind the first, which has these settings.
fn load_pairs<P: Pages + Drop, M: StoreMaker<P, AnyKeyer>, R: Read, W: Write, L: Listener>(
    alloc: Global,
    maker: &M,
    from: Option<Opened<P>>,
    settings: &Settings,
    lines: &mut LineSource<'_, R>,
    output: &mut Output<'_, W>,
    listener: &mut L,
    number: &Cell<u64>,
) -> Result<Option<Opened<P>>, LoadFault>
    requires ends { EndsRight R.remaining lines.old }
    requires open { IsFalse (writer_failed output.old) }
    requires range { IsTrue (settings_in_range settings.now) }
    ensures same_reader { SameReader lines.old.source lines.new.source }
    ensures same_writer { SameWriter output.old output.new }
    ensures loads { (known : Option (List ℕ)) (line : List ℕ) → file_line_of line ≡ Ok settings.now → HasPassed R.remaining known lines.old (line ∷ []) → LoadTakes W.contents (IsLongLoad (beginning from) known) output.old output.new result }
    ensures counted { IsLoadCounted P.failures from result }
    ensures failed { IsErrOf result LoadFault.Write ↔ IsTrue (writer_failed output.new) }
{
    match begin(alloc, maker, from, &settings.file, listener)? {
        Some(loader) => put_pairs(alloc, output, loader, lines, listener, number),
        None => refuse(alloc, output, 63),
    }
}

// Puts the pairs of the lines that are left, and tells how many records there are more.
fn put_pairs<P: Pages + Drop, R: Read, W: Write, L: Listener>(
    alloc: Global,
    output: &mut Output<'_, W>,
    mut loader: Loader<P>,
    lines: &mut LineSource<'_, R>,
    listener: &mut L,
    number: &Cell<u64>,
) -> Result<Option<Opened<P>>, LoadFault>
    requires ends { EndsRight R.remaining lines.old }
    requires open { IsFalse (writer_failed output.old) }
    requires loading { IsLoading loader }
    ensures same_reader { SameReader lines.old.source lines.new.source }
    ensures same_writer { SameWriter output.old output.new }
    ensures loads { (known : Option (List ℕ)) (begin : Beginning) (line : List ℕ) (settings : Settings) → file_line_of line ≡ Ok settings → begin settings.file ≡ Ok (loading_of loader)
        → HasPassed R.remaining known lines.old (line ∷ []) → LoadTakes W.contents (IsLongLoad begin known) output.old output.new result }
    ensures counted { IfErr result (λ fault. fault ≡ LoadFault.Page → HasCounted P.failures (file_in loader)) }
    ensures failed { IsErrOf result LoadFault.Write ↔ IsTrue (writer_failed output.new) }
{
    match put_lines(alloc, output, &mut loader, lines, listener, number)? {
        Ok(records) => {
            listener.pairs_ended(loader.settings());
            print_number(alloc, output, "loaded ", records)?;
            Ok(Some(loader.into_opened()))
        }
        Err(fault) => break_off(alloc, output, fault),
    }
}

// Puts the pairs of the lines that are left, up to the text's end or to where it can't be read on, and answers how many
// records there are more, or why it can't.
fn put_lines<P: Pages + Drop, R: Read, W: Write, L: Listener>(
    alloc: Global,
    output: &mut Output<'_, W>,
    loader: &mut Loader<P>,
    lines: &mut LineSource<'_, R>,
    listener: &mut L,
    number: &Cell<u64>,
) -> Result<Result<u64, InputFault>, LoadFault>
    requires ends { EndsRight R.remaining lines.old }
    requires open { IsFalse (writer_failed output.old) }
    requires loading { IsLoading loader.old }
    ensures same_reader { SameReader lines.old.source lines.new.source }
    ensures same_writer { SameWriter output.old output.new }
    ensures put { IfOk result (λ ended. PutsLines R.remaining W.contents lines.old output.old output.new (loading_of loader.old) (loading_of loader.new) ended) }
    ensures stopped { IfErr result (λ fault. BreaksOff R.remaining W.contents lines.old output.old output.new (loading_of loader.old) fault) }
    ensures open { OnOk result (IsFalse (writer_failed output.new)) }
    ensures counted { IfErr result (λ fault. fault ≡ LoadFault.Page → HasCounted P.failures (file_in loader.old)) }
    ensures failed { IsErrOf result LoadFault.Write ↔ IsTrue (writer_failed output.new) }
{
    let mut records = 0u64;
    let mut text = Vec::new(alloc);
    'turns: for _line in 0..u64::MAX {
        match lines.next_line() {
            Ok(true) => {}
            Ok(false) => return Ok(Ok(records)),
            Err(fault) => return Ok(Err(fault)),
        }
        records += put_line(&mut text, output, loader, lines.line())?;
        number.set(lines.number());
        listener.answered(lines.line(), lines.line(), &text);
    }
    Ok(Err(InputFault::TooLong))
}

// Ends the load of a text that can't be read on.
fn break_off<P: Pages + Drop, W: Write>(
    alloc: Global,
    output: &mut Output<'_, W>,
    fault: InputFault,
) -> Result<Option<Opened<P>>, LoadFault>
    requires { IsFalse (writer_failed output.old) }
    ensures same_writer { SameWriter output.old output.new }
    ensures text { OnOk result (Takes W.contents output.old output.new (refused (break_number fault)).printed) }
    ensures left { IfOk result (λ file. option_map loading_in file ≡ (refused (break_number fault)).left) }
    ensures err { OnErr result (TakesBeginning W.contents output.old output.new (refused (break_number fault)).printed) }
    ensures front { IfErr result (λ other. other ≢ LoadFault.Write → TakesFront W.contents output.old output.new (refused (break_number fault)).printed) }
    ensures page { IsErrOf result LoadFault.Page → ⊥ }
    ensures failed { IsErrOf result LoadFault.Write ↔ IsTrue (writer_failed output.new) }
{
    match fault {
        InputFault::TooLong => refuse(alloc, output, 62),
        InputFault::Read => refuse(alloc, output, 41),
        InputFault::Memory => Err(LoadFault::Memory),
    }
}
