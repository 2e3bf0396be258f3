ghost use Rattle.std.specs.Prelude.{◌≡◌, ◌≢◌, ◌<◌, ◌≤◌, ◌↔◌, ◌^◌, [], length, IfOk, IfErr, OnOk, OnErr, IsErrOf, IsTrue, IsFalse};
ghost use Rattle.std.specs.Option.{option_map};
ghost use Rattle.std.specs.Io.KnownBytes.{Appends};
ghost use Rattle.exh_text.specs.TextLines.{lines_of};
ghost use Rattle.exh_stream.specs.Output.{AppendsBeginning, SameWriter, Takes, TakesBeginning, held, pending, writer_failed};
ghost use Rattle.exh_stream.specs.Source.{SameReader, reader_failed, unread};
ghost use Rattle.exh_text.specs.FileLine.{file_in_range};
ghost use Rattle.exh_load.specs.Load.{IsLoadBy, IsLoadOf, Loads, Prints, PrintsFront, TakesFront, at_end, beginning, load_begun, load_of, load_of_lines, loaded};
ghost use Rattle.exh_load.specs.LoadFault.{HasCounted, IsLoadCounted};
ghost use Rattle.exh_load.specs.Loader.{IsLoading, file_in};
ghost use Rattle.exh_load.specs.Loading.{loading_in, loading_of};

use crate::begin::begin;
use crate::number_line::{print_number, refuse};
use crate::{LoadFault, Loader, load_lines};
use exh_file::Opened;
use exh_keyer::AnyKeyer;
use exh_page::Config;
use exh_stores::{Pages, StoreMaker};
use exh_stream::{InputFault, Output, Source};
use exh_text::{Lines, Listener, parse_file_line};
use std::alloc::Global;
use std::io::{Read, Write};

/// The most bytes of a text that is loaded: no text has more.
pub const TEXT_LIMIT: usize = 1 << 60;

/// Reads a whole text, of a `file` line and of pairs, puts the pairs into an opened file, or into a new one over stores
/// that the maker makes, and writes what is printed of them and nothing else. It answers the file, or `None` where the
/// text is refused, as one of more than `limit` bytes is, and one whose `file` line isn't the opened file's. Where the
/// reader fails, that is the line `refused 41` alone. No fault is tried again. The listener is told of lines that are
/// refused or full.
///
/// `Write`: the writer failed or took no bytes, and got a beginning of what is printed. `Memory`: a growth was refused.
/// `Page`: a page couldn't be reached, which a store has counted: more than a ward of the opened file had, or more than
/// none in a new file. After these two the writer got whole lines of it.
pub fn load<P: Pages + Drop, M: StoreMaker<P, AnyKeyer>, R: Read, W: Write, L: Listener>(
    alloc: Global,
    maker: &M,
    from: Option<Opened<P>>,
    limit: usize,
    reader: &mut R,
    writer: &mut W,
    listener: &mut L,
) -> Result<Option<Opened<P>>, LoadFault>
    requires { limit ≤ TEXT_LIMIT }
    ensures ok { IfOk result (λ file. Loads (IsLoadOf (load_of (beginning from) limit) (R.remaining reader.old)) (Appends (W.contents writer.old) (W.contents writer.new)) file) }
    ensures err { OnErr result (Prints (IsLoadOf (load_of (beginning from) limit) (R.remaining reader.old)) (AppendsBeginning (W.contents writer.old) (W.contents writer.new))) }
    ensures memory { IfErr result (λ fault. fault ≢ LoadFault.Write → PrintsFront (IsLoadOf (load_of (beginning from) limit) (R.remaining reader.old)) (Appends (W.contents writer.old) (W.contents writer.new))) }
    ensures counted { IsLoadCounted P.failures from result }
{
    load_all(
        alloc,
        maker,
        from,
        limit,
        &mut Source::new(reader),
        &mut Output::new(writer),
        listener,
    )
}

// The same of a source. What waits is written after each fault.
fn load_all<P: Pages + Drop, M: StoreMaker<P, AnyKeyer>, R: Read, W: Write, L: Listener>(
    alloc: Global,
    maker: &M,
    from: Option<Opened<P>>,
    limit: usize,
    source: &mut Source<'_, R>,
    output: &mut Output<'_, W>,
    listener: &mut L,
) -> Result<Option<Opened<P>>, LoadFault>
    requires limit { limit ≤ TEXT_LIMIT }
    requires open { IsFalse (reader_failed source.old) }
    requires open_output { IsFalse (writer_failed output.old) }
    requires empty { pending output.old ≡ [] }
    ensures same_reader { SameReader source.old source.new }
    ensures same_writer { SameWriter output.old output.new }
    ensures ok { IfOk result (λ file. Loads (IsLoadOf (load_of (beginning from) limit) (unread R.remaining source.old)) (Appends (held W.contents output.old) (held W.contents output.new)) file) }
    ensures reader { OnOk result (Prints (IsLoadBy (load_of (beginning from) limit) (unread R.remaining source.old) (reader_failed source.new)) (Appends (held W.contents output.old) (held W.contents output.new))) }
    ensures err { OnErr result (Prints (IsLoadOf (load_of (beginning from) limit) (unread R.remaining source.old)) (AppendsBeginning (held W.contents output.old) (held W.contents output.new))) }
    ensures memory { IfErr result (λ fault. fault ≢ LoadFault.Write → PrintsFront (IsLoadOf (load_of (beginning from) limit) (unread R.remaining source.old)) (Appends (held W.contents output.old) (held W.contents output.new))) }
    ensures counted { IsLoadCounted P.failures from result }
{
    let loaded = load_source(alloc, maker, from, limit, source, output, listener);
    output.finish()?;
    loaded
}

// Reads the text, and loads it.
fn load_source<P: Pages + Drop, M: StoreMaker<P, AnyKeyer>, R: Read, W: Write, L: Listener>(
    alloc: Global,
    maker: &M,
    from: Option<Opened<P>>,
    limit: usize,
    source: &mut Source<'_, R>,
    output: &mut Output<'_, W>,
    listener: &mut L,
) -> Result<Option<Opened<P>>, LoadFault>
    requires limit { limit ≤ TEXT_LIMIT }
    requires open { IsFalse (reader_failed source.old) }
    requires open_output { IsFalse (writer_failed output.old) }
    ensures same_reader { SameReader source.old source.new }
    ensures same_writer { SameWriter output.old output.new }
    ensures ok { IfOk result (λ file. Loads (IsLoadOf (load_of (beginning from) limit) (unread R.remaining source.old)) (Takes W.contents output.old output.new) file) }
    ensures reader { OnOk result (Prints (IsLoadBy (load_of (beginning from) limit) (unread R.remaining source.old) (reader_failed source.new)) (Takes W.contents output.old output.new)) }
    ensures err { OnErr result (Prints (IsLoadOf (load_of (beginning from) limit) (unread R.remaining source.old)) (TakesBeginning W.contents output.old output.new)) }
    ensures front { IfErr result (λ fault. fault ≢ LoadFault.Write → Prints (IsLoadOf (load_of (beginning from) limit) (unread R.remaining source.old)) (TakesFront W.contents output.old output.new)) }
    ensures counted { IsLoadCounted P.failures from result }
    ensures failed { IsErrOf result LoadFault.Write ↔ IsTrue (writer_failed output.new) }
{
    match source.read_whole(alloc, limit) {
        Ok(text) => load_text(alloc, maker, from, output, &text, listener),
        Err(InputFault::TooLong) => {
            listener.too_long();
            refuse(alloc, output, 62)
        }
        Err(InputFault::Read) => refuse(alloc, output, 41),
        Err(InputFault::Memory) => Err(LoadFault::Memory),
    }
}

// Loads a text.
fn load_text<P: Pages + Drop, M: StoreMaker<P, AnyKeyer>, W: Write, L: Listener>(
    alloc: Global,
    maker: &M,
    from: Option<Opened<P>>,
    output: &mut Output<'_, W>,
    text: &[u8],
    listener: &mut L,
) -> Result<Option<Opened<P>>, LoadFault>
    requires open { IsFalse (writer_failed output.old) }
    requires few { length (lines_of text.now) < 2 ^ 64 }
    ensures same_writer { SameWriter output.old output.new }
    ensures text { OnOk result (Takes W.contents output.old output.new (load_of_lines at_end (beginning from) (lines_of text.now)).printed) }
    ensures left { IfOk result (λ file. option_map loading_in file ≡ (load_of_lines at_end (beginning from) (lines_of text.now)).left) }
    ensures err { OnErr result (TakesBeginning W.contents output.old output.new (load_of_lines at_end (beginning from) (lines_of text.now)).printed) }
    ensures front { IfErr result (λ fault. fault ≢ LoadFault.Write → TakesFront W.contents output.old output.new (load_of_lines at_end (beginning from) (lines_of text.now)).printed) }
    ensures counted { IsLoadCounted P.failures from result }
    ensures failed { IsErrOf result LoadFault.Write ↔ IsTrue (writer_failed output.new) }
{
    let mut lines = Lines::new(text);
    let Some(first) = lines.next() else {
        return refuse(alloc, output, 60);
    };
    match parse_file_line(first) {
        Ok(settings) => load_pairs(
            alloc,
            maker,
            from,
            output,
            &settings.file,
            lines,
            text,
            listener,
        ),
        Err(fault) => {
            listener.first_refused(text, first, fault);
            refuse(alloc, output, fault.number())
        }
    }
}

// Loads the pairs of lines into the opened file, or a new one, of these settings.
fn load_pairs<P: Pages + Drop, M: StoreMaker<P, AnyKeyer>, W: Write, L: Listener>(
    alloc: Global,
    maker: &M,
    from: Option<Opened<P>>,
    output: &mut Output<'_, W>,
    file: &Config<AnyKeyer>,
    lines: Lines<'_>,
    text: &[u8],
    listener: &mut L,
) -> Result<Option<Opened<P>>, LoadFault>
    requires open { IsFalse (writer_failed output.old) }
    requires range { IsTrue (file_in_range file.now) }
    requires few { length lines < 2 ^ 64 }
    ensures same_writer { SameWriter output.old output.new }
    ensures text { OnOk result (Takes W.contents output.old output.new (load_begun at_end (beginning from file.now) lines.entry).printed) }
    ensures left { IfOk result (λ opened. option_map loading_in opened ≡ (load_begun at_end (beginning from file.now) lines.entry).left) }
    ensures err { OnErr result (TakesBeginning W.contents output.old output.new (load_begun at_end (beginning from file.now) lines.entry).printed) }
    ensures front { IfErr result (λ fault. fault ≢ LoadFault.Write → TakesFront W.contents output.old output.new (load_begun at_end (beginning from file.now) lines.entry).printed) }
    ensures counted { IsLoadCounted P.failures from result }
    ensures failed { IsErrOf result LoadFault.Write ↔ IsTrue (writer_failed output.new) }
{
    match begin(alloc, maker, from, file, listener)? {
        Some(loader) => put_pairs(alloc, output, loader, lines, text, listener),
        None => refuse(alloc, output, 63),
    }
}

// Puts the pairs of lines, and tells how many records there are more.
fn put_pairs<P: Pages + Drop, W: Write, L: Listener>(
    alloc: Global,
    output: &mut Output<'_, W>,
    mut loader: Loader<P>,
    lines: Lines<'_>,
    text: &[u8],
    listener: &mut L,
) -> Result<Option<Opened<P>>, LoadFault>
    requires open { IsFalse (writer_failed output.old) }
    requires loading { IsLoading loader }
    requires few { length lines < 2 ^ 64 }
    ensures same_writer { SameWriter output.old output.new }
    ensures text { OnOk result (Takes W.contents output.old output.new (loaded at_end (loading_of loader) lines.entry).printed) }
    ensures left { IfOk result (λ opened. option_map loading_in opened ≡ (loaded at_end (loading_of loader) lines.entry).left) }
    ensures err { OnErr result (TakesBeginning W.contents output.old output.new (loaded at_end (loading_of loader) lines.entry).printed) }
    ensures front { IfErr result (λ fault. fault ≢ LoadFault.Write → TakesFront W.contents output.old output.new (loaded at_end (loading_of loader) lines.entry).printed) }
    ensures counted { IfErr result (λ fault. fault ≡ LoadFault.Page → HasCounted P.failures (file_in loader)) }
    ensures failed { IsErrOf result LoadFault.Write ↔ IsTrue (writer_failed output.new) }
{
    let records = load_lines(alloc, output, &mut loader, lines, text, listener)?;
    listener.pairs_ended(loader.settings());
    print_number(alloc, output, "loaded ", records)?;
    Ok(Some(loader.into_opened()))
}
