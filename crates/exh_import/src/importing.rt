//! The import of a text, line by line.
ghost use Rattle.std.specs.Prelude.{◌≡◌, ◌≢◌, ℕ, Bool, List, [], IfErr, IfOk, IfSome, IsFalse, IsTrue, OnOk};
ghost use Rattle.exh_import.specs.Causes.{IsCause, IsNextCause};
ghost use Rattle.exh_import.specs.Imports.{EndsSo, Imports, IsTextOf, TakesLine};
ghost use Rattle.exh_import.specs.Pairs.{ArePut, pairs_put};
ghost use Rattle.exh_import.specs.LineReader.{EndsRight, IsOver, TakesNext, TellsWhole, text_left, waiting};
ghost use Rattle.exh_stream.specs.Source.{SameReader};

use crate::line_reader::LineReader;
use crate::taking::Taking;
use crate::{ImportFault, ImportOptions, Imported, ImportedStore, Rejects};
use exh_pair_text::PairFormat;
use std::alloc::Global;
use std::io::Read;

/// Imports a text of pairs, or what is left of it behind its heading: puts the pair of each line into a store, in order, and
/// hands each line that isn't put to the listener.
///
/// Pairs are committed in batches and at the end, and the store rests before the first put behind a batch's commit; or they
/// are committed at the end alone where `is_atomic` is asked for, and not at all then where a line was rejected, a key had no
/// room or the text is cut off. A text that begins with the opening of an export is cut off where its last line isn't the end
/// with the number of its lines between, empty ones aside, and with its newline; that last line isn't put. An opening or end
/// elsewhere is rejected.
///
/// `Read`: the reader failed, now or before. `Memory`: a growth was refused. `LongLine`: a line has more than 65,536 bytes.
/// `OtherFormat`: the opening names another format. `Endless`: there are more than 2^64 - 1 lines. `Refused`: the store
/// refused a put, a commit or a rest. The pairs since the last commit stay in the store, uncommitted.
pub fn import<R: Read, S: ImportedStore, L: Rejects>(
    alloc: Global,
    lines: &mut LineReader<'_, R>,
    store: &mut S,
    options: &ImportOptions<'_>,
    listener: &mut L,
) -> Result<Imported, ImportFault>
    requires ends { EndsRight R.remaining lines.old }
    ensures same_reader { SameReader lines.old.source lines.new.source }
    ensures imports { IfOk result (λ imported. (texts : List (List ℕ)) × ((whole : Bool) × (IfSome (text_left R.remaining lines.old) (IsTextOf options.now.format texts)
        × (IfSome (text_left R.remaining lines.old) (EndsSo whole texts)
        × Imports S.gives S.saves S.rests L.told options.now whole texts store.old listener.old imported store.new listener.new)))) }

    // The pairs of the text's lines are put in order, with commits and rests between.
    ensures pairs { IfOk result (λ imported. (texts : List (List ℕ)) × (IfSome (text_left R.remaining lines.old) (IsTextOf options.now.format texts)
        × ArePut S.gives S.saves S.rests (pairs_put options.now texts) store.old store.new)) }

    // Each error but `Memory` only where its cause is there.
    ensures cause { IfErr result (IsCause S.refused options.now (text_left R.remaining lines.old) lines.new store.new) }
{
    let mut taking = Taking::new(options);
    let mut is_over = lines.is_over()?;
    let mut has_newline = true;
    'lines: for _line in 0..u64::MAX {
        if is_over {
            return taking.finish(has_newline, store);
        }
        is_over = take_next(alloc, options.format, lines, &mut taking, store, listener)?;
        has_newline = lines.is_whole();
    }
    if is_over {
        taking.finish(has_newline, store)
    } else {
        Err(ImportFault::Endless)
    }
}

// Takes the next line, and says whether it is the last.
fn take_next<R: Read, S: ImportedStore, L: Rejects>(
    alloc: Global,
    format: PairFormat,
    lines: &mut LineReader<'_, R>,
    taking: &mut Taking<'_>,
    store: &mut S,
    listener: &mut L,
) -> Result<bool, ImportFault>
    requires ends { EndsRight R.remaining lines.old }
    requires some { waiting lines.old ≢ [] }
    ensures same_reader { SameReader lines.old.source lines.new.source }
    ensures ends { OnOk result (EndsRight R.remaining lines.new) }
    ensures next { OnOk result (TakesNext format R.remaining lines.old lines.new) }
    ensures whole { OnOk result (TellsWhole lines.new.is_whole format R.remaining lines.old lines.new) }
    ensures over { IfOk result (λ over. IsTrue over → IsOver lines.new) }
    ensures some { IfOk result (λ over. IsFalse over → waiting lines.new ≢ []) }
    ensures taken { IfOk result (λ over. TakesLine S.gives S.saves S.rests L.told over lines.new.line.items
        (record { taking = taking.old; store = store.old; listener = listener.old })
        (record { taking = taking.new; store = store.new; listener = listener.new })) }
    ensures cause { IfErr result (IsNextCause format R.remaining S.refused lines.old lines.new taking.old store.new) }
{
    lines.next_line(format, taking.imported.lines.saturating_add(1))?;
    let is_last = lines.is_over()?;
    taking.take(alloc, lines.line(), is_last, store, listener)?;
    Ok(is_last)
}
