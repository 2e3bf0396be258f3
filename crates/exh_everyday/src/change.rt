//! Changes of one key: made in place by a file of version 3, else in a store that is saved whole.
ghost use Rattle.std.specs.Prelude.{◌≡◌, [], IfOk, IsFalse};
ghost use Rattle.exh_stream.specs.Output.{SameWriter, held, pending, writer_failed};
ghost use Rattle.exh_everyday.specs.Changes.{IsAnswerTo};
ghost use Rattle.exh_transfer.specs.Ends.{Ends};
ghost use Rattle.exh_everyday.specs.Endings.{change_ended};
ghost use Rattle.exh_everyday.specs.Runs.{ChangeEnds};

use crate::answer::Answer;
use crate::changed_file::ChangedFile;
use crate::printing::tell_answer;
use exh_page::{Key, Value};
use exh_stream::Output;
use exh_transfer::{Direct, Run, Status, Store, StoreError, refuse_change, save};
use std::io::Write;

/// A change of one key.
#[derive(Clone, Copy)]
pub(crate) enum Change {
    /// Give it a value.
    Put { key: Key, value: Value },
    /// Give it a value where it has none.
    PutNew { key: Key, value: Value },
    /// Give it a value where it has one.
    Replace { key: Key, value: Value },
    /// Take it out.
    Remove { key: Key },
    /// Give it the new value where it has the old one.
    Swap { key: Key, old: Value, new: Value },
}

/// Makes a change, and prints the answer once it is saved.
pub(crate) fn make_change<W: Write>(
    run: &Run<'_>,
    change: &Change,
    output: &mut Output<'_, W>,
) -> Status
    requires open { IsFalse (writer_failed output.old) }
    requires empty { pending output.old ≡ [] }
    ensures same_writer { SameWriter output.old output.new }
    ensures ends { ChangeEnds run.now.form.is_hex change.now (held W.contents output.old) (held W.contents output.new) (writer_failed output.new) result }
{
    let answered = answer_to(run, change);
    end_change(run, answered, output)
}

// Ends a change by what the library answers.
fn end_change<W: Write>(
    run: &Run<'_>,
    answered: Result<Answer, StoreError>,
    output: &mut Output<'_, W>,
) -> Status
    requires open { IsFalse (writer_failed output.old) }
    requires empty { pending output.old ≡ [] }
    ensures same_writer { SameWriter output.old output.new }
    ensures ends { Ends (change_ended run.now.form.is_hex answered) (held W.contents output.old) (held W.contents output.new) (writer_failed output.new) result }
{
    match answered {
        Ok(answer) => tell_answer(run, &answer, output),
        Err(fault) => refuse_change(run, fault),
    }
}

// What the library answers to a change.
fn answer_to(run: &Run<'_>, change: &Change) -> Result<Answer, StoreError>
    ensures { IfOk result (IsAnswerTo change.now) }
{
    let mut direct = Direct::new(run.rt, run.path).within(run.seconds);
    match answer_of(&mut direct, change) {
        Err(StoreError::OldVersion) => answer_whole(run, change),
        answer => answer,
    }
}

// That of a file of version 1 or 2, which is saved as a whole.
fn answer_whole(run: &Run<'_>, change: &Change) -> Result<Answer, StoreError>
    ensures { IfOk result (IsAnswerTo change.now) }
{
    let mut store = Store::open_within(run.rt, run.path, run.seconds)?;
    let answer = answer_of(&mut store, change)?;
    save(run, store)?;
    Ok(answer)
}

// That of a page file.
fn answer_of<F: ChangedFile>(file: &mut F, change: &Change) -> Result<Answer, StoreError>
    ensures kind { IfOk result (IsAnswerTo change.now) }
    ensures given { IfOk result (λ answer. F.gives file.old change.now answer file.new) }
{
    match change {
        Change::Put { key, value } => {
            Ok(Answer::of_put(file.put(key.as_bytes(), value.as_bytes())?))
        }
        Change::PutNew { key, value } => {
            Ok(Answer::of_put_new(file.put_new(key.as_bytes(), value.as_bytes())?))
        }
        Change::Replace { key, value } => {
            Ok(Answer::of_was(file.replace(key.as_bytes(), value.as_bytes())?))
        }
        Change::Remove { key } => Ok(Answer::of_was(file.remove(key.as_bytes())?)),
        Change::Swap { key, old, new } => Ok(Answer::of_swap(file.swap(
            key.as_bytes(),
            old.as_bytes(),
            new.as_bytes(),
        )?)),
    }
}
