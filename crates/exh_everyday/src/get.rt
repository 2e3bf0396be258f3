//! The run of a get.
ghost use Rattle.std.specs.Prelude.{◌≡◌, [], IfOk, IsFalse};
ghost use Rattle.exh_stream.specs.Output.{SameWriter, held, pending, writer_failed};
ghost use Rattle.exh_everyday.specs.Answers.{value_text};
ghost use Rattle.exh_transfer.specs.Ends.{Ends, Says};
ghost use Rattle.exh_everyday.specs.Endings.{get_ended, get_several_ended};
ghost use Rattle.exh_everyday.specs.Runs.{GetEnds, GetOneEnds, GetSeveralEnds};
ghost use Rattle.exh_transfer.specs.declared.Status.TheVariants.{Done};

use crate::found::Found;
use crate::key_values::values_at;
use crate::printing::tell_found;
use crate::shown::push_shown;
use exh_page::{Key, Value};
use exh_request::{Form, Keys};
use exh_stream::Output;
use exh_text::push_text;
use exh_transfer::{
    Direct, Run, Status, StoreError, input_keys, refuse_reading, tell_absent, tell_text,
};
use std::alloc::{AllocError, Global};
use std::io::Write;

// What stands between a key and its value.
const BETWEEN: &str = " ";

/// Prints the values of keys, of one state of the file.
pub(crate) fn get<W: Write>(run: &Run<'_>, keys: &Keys, output: &mut Output<'_, W>) -> Status
    requires open { IsFalse (writer_failed output.old) }
    requires empty { pending output.old ≡ [] }
    ensures same_writer { SameWriter output.old output.new }
    ensures ends { GetEnds run.now.form keys.now (held W.contents output.old) (held W.contents output.new) (writer_failed output.new) result }
{
    match keys {
        Keys::One(key) => get_one(run, key, output),
        Keys::Several(keys) => get_several(run, keys, output),
        Keys::Input => match input_keys(run) {
            Ok(keys) => get_several(run, &keys, output),
            Err(status) => status,
        },
    }
}

// Prints the value of a key.
fn get_one<W: Write>(run: &Run<'_>, key: &Key, output: &mut Output<'_, W>) -> Status
    requires open { IsFalse (writer_failed output.old) }
    requires empty { pending output.old ≡ [] }
    ensures same_writer { SameWriter output.old output.new }
    ensures ends { GetOneEnds run.now.form (held W.contents output.old) (held W.contents output.new) (writer_failed output.new) result }
{
    let direct = Direct::new(run.rt, run.path).within(run.seconds);
    let found = direct.get(key.as_bytes());
    end_get(run, key, found, output)
}

// Ends the get of a key by what the library answers.
fn end_get<W: Write>(
    run: &Run<'_>,
    key: &Key,
    found: Result<Option<Value>, StoreError>,
    output: &mut Output<'_, W>,
) -> Status
    requires open { IsFalse (writer_failed output.old) }
    requires empty { pending output.old ≡ [] }
    ensures same_writer { SameWriter output.old output.new }
    ensures ends { Ends (get_ended run.now.form found) (held W.contents output.old) (held W.contents output.new) (writer_failed output.new) result }
{
    match found {
        Ok(Some(value)) => tell_value(run, &value, output),
        Ok(None) => {
            tell_absent(run.rt, run.path, key);
            Status::Missing
        }
        Err(fault) => refuse_reading(run, fault),
    }
}

// Prints a value.
fn tell_value<W: Write>(run: &Run<'_>, value: &Value, output: &mut Output<'_, W>) -> Status
    requires open { IsFalse (writer_failed output.old) }
    requires empty { pending output.old ≡ [] }
    ensures same_writer { SameWriter output.old output.new }
    ensures ends { Ends (Says (value_text run.now.form.is_raw run.now.form.is_hex value.now) Done) (held W.contents output.old) (held W.contents output.new) (writer_failed output.new) result }
{
    let text = value_text(run.rt.alloc(), run.form, value);
    tell_text(run, text, Status::Done, false, output)
}

// What is printed of a value.
fn value_text(alloc: Global, form: Form, value: &Value) -> Result<Vec<u8>, AllocError>
    ensures { IfOk result (λ text. text.items ≡ value_text form.is_raw form.is_hex value.now) }
{
    let mut text = Vec::new(alloc);
    push_shown(&mut text, form.is_hex, value.as_bytes())?;
    if !form.is_raw {
        push_text(&mut text, "\n")?;
    }
    Ok(text)
}

// Prints each key that is there with its value.
fn get_several<W: Write>(run: &Run<'_>, keys: &[Key], output: &mut Output<'_, W>) -> Status
    requires open { IsFalse (writer_failed output.old) }
    requires empty { pending output.old ≡ [] }
    ensures same_writer { SameWriter output.old output.new }
    ensures ends { GetSeveralEnds run.now.form.is_hex keys.now (held W.contents output.old) (held W.contents output.new) (writer_failed output.new) result }
{
    let found = values_at(run, keys);
    end_get_several(run, found, output)
}

// Ends the get of several keys by what the library answers.
fn end_get_several<W: Write>(
    run: &Run<'_>,
    found: Result<Found, StoreError>,
    output: &mut Output<'_, W>,
) -> Status
    requires open { IsFalse (writer_failed output.old) }
    requires empty { pending output.old ≡ [] }
    ensures same_writer { SameWriter output.old output.new }
    ensures ends { Ends (get_several_ended run.now.form.is_hex found) (held W.contents output.old) (held W.contents output.new) (writer_failed output.new) result }
{
    match found {
        Ok(found) => tell_found(run, BETWEEN, &found, false, output),
        Err(fault) => refuse_reading(run, fault),
    }
}
