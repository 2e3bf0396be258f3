//! The everyday commands, each with its run.
ghost use Rattle.std.specs.Prelude.{◌≡◌, [], IsFalse};
ghost use Rattle.exh_stream.specs.Output.{SameWriter, held, pending, writer_failed};
ghost use Rattle.exh_everyday.specs.Runs.{PutEnds, RunEnds, change_of_put};

use crate::backup::back_up;
use crate::change::{Change, make_change};
use crate::creation::create;
use crate::deletion::delete;
use crate::get::get;
use exh_page::{Key, Value};
use exh_request::{Action, NewValue, PutWhen, Request};
use exh_stream::Output;
use exh_transfer::{Reason, Run, Status, compact, export, import, input_value, salvage, stats};
use std::io::Write;

/// Does what a request asks for: the answer goes to an output that holds nothing back, and what is refused, or absent, is said
/// on standard error; where the output's writer has failed, with its reason. The status is that with which the program ends.
pub fn perform<W: Write>(
    rt: &HostRuntime,
    request: &Request<'_>,
    reason: &Reason,
    output: &mut Output<'_, W>,
) -> Status
    requires open { IsFalse (writer_failed output.old) }
    requires empty { pending output.old ≡ [] }
    ensures same_writer { SameWriter output.old output.new }
    ensures ends { RunEnds request.now.form request.now.action (held W.contents output.old) (held W.contents output.new) (writer_failed output.new) result }
{
    let run = Run {
        rt,
        path: request.path,
        seconds: request.wait,
        form: request.form,
        reason,
    };
    run_action(&run, &request.action, output)
}

// Runs an action, whose answer goes to an output.
fn run_action<W: Write>(run: &Run<'_>, action: &Action<'_>, output: &mut Output<'_, W>) -> Status
    requires open { IsFalse (writer_failed output.old) }
    requires empty { pending output.old ≡ [] }
    ensures same_writer { SameWriter output.old output.new }
    ensures ends { RunEnds run.now.form action.now (held W.contents output.old) (held W.contents output.new) (writer_failed output.new) result }
{
    match action {
        Action::Create(settings) => create(run, *settings),
        Action::Get(keys) => get(run, keys, output),
        Action::Put { key, value, when } => put(run, key, value, *when, output),
        Action::Del(keys) => delete(run, keys, output),
        Action::Swap { key, old, new } => {
            let swap = Change::Swap {
                key: *key,
                old: *old,
                new: *new,
            };
            make_change(run, &swap, output)
        }
        Action::Backup { new } => back_up(run, new),
        Action::Import { words, texts } => import(run, words, texts, output),
        Action::Export { format, is_bare } => export(run, *format, *is_bare, output),
        Action::Compact(given) => compact(run, given, output),
        Action::Stats { is_json } => stats(run, *is_json, output),
        Action::Salvage { format, is_bare } => salvage(run, *format, *is_bare, output),
    }
}

// Gives a key a value, that of a word or of standard input.
fn put<W: Write>(
    run: &Run<'_>,
    key: &Key,
    value: &NewValue,
    when: PutWhen,
    output: &mut Output<'_, W>,
) -> Status
    requires open { IsFalse (writer_failed output.old) }
    requires empty { pending output.old ≡ [] }
    ensures same_writer { SameWriter output.old output.new }
    ensures ends { PutEnds run.now.form.is_hex key.now value.now when (held W.contents output.old) (held W.contents output.new) (writer_failed output.new) result }
{
    match value {
        NewValue::Word(value) => make_change(run, &put_of(*key, *value, when), output),
        NewValue::Input => match input_value(run) {
            Ok(value) => make_change(run, &put_of(*key, value, when), output),
            Err(status) => status,
        },
    }
}

// The change that a put asks for.
fn put_of(key: Key, value: Value, when: PutWhen) -> Change
    ensures { result ≡ change_of_put key value when }
{
    match when {
        PutWhen::Always => Change::Put { key, value },
        PutWhen::New => Change::PutNew { key, value },
        PutWhen::There => Change::Replace { key, value },
    }
}
