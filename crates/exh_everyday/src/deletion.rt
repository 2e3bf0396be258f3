//! The run of a del.
ghost use Rattle.std.specs.Prelude.{◌≡◌, [], IfErr, IfOk, IsFalse, OnOk};
ghost use Rattle.exh_stream.specs.Output.{SameWriter, held, pending, writer_failed};
ghost use Rattle.exh_transfer.specs.Ends.{Ends};
ghost use Rattle.exh_transfer.specs.CallFault.{IsWardFault};
ghost use Rattle.exh_everyday.specs.Endings.{del_several_ended};
ghost use Rattle.exh_everyday.specs.Founds.{AreOfKeys, AreTaken, IsTakenOne};
ghost use Rattle.exh_everyday.specs.Runs.{DelEnds, DelSeveralEnds};

use crate::change::{Change, make_change};
use crate::found::Found;
use crate::printing::tell_found;
use exh_page::Key;
use exh_request::Keys;
use exh_stream::Output;
use exh_transfer::{Run, Status, Store, StoreError, input_keys, refuse_change, save};
use std::io::Write;

// What stands between a key and the value that it had.
const BETWEEN: &str = " was ";

/// Takes keys out, several in one commit, and prints the values that they had.
pub(crate) fn delete<W: Write>(run: &Run<'_>, keys: &Keys, output: &mut Output<'_, W>) -> Status
    requires open { IsFalse (writer_failed output.old) }
    requires empty { pending output.old ≡ [] }
    ensures same_writer { SameWriter output.old output.new }
    ensures ends { DelEnds run.now.form.is_hex keys.now (held W.contents output.old) (held W.contents output.new) (writer_failed output.new) result }
{
    match keys {
        Keys::One(key) => make_change(run, &Change::Remove { key: *key }, output),
        Keys::Several(keys) => delete_several(run, keys, output),
        Keys::Input => match input_keys(run) {
            Ok(keys) => delete_several(run, &keys, output),
            Err(status) => status,
        },
    }
}

// Takes several keys out.
fn delete_several<W: Write>(run: &Run<'_>, keys: &[Key], output: &mut Output<'_, W>) -> Status
    requires open { IsFalse (writer_failed output.old) }
    requires empty { pending output.old ≡ [] }
    ensures same_writer { SameWriter output.old output.new }
    ensures ends { DelSeveralEnds run.now.form.is_hex keys.now (held W.contents output.old) (held W.contents output.new) (writer_failed output.new) result }
{
    let taken = taken_out(run, keys);
    end_delete(run, taken, output)
}

// Ends the del of several keys by what the library answers.
fn end_delete<W: Write>(
    run: &Run<'_>,
    taken: Result<Found, StoreError>,
    output: &mut Output<'_, W>,
) -> Status
    requires open { IsFalse (writer_failed output.old) }
    requires empty { pending output.old ≡ [] }
    ensures same_writer { SameWriter output.old output.new }
    ensures ends { Ends (del_several_ended run.now.form.is_hex taken) (held W.contents output.old) (held W.contents output.new) (writer_failed output.new) result }
{
    match taken {
        Ok(found) => tell_found(run, BETWEEN, &found, true, output),
        Err(fault) => refuse_change(run, fault),
    }
}

// What keys had that were taken out. All of them are one commit.
fn taken_out(run: &Run<'_>, keys: &[Key]) -> Result<Found, StoreError>
    ensures { IfOk result (AreOfKeys keys.now) }
{
    let mut store = Store::open_within(run.rt, run.path, run.seconds)?;
    let mut found = Found::new(run.rt.alloc());
    take_out(&mut store, keys, &mut found)?;
    save(run, store)?;
    Ok(found)
}

// Takes keys out of a store, one after the other; what they had is found.
fn take_out(store: &mut Store<'_>, keys: &[Key], found: &mut Found) -> Result<(), StoreError>
    ensures taken { OnOk result (AreTaken store.old.map keys.now found.old found.new store.new.map) }
    ensures refused { IfErr result IsWardFault }
{
    for key in keys {
        take_one(store, key, found)?;
    }
    Ok(())
}

// Takes a key out of a store; what it had is found.
fn take_one(store: &mut Store<'_>, key: &Key, found: &mut Found) -> Result<(), StoreError>
    ensures taken { OnOk result (IsTakenOne store.old.map key.now found.old found.new store.new.map) }
    ensures refused { IfErr result IsWardFault }
{
    let was = store.remove(key.as_bytes())?;
    Ok(found.push(key, was)?)
}
