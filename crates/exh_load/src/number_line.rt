//! A line of a word and a number.
ghost use Rattle.std.specs.Prelude.{◌≡◌, ◌≢◌, ◌↔◌, IfErr, IfOk, IsErrOf, IsFalse, IsTrue, OnErr, OnOk};
ghost use Rattle.std.specs.Option.{option_map};
ghost use Rattle.exh_stream.specs.Output.{SameWriter, Takes, TakesBeginning, writer_failed};
ghost use Rattle.exh_load.specs.Load.{TakesFront, number_line, refused};
ghost use Rattle.exh_load.specs.Loading.{loading_in};

use crate::LoadFault;
use exh_file::Opened;
use exh_stores::Pages;
use exh_stream::Output;
use exh_text::{push_number, push_text};
use std::alloc::Global;
use std::io::Write;

// Prints the number of a refusal alone.
pub(crate) fn refuse<P: Pages + Drop, W: Write>(
    alloc: Global,
    output: &mut Output<'_, W>,
    number: u32,
) -> Result<Option<Opened<P>>, LoadFault>
    requires { IsFalse (writer_failed output.old) }
    ensures same_writer { SameWriter output.old output.new }
    ensures text { OnOk result (Takes W.contents output.old output.new (refused number).printed) }
    ensures left { IfOk result (λ file. option_map loading_in file ≡ (refused number).left) }
    ensures err { OnErr result (TakesBeginning W.contents output.old output.new (refused number).printed) }
    ensures front { IfErr result (λ fault. fault ≢ LoadFault.Write → TakesFront W.contents output.old output.new (refused number).printed) }
    ensures page { IsErrOf result LoadFault.Page → ⊥ }
    ensures failed { IsErrOf result LoadFault.Write ↔ IsTrue (writer_failed output.new) }
{
    print_number(alloc, output, "refused ", u64::from(number))?;
    Ok(None)
}

// Prints a line of a word and a number.
pub(crate) fn print_number<W: Write>(
    alloc: Global,
    output: &mut Output<'_, W>,
    word: &str,
    number: u64,
) -> Result<(), LoadFault>
    requires { IsFalse (writer_failed output.old) }
    ensures same_writer { SameWriter output.old output.new }
    ensures text { OnOk result (Takes W.contents output.old output.new (number_line word.now number)) }
    ensures err { OnErr result (TakesBeginning W.contents output.old output.new (number_line word.now number)) }
    ensures front { IfErr result (λ fault. fault ≢ LoadFault.Write → TakesFront W.contents output.old output.new (number_line word.now number)) }
    ensures page { IsErrOf result LoadFault.Page → ⊥ }
    ensures failed { IsErrOf result LoadFault.Write ↔ IsTrue (writer_failed output.new) }
{
    let mut text = Vec::new(alloc);
    push_text(&mut text, word)?;
    push_number(&mut text, number)?;
    push_text(&mut text, "\n")?;
    output.push(&text)?;
    Ok(())
}
