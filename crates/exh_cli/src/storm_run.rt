//! The run of a storm to the program's end: the line that tells what came of it, and the status.
ghost use Rattle.std.specs.Prelude.{◌≡◌, ◌+◌, ◌≤◌, ◌++◌, ◌∷◌, [], length, decimal, IsFalse};
ghost use Rattle.exh_stream.specs.Output.{SameWriter, held, pending, writer_failed};
ghost use Rattle.exh_cli.specs.StormRun.{EndsStorm, storm_line, storm_status};

use arrayvec::ArrayVec;
use exh_everyday::{Status, print_line};
use exh_live::StormFault;
use exh_stream::Output;
use itoa::Buffer;
use std::io::Write;

// The most bytes of a line: a word, a number of 64 bits, and the byte that ends the line.
const LINE_LEN: usize = 64;

type Line = ArrayVec<u8, LINE_LEN>;

/// Tells what came of a storm, `settled` and its answers or `refused` and the refusal's number, on an output that holds
/// nothing back and whose writer hasn't failed, and says with which status the program ends. It takes no memory. A fault
/// of the writer is a refusal too.
pub(crate) fn tell_storm<W: Write>(
    outcome: Result<u64, StormFault>,
    output: &mut Output<'_, W>,
) -> Status
    requires open { IsFalse (writer_failed output.old) }
    requires empty { pending output.old ≡ [] }
    ensures same_writer { SameWriter output.old output.new }
    ensures told { EndsStorm (held W.contents output.old) (held W.contents output.new) (writer_failed output.new) outcome result }
{
    let line = storm_line(outcome);
    match print_line(output, line.as_slice()) {
        Ok(()) => storm_status(outcome),
        Err(_) => Status::Refused,
    }
}

fn storm_status(outcome: Result<u64, StormFault>) -> Status
    ensures { result ≡ storm_status outcome }
{
    match outcome {
        Ok(_) => Status::Done,
        Err(_) => Status::Refused,
    }
}

fn storm_line(outcome: Result<u64, StormFault>) -> Line
    ensures { result.items ≡ storm_line outcome }
{
    let mut line = ArrayVec::new();
    match outcome {
        Ok(answers) => put_words(&mut line, b"settled ", answers),
        Err(fault) => put_words(&mut line, b"refused ", u64::from(fault.number())),
    }
    line
}

// Adds a word with the space behind it, a number, and the byte that ends the line.
fn put_words(line: &mut Line, word: &[u8], number: u64)
    requires { length line.old.items + length word.now ≤ 8 }
    ensures { line.new.items ≡ line.old.items ++ (word.now ++ (decimal number ++ 10 ∷ [])) }
{
    put(line, word);
    put(line, Buffer::new().format(number).as_bytes());
    put(line, b"\n");
}

// Adds bytes.
fn put(line: &mut Line, bytes: &[u8])
    requires { length line.old.items + length bytes.now ≤ LINE_LEN }
    ensures { line.new.items ≡ line.old.items ++ bytes.now }
{
    line.try_extend_from_slice(bytes).unwrap();
}
