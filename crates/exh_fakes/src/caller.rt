//! Callers of a live file.
ghost use Rattle.std.specs.Prelude.{◌≡◌, ℕ, IfOk};
ghost use Rattle.exh_copy.specs.Additions.{AreOf};

use exh_calls::{Call, Reply};
use exh_copy::{CopyReader, Start};
use exh_fixtures::{Asked, Difference, Part, again, same};
use exh_keyer::PlainKeyer;
use exh_live::{Identity, LiveFile, Seat};
use exh_stores::{Pages, PlainPages};
use exh_walk::{AskFault, Gate};
use std::alloc::{AllocError, Global};
use std::marker::Brand;
use std::sync::Wait;

/// A live file of keyer plain.
pub type File<P, F> = LiveFile<P, PlainKeyer, F>;

/// One whose pages are in memory.
pub type PlainFile<F> = File<PlainPages, F>;

/// Who looks at a copy of the directory, which is by itself that of a new file of one ward.
pub type Reader<S = Brand> = CopyReader<S>;

/// A caller: its seat, and the copy of the directory that it looks at.
#[derive(Drop)]
pub struct Caller<F: Identity, S: Start = Brand> {
    pub seat: Seat<F>,
    pub copy: CopyReader<S>,
}

/// The next caller of a file, with one of these readers.
pub fn next_caller<P: Pages + Drop, F: Identity, S: Start>(
    file: &mut File<P, F>,
    copies: &mut Vec<CopyReader<S>>,
) -> Result<Caller<F, S>, Difference>
    ensures bits { file.new.ward_bits ≡ file.old.ward_bits }
    ensures copy { IfOk result (λ caller. (name : ℕ) → AreOf name copies.old.items → caller.copy.name ≡ name) }
{
    let Some(copy) = copies.pop() else {
        return Err(Difference::Apart(Part::Run));
    };
    match file.seat() {
        Ok(seat) => Ok(Caller { seat, copy }),
        Err(_) => Err(Difference::Apart(Part::Run)),
    }
}

/// The next two callers of a file, with two of these readers.
pub fn two_callers<P: Pages + Drop, F: Identity, S: Start>(
    file: &mut File<P, F>,
    copies: &mut Vec<CopyReader<S>>,
) -> Result<(Caller<F, S>, Caller<F, S>), Difference> {
    let first = next_caller(file, copies)?;
    match next_caller(file, copies) {
        Ok(second) => Ok((first, second)),
        Err(difference) => Err(difference),
    }
}

/// The seats of two callers, in this order.
pub fn two_seats<F: Identity, S: Start>(
    alloc: Global,
    first: Caller<F, S>,
    second: Caller<F, S>,
) -> Result<Vec<Seat<F>>, AllocError> {
    let mut seats = Vec::new(alloc);
    seats.push(first.seat)?;
    seats.push(second.seat)?;
    Ok(seats)
}

// This asks once, and needs nothing of the file: what calls it is proved with less.
fn ask_once<R: Wait, P: Pages + Drop, F: Identity, S: Start, G: Gate>(
    rt: &R,
    file: &File<P, F>,
    caller: &mut Caller<F, S>,
    call: &Call,
    gate: &G,
) -> Result<Reply, AskFault>
    ensures { caller.new.copy.name ≡ caller.old.copy.name }
{
    file.ask(rt, &mut caller.seat, &mut caller.copy, call, gate)
}

/// Asks a call, once more where memory was refused. The caller looks at the same copy then, here and below.
pub fn ask<R: Wait, P: Pages + Drop, F: Identity, S: Start, G: Gate>(
    rt: &R,
    file: &File<P, F>,
    caller: &mut Caller<F, S>,
    call: &Call,
    gate: &G,
) -> Result<Reply, AskFault>
    ensures { caller.new.copy.name ≡ caller.old.copy.name }
{
    again!(Err(AskFault::Memory) => ask_once(rt, file, caller, call, gate))
}

/// Asks a call, to which this is the reply.
pub fn is_told<R: Wait, P: Pages + Drop, F: Identity, S: Start, G: Gate>(
    rt: &R,
    file: &File<P, F>,
    caller: &mut Caller<F, S>,
    asked: Asked<'_>,
    gate: &G,
    reply: Reply,
) -> Result<(), Difference>
    ensures { caller.new.copy.name ≡ caller.old.copy.name }
{
    let call = asked.call()?;
    match ask(rt, file, caller, &call, gate) {
        Ok(told) => same(told == reply, Part::Reply),
        Err(fault) => Err(Difference::Refused(fault.number())),
    }
}

/// Asks a call at which the gate holds the caller.
pub fn is_held<R: Wait, P: Pages + Drop, F: Identity, S: Start, G: Gate>(
    rt: &R,
    file: &File<P, F>,
    caller: &mut Caller<F, S>,
    asked: Asked<'_>,
    gate: &G,
) -> Result<(), Difference>
    ensures { caller.new.copy.name ≡ caller.old.copy.name }
{
    let call = asked.call()?;
    let answer = ask(rt, file, caller, &call, gate);
    same(answer == Err(AskFault::Held), Part::Walk)
}
