//! Answers lines by the calls of a store: each line of standard input asks for one call, and gets one line of standard
//! output, at once. The README has the lines and their answers.
#![tactic(auto)]

mod answer;
mod asked;
mod desk;
mod line_fault;
mod opening;
mod pair_call;
mod replies;
mod words;

use crate::answer::push_answer;
use crate::desk::Desk;
use std::io;
use std::io::Write;

fn main(rt: HostRuntime) -> io::Result<()> {
    let mut desk = Desk::new(&rt);
    let mut text = Vec::new(rt.alloc());
    for line in rt.lines(rt.alloc()) {
        let line = line?;
        text.clear();
        push_answer(rt.alloc(), &mut text, &desk.answer(line.as_bytes()))?;
        io::writer(&rt).write_all(&text)?;
    }
    Ok(())
}
