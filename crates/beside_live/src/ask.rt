//! Calls that are asked one after another.

use exh_fakes::{Caller, File, is_told};
use exh_fixtures::{Difference, Run, Said, told_reply};
use exh_frames::Pages;
use exh_live::{Identity, OpenGate};
use std::sync::Wait;

/// Asks these, each of which is a step. The first reply is taken for a wrong one where that is due.
pub(crate) fn ask_all<R: Wait, P: Pages + Drop, F: Identity>(
    rt: &R,
    run: &mut Run,
    file: &File<P, F>,
    caller: &mut Caller<F>,
    all: &[Said<'_>],
) {
    for said in all {
        let told = ask(rt, run, file, caller, said);
        run.tally.step(told);
    }
}

fn ask<R: Wait, P: Pages + Drop, F: Identity>(
    rt: &R,
    run: &mut Run,
    file: &File<P, F>,
    caller: &mut Caller<F>,
    said: &Said<'_>,
) -> Result<(), Difference> {
    let reply = told_reply(&mut run.lie, said.reply()?);
    is_told(rt, file, caller, said.asked(), &OpenGate, reply)
}
