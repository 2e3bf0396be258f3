//! A world that is taken apart, and made anew of its wards, which have its notices and its journal. What comes of that is
//! beside what was worked out by hand.

ghost use Rattle.std.specs.Prelude.{◌≡◌, IfOk, OnOk};
ghost use Rattle.exh_keyer.specs.Pseudokey.{any_pseudokey};
ghost use Rattle.exh_keyer.specs.declared.any_keyer.AnyKeyer.TheVariants.{Plain};
ghost use Rattle.exh_world.specs.Sound.{IsSoundWorld};
ghost use Rattle.beside_worlds.specs.Anew.{AreItsWards, HasSettings};

use crate::answers::{Line, PlainScript, ROOM, answer};
use crate::lives::{FIRST, GONE, SECOND, journal, notices};
use exh_fixtures::{Difference, Part, Run, same};
use exh_frames::PlainPages;
use exh_keyer::AnyKeyer;
use exh_notice::Notice;
use exh_page::Config;
use exh_script::Run as Script;
use exh_ward::{JournalEntry, Ward};
use exh_world::World;
use std::alloc::{AllocError, Global};

type PlainWard = Ward<PlainPages, AnyKeyer>;

/// Two worlds, of which the second is made of the wards of the first.
pub(crate) fn run(run: &mut Run) -> Result<(), Difference> {
    let notices = notices()?;
    let journal = journal()?;
    let wards = first_life(run)?;
    have_told(run, &wards, &notices[..3], &journal[..6]);
    let wards = second_life(run, wards)?;
    have_told(run, &wards, &notices, &journal);
    Ok(())
}

// A file of one ward, of pages of two records.
fn settings(copies: u32) -> Config<AnyKeyer>
    ensures cap { result.cap ≡ 2 }
    ensures bits { result.ward_bits ≡ 0 }
    ensures keyer { result.keyer ≡ Plain }
{
    Config {
        cap: 2,
        ward_bits: 0,
        copies,
        keyer: AnyKeyer::Plain,
    }
}

fn new_script(alloc: Global) -> Result<PlainScript, AllocError>
    ensures sound { IfOk result (λ script. IsSoundWorld any_pseudokey script.world) }
    ensures settings { IfOk result (λ script. HasSettings script.world) }
{
    Ok(Script {
        world: World::new(alloc, settings(2))?,
        tells_moves: true,
    })
}

// Who owns a world has few exits, for the prover's sake: each drops it.
fn first_life(run: &mut Run) -> Result<Vec<PlainWard>, AllocError>
    ensures { IfOk result (λ wards. AreItsWards wards.items) }
{
    let script = new_script(run.alloc)?;
    live(run, script, [&FIRST, &[]])
}

// The life of a world that is made of wards.
#[tactic(auto, using(crate::proofs::Settings::wards_taken))]
fn second_life(run: &mut Run, wards: Vec<PlainWard>) -> Result<Vec<PlainWard>, AllocError>
    requires { AreItsWards wards.items }
    ensures { IfOk result (λ wards. AreItsWards wards.items) }
{
    let script = Script {
        world: World::from_wards(run.alloc, settings(3), wards)?,
        tells_moves: true,
    };
    live(run, script, [&GONE, &SECOND])
}

// The wards that a script leaves after two lists of lines.
fn live(
    run: &mut Run,
    script: PlainScript,
    lists: [&[Line]; 2],
) -> Result<Vec<PlainWard>, AllocError>
    requires sound { IsSoundWorld any_pseudokey script.world }
    requires settings { HasSettings script.world }
    ensures { IfOk result (λ wards. AreItsWards wards.items) }
{
    let mut script = script;
    let [first, second] = lists;
    take_lines(run, &mut script, first)?;
    take_lines(run, &mut script, second)?;
    Ok(wards_of(script))
}

// The wards of a script's world.
#[tactic(auto, using(crate::proofs::Settings::wards_given))]
fn wards_of(script: PlainScript) -> Vec<PlainWard>
    requires sound { IsSoundWorld any_pseudokey script.world }
    requires settings { HasSettings script.world }
    ensures { AreItsWards result.items }
{
    let Script { world, .. } = script;
    world.into_wards()
}

// Answers lines, which keep the settings.
fn take_lines(run: &mut Run, script: &mut PlainScript, lines: &[Line]) -> Result<(), AllocError>
    requires sound { IsSoundWorld any_pseudokey script.old.world }
    requires settings { HasSettings script.old.world }
    ensures sound { OnOk result (IsSoundWorld any_pseudokey script.new.world) }
    ensures settings { OnOk result (HasSettings script.new.world) }
{
    let mut text = Vec::with_capacity(run.alloc, ROOM)?;
    'lines: for line in lines {
        answer(run, script, &mut text, line)?;
    }
    Ok(())
}

// The one ward of a world that was taken apart has these notices and this journal.
fn have_told(run: &mut Run, wards: &[PlainWard], notices: &[Notice], journal: &[JournalEntry]) {
    run.tally.check(same(wards.len() == 1, Part::Run));
    for ward in wards {
        for known in 0..=notices.len() {
            let after = ward.notices_after(known as u64);
            run.tally
                .step(same(after == &notices[known..], Part::Taken));
        }
        run.tally.step(same(
            ward.journal().iter().eq(journal.iter().copied()),
            Part::Journal,
        ));
        run.tally.check(has_tables(ward, notices));
    }
}

// A ward began with an empty table, and has the entry of its last notice alone.
fn has_tables(ward: &PlainWard, notices: &[Notice]) -> Result<(), Difference> {
    let is_empty = ward.start().entries().next().is_none();
    let last = notices.last().ok_or(Difference::Apart(Part::Run))?;
    let table = ward.table();
    let has_entry = table.get(last.prefix) == Some(last.entry()) && table.entries().count() == 1;
    same(is_empty && has_entry, Part::Entries)
}
