//! Stories of a live file and of one caller of it: of a new file, or of one ward that was written before.
ghost use Rattle.std.specs.Prelude.{◌≡◌, ◌≤◌, IfOk, IfSome};
ghost use Rattle.std.specs.FinMap as map;
ghost use Rattle.exh_keyer.specs.Pseudokey.{plain_pseudokey};
ghost use Rattle.exh_copy.specs.Additions.{AreOf};
ghost use Rattle.exh_live.specs.declared.ledgers.TheConstants.{ANSWER_PARTS, ENTRY_PARTS};
ghost use Rattle.exh_prefix.specs.declared.prefix.TheConstants.{WARD_BITS_LIMIT};

use crate::written_ward::written_ward;
use exh_copy::Start;
use exh_fakes::lists::{
    COURIER, EVEN_HALF, FAR_BEHIND, FOUR_WARDS, KEEPER, LATE_COURIER, LONG, MERGED_COURIER,
    ODD_HALF, OPENED_COURIER, REFUSED_COURIER, SEVEN_SPLITS, SIXTEEN_WARDS, THREE_KEYS,
    THREE_KEYS_EACH, TOLD_COPY, TWO_KEYS_EACH, WORN_KEEPER, WRONG_HINT,
};
use exh_fakes::{
    LiveStep, PlainFile, Reader, Writer, close_settled, new_file, next_caller, one_ward_file,
    take_steps,
};
use exh_fixtures::{Difference, Run, again, prefix};
use exh_keyer::PlainKeyer;
use exh_live::{ANSWER_PARTS, ENTRY_PARTS, Identity};
use exh_notice::{Entry, Kind};
use exh_table::Table;
use std::alloc::{AllocError, Global};
use std::sync::Wait;
use std::sync::ledger::Blank;

/// The stories.
#[derive(Clone, Copy)]
pub(crate) enum OneCaller {
    /// A call begins at the page that a copy names, which is told of a split, of nothing, or of a page that
    /// isn't there.
    ToldCopy,
    /// A copy is told of a split, and then of the merge that a keeper makes.
    Courier,
    /// Pages that have grown empty are merged, each page once a round.
    Keeper,
    /// Of sixteen wards four get keys: a copy is told of their splits, and then of the merges that a keeper
    /// makes in each.
    FourWards,
    /// Sixteen wards whose pages have one record get two keys each: a copy is told of a split of each.
    SixteenWards,
    /// A courier makes 2,000 rounds and a caller 20,001 calls; then it looks at a copy that is closed.
    Long,
    /// A courier makes a round after hundreds of changes.
    FarBehind,
    /// Two pages are merged where they have together at most half as many records as a page may, which is
    /// an even number, 4.
    EvenHalf,
    /// The same of an odd number, 5: half is rounded down.
    OddHalf,
    /// A courier of an opened file begins after the changes that the file's table tells of.
    OpenedCourier,
    /// A courier of an opened file whose table tells of a merge begins after it.
    MergedCourier,
    /// A courier to a copy whose table tells of a split and of its merge begins after both.
    LateCourier,
    /// At the greatest number pages can't be merged any more: a keeper passes over them.
    WornKeeper,
    /// A copy names a page that isn't there, in a file without a key.
    WrongHint,
    /// One call takes seven splits.
    SevenSplits,
    /// A courier is refused ten times, where growths are refused on asking.
    RefusedCourier,
}

impl OneCaller {
    // How many records a page may have.
    fn cap(self) -> usize
        ensures some { 1 ≤ result }
        ensures most { result ≤ 5 }
    {
        match self {
            OneCaller::EvenHalf => 4,
            OneCaller::OddHalf => 5,
            OneCaller::SixteenWards => 1,
            _ => 2,
        }
    }

    /// By how many leading bits the file is cut into wards.
    pub(crate) fn ward_bits(self) -> u8
        ensures { result ≤ WARD_BITS_LIMIT }
    {
        match self {
            OneCaller::FourWards | OneCaller::SixteenWards => 4,
            _ => 0,
        }
    }

    // Of a file that was written before, which change the last one of its first page was: a split where that is
    // odd, else a merge.
    fn changes(self) -> Option<u32>
        ensures { IfSome result (λ changes. 1 ≤ changes) }
    {
        match self {
            OneCaller::OpenedCourier => Some(3),
            OneCaller::MergedCourier => Some(4),
            OneCaller::WornKeeper => Some(u32::MAX),
            _ => None,
        }
    }

    // What the start table has at the ward's prefix.
    fn entry(self) -> Option<Entry> {
        let (number, kind) = match self {
            OneCaller::LateCourier => (2, Kind::Merge),
            OneCaller::MergedCourier => (4, Kind::Merge),
            _ => (self.changes()?, Kind::Split { right: 1 }),
        };
        Some(Entry { number, kind })
    }

    // How many calls are answered.
    fn answers(self) -> u128 {
        match self {
            OneCaller::WrongHint => 1,
            OneCaller::SevenSplits => 4,
            OneCaller::RefusedCourier => 5,
            OneCaller::ToldCopy | OneCaller::Courier | OneCaller::MergedCourier => 6,
            OneCaller::OpenedCourier | OneCaller::LateCourier => 7,
            OneCaller::EvenHalf | OneCaller::WornKeeper => 9,
            OneCaller::OddHalf => 11,
            OneCaller::Keeper => 12,
            OneCaller::FourWards => 24,
            OneCaller::SixteenWards => 48,
            OneCaller::FarBehind => 1_716,
            OneCaller::Long => 20_007,
        }
    }

    // Its steps, in two lists that are taken one after the other.
    fn steps(self) -> [&'static [LiveStep]; 2] {
        match self {
            OneCaller::ToldCopy => [&THREE_KEYS, &TOLD_COPY],
            OneCaller::Courier => [&THREE_KEYS, &COURIER],
            OneCaller::Keeper => [&THREE_KEYS, &KEEPER],
            OneCaller::FourWards => [&THREE_KEYS_EACH, &FOUR_WARDS],
            OneCaller::Long => [&THREE_KEYS, &LONG],
            other => other.further_steps(),
        }
    }

    fn further_steps(self) -> [&'static [LiveStep]; 2] {
        match self {
            OneCaller::FarBehind => [&THREE_KEYS, &FAR_BEHIND],
            OneCaller::SixteenWards => [&TWO_KEYS_EACH, &SIXTEEN_WARDS],
            OneCaller::EvenHalf => [&EVEN_HALF, &[]],
            OneCaller::OddHalf => [&ODD_HALF, &[]],
            OneCaller::OpenedCourier => [&OPENED_COURIER, &[]],
            OneCaller::LateCourier => [&THREE_KEYS, &LATE_COURIER],
            OneCaller::MergedCourier => [&MERGED_COURIER, &[]],
            OneCaller::WornKeeper => [&WORN_KEEPER, &[]],
            OneCaller::WrongHint => [&WRONG_HINT, &[]],
            OneCaller::SevenSplits => [&SEVEN_SPLITS, &[]],
            OneCaller::RefusedCourier => [&THREE_KEYS, &REFUSED_COURIER],
            _ => [&[], &[]],
        }
    }
}

/// Plays a story over 2^`ward_bits` wards, with a copy that is told what their start table has.
pub(crate) fn run<R: Wait, F: Identity, S: Start>(
    rt: &R,
    run: &mut Run,
    story: OneCaller,
    ward_bits: u8,
    writer: &mut Writer<S>,
    copies: &mut Vec<Reader<S>>,
    answers: Blank,
    entries: Blank,
) -> Result<(), Difference>
    requires bits { ward_bits ≤ WARD_BITS_LIMIT }
    requires copy { S.ward_bits ≡ ward_bits }
    requires table { S.table ≡ map.empty }
    requires answers { (answers.name ≡ F.answers) × (answers.parts ≡ ANSWER_PARTS) }
    requires entries { (entries.name ≡ F.entries) × (entries.parts ≡ ENTRY_PARTS) }
    requires hashed { F.hashing ≡ plain_pseudokey }
    requires own { AreOf writer.old.name copies.old.items }
{
    let mut seats = Vec::new(run.alloc);
    seats.reserve(1)?;
    let start = start_table(run.alloc, story.entry())?;
    tell_table(rt, writer, &start)?;
    let mut file = first_file::<F>(run.alloc, story, ward_bits, answers, entries)?;
    let mut caller = next_caller(&mut file, copies)?;
    let taken = take_steps(
        rt,
        run,
        &file,
        ward_bits,
        &mut caller,
        writer,
        &start,
        story.steps(),
    );
    run.tally.check(taken);
    seats.push_reserved(caller.seat);
    close_settled(run, ward_bits, file, seats, story.answers())?;
    Ok(())
}

// The file of a story.
fn first_file<F: Identity>(
    alloc: Global,
    story: OneCaller,
    ward_bits: u8,
    answers: Blank,
    entries: Blank,
) -> Result<PlainFile<F>, Difference>
    requires bits { ward_bits ≤ WARD_BITS_LIMIT }
    requires answers { (answers.name ≡ F.answers) × (answers.parts ≡ ANSWER_PARTS) }
    requires entries { (entries.name ≡ F.entries) × (entries.parts ≡ ENTRY_PARTS) }
    requires hashed { F.hashing ≡ plain_pseudokey }
    ensures { IfOk result (λ file. file.ward_bits ≡ ward_bits) }
{
    let keyer = PlainKeyer;
    match story.changes() {
        Some(changes) if ward_bits == 0 => {
            let ward = written_ward(alloc, keyer, changes)?;
            Ok(one_ward_file(alloc, keyer, ward, answers, entries)?)
        }
        _ => Ok(new_file(alloc, story.cap(), ward_bits, answers, entries)?),
    }
}

// The table with this entry at the ward's prefix.
fn start_table(alloc: Global, entry: Option<Entry>) -> Result<Table, Difference> {
    let mut table = Table::new(alloc);
    if let Some(entry) = entry {
        let own = prefix("")?;
        again!(Err(AllocError) => table.put_greater(own, entry))?;
    }
    Ok(table)
}

// Tells a copy what a table has.
fn tell_table<R: Wait, S: Start>(
    rt: &R,
    writer: &mut Writer<S>,
    table: &Table,
) -> Result<(), Difference>
    ensures { writer.new.name ≡ writer.old.name }
{
    again!(Err(AllocError) => writer.combine(table))?;
    again!(Err(AllocError) => writer.publish(rt))?;
    Ok(())
}
