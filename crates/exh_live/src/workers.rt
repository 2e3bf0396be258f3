//! The workers of a storm before it begins.
ghost use Rattle.std.specs.Prelude.{◌≡◌, ◌+◌, ◌<◌, ◌≤◌, [], vec_len, OnOk, IfOk};
ghost use Rattle.std.specs.FinMap as map;
ghost use Rattle.exh_prefix.specs.declared.prefix.TheConstants.{WARD_BITS_LIMIT};
ghost use Rattle.exh_live.specs.CursorPlaceLemmas.{AreFirst};
ghost use Rattle.exh_page.specs.StormConfig.{IsStormConfig};

use crate::file::StormFile;
use crate::{Caller, Courier, Identity, OpenCopy};
use exh_copy::{CopyReader, NewCopyFault, Start, new_copy};
use exh_page::StormConfig;
use exh_stores::Pages;
use exh_table::Table;
use std::alloc::{AllocError, Global};
use std::sync::Wait;

/// The callers of a storm by their numbers, and a courier to each copy of the directory.
#[derive(Drop)]
pub struct Workers<'a, R: Wait, F: Identity, S: Start> {
    pub callers: Vec<Caller<F, S>>,
    pub couriers: Vec<Courier<'a, R, S>>,
}

// Where the callers look: for each copy its readers.
type Readers<S> = Vec<Vec<CopyReader<S>>>;

/// The workers of a storm over a new file that has given no seat. An `AllocError` where memory is refused, or
/// `left_right` gives no reader of a copy for another cause.
pub fn new_workers<'a, R: Wait, P: Pages + Drop, F: Identity, S: Start>(
    rt: &'a R,
    alloc: Global,
    config: &StormConfig,
    file: &mut StormFile<P, F>,
) -> Result<Workers<'a, R, F, S>, AllocError>
    requires config { IsStormConfig config.now }
    requires bits { S.ward_bits ≡ config.now.ward_bits }
    requires table { S.table ≡ map.empty }
    requires new { file.old.seats ≡ 0 }
    ensures bits { file.new.ward_bits ≡ file.old.ward_bits }
    ensures seats { OnOk result (file.new.seats ≡ config.now.callers) }
    ensures callers { IfOk result (λ workers. AreFirst (λ place caller. caller.seat.client ≡ place + 1) config.now.callers workers.callers.items) }
    ensures couriers { IfOk result (λ workers. AreFirst (λ place courier. (courier.number ≡ place + 1) × (courier.copy.writer.published ≡ []) × (courier.copy.writer.pending ≡ [])) config.now.copies workers.couriers.items) }
{
    let mut couriers = Vec::new(alloc);
    let mut readers = Vec::new(alloc);
    for at in 0..config.copies {
        let looks = callers_of(config, at);
        let (courier, copy) = new_courier(rt, alloc, config.ward_bits, at + 1, looks)?;
        couriers.push(courier)?;
        readers.push(copy)?;
    }
    let callers = new_callers(alloc, config.callers, file, readers)?;
    Ok(Workers { callers, couriers })
}

// How many callers use the copy at a place: caller i uses that at the place (i - 1) mod copies.
fn callers_of(config: &StormConfig, at: u8) -> u16
    requires config { IsStormConfig config.now }
    requires within { at < config.now.copies }
{
    u16::from((config.callers + config.copies - 1 - at) / config.copies)
}

// The courier to a new copy of this number that has so many readers, and these.
fn new_courier<'a, R: Wait, S: Start>(
    rt: &'a R,
    alloc: Global,
    ward_bits: u8,
    number: u8,
    readers: u16,
) -> Result<(Courier<'a, R, S>, Vec<CopyReader<S>>), AllocError>
    requires limit { ward_bits ≤ WARD_BITS_LIMIT }
    requires bits { S.ward_bits ≡ ward_bits }
    requires table { S.table ≡ map.empty }
    ensures made { IfOk result (λ made. (made.0.number ≡ number) × (made.0.copy.writer.published ≡ []) × (made.0.copy.writer.pending ≡ [])) }
{
    match new_copy::<S>(alloc, ward_bits, &Table::new(alloc), readers) {
        Ok((writer, readers)) => {
            let copy = OpenCopy::new(rt, writer);
            Ok((Courier { number, copy }, readers))
        }
        Err(NewCopyFault::Memory) => Err(AllocError),
        Err(NewCopyFault::NoPlace(writer)) => {
            drop(OpenCopy::new(rt, writer));
            Err(AllocError)
        }
    }
}

// So many callers, each with a seat of the file and a reader of its copy.
fn new_callers<P: Pages + Drop, F: Identity, S: Start>(
    alloc: Global,
    count: u8,
    file: &mut StormFile<P, F>,
    readers: Readers<S>,
) -> Result<Vec<Caller<F, S>>, AllocError>
    requires some { 0 < vec_len readers }
    requires new { file.old.seats ≡ 0 }
    ensures bits { file.new.ward_bits ≡ file.old.ward_bits }
    ensures seats { OnOk result (file.new.seats ≡ count) }
    ensures callers { IfOk result (λ callers. AreFirst (λ place caller. caller.seat.client ≡ place + 1) count callers.items) }
{
    let mut readers = readers;
    let mut callers = Vec::new(alloc);
    for at in 0..count {
        let copy = next_reader(&mut readers, at)?;
        match file.seat() {
            Ok(seat) => callers.push(Caller { seat, copy })?,
            Err(_) => unreachable!(),
        }
    }
    Ok(callers)
}

// A reader of the copy of the caller at a place. There is one: `callers_of` has counted the caller.
fn next_reader<S: Start>(readers: &mut Readers<S>, at: u8) -> Result<CopyReader<S>, AllocError>
    requires { 0 < vec_len readers.old }
    ensures left { vec_len readers.new ≡ vec_len readers.old }
{
    let copy = usize::from(at) % readers.len();
    readers[copy].pop().ok_or(AllocError)
}
