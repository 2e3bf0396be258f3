//! Rounds of the keepers and couriers of a live file.
ghost use Rattle.std.specs.Prelude.{◌≡◌, ◌^◌, ◌<◌, length};

use crate::caller::File;
use exh_copy::{CopyWriter, Start};
use exh_fixtures::{Difference, Part, again, same};
use exh_live::{Cursors, Identity};
use exh_stores::Pages;
use exh_ward::WardFault;
use std::alloc::AllocError;
use std::marker::Brand;
use std::sync::Wait;

/// Who tells a copy of the directory, which is by itself that of a new file of one ward.
pub type Writer<S = Brand> = CopyWriter<S>;

// These make a round once.
fn keep_once<R: Wait, P: Pages + Drop, F: Identity>(
    rt: &R,
    file: &File<P, F>,
    ward: u8,
) -> Result<u32, WardFault>
    requires { ward < 2 ^ file.now.ward_bits }
{
    file.keeper_round(rt, ward)
}

fn carry_once<R: Wait, P: Pages + Drop, F: Identity, S: Start>(
    rt: &R,
    file: &File<P, F>,
    writer: &mut CopyWriter<S>,
    cursors: &mut Cursors,
) -> Result<u64, AllocError>
    requires { length cursors.old ≡ 2 ^ file.now.ward_bits }
    ensures cursors { length cursors.new ≡ length cursors.old }
    ensures name { writer.new.name ≡ writer.old.name }
{
    file.courier_round(rt, writer, cursors)
}

/// Makes a round of a keeper over a ward, once more where memory was refused, and answers how many
/// merges the last round made. A `Difference` where it was refused.
pub fn keep<R: Wait, P: Pages + Drop, F: Identity>(
    rt: &R,
    file: &File<P, F>,
    ward: u8,
) -> Result<u32, Difference>
    requires { ward < 2 ^ file.now.ward_bits }
{
    match again!(Err(WardFault::Memory) => keep_once(rt, file, ward)) {
        Ok(merges) => Ok(merges),
        Err(fault) => Err(Difference::Refused(fault.number())),
    }
}

/// Makes a round of a keeper over a ward, as `keep`, that makes so many merges.
pub fn is_kept<R: Wait, P: Pages + Drop, F: Identity>(
    rt: &R,
    file: &File<P, F>,
    ward: u8,
    merges: u32,
) -> Result<(), Difference>
    requires { ward < 2 ^ file.now.ward_bits }
{
    same(keep(rt, file, ward)? == merges, Part::Change)
}

/// Makes a round of a courier, once more where memory was refused, that takes so many notices. The
/// courier has as many cursors then as before, and the copy its name.
pub fn is_carried<R: Wait, P: Pages + Drop, F: Identity, S: Start>(
    rt: &R,
    file: &File<P, F>,
    writer: &mut CopyWriter<S>,
    cursors: &mut Cursors,
    notices: u64,
) -> Result<(), Difference>
    requires { length cursors.old ≡ 2 ^ file.now.ward_bits }
    ensures cursors { length cursors.new ≡ length cursors.old }
    ensures name { writer.new.name ≡ writer.old.name }
{
    let carried = again!(Err(AllocError) => carry_once(rt, file, writer, cursors));
    same(carried? == notices, Part::Taken)
}
