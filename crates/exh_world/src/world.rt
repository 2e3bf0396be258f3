ghost use Rattle.std.specs.Prelude.{◌≡◌};

use crate::in_flight::InFlight;
use exh_array::Copies;
use exh_keyer::Keyer;
use exh_stores::Pages;
use exh_ward::Ward;
use std::alloc::Global;
use std::marker::Model;

mod changes;
mod copy_steps;
mod failures;
mod new_world;
mod notice_of;
mod place;
mod readers;
mod request_steps;
mod run;
mod ward_steps;
mod world_of_wards;

/// The wards of a file, the copies of its directory, the tables sent between them, and the requests
/// in flight. Whatever happens to it is an `Event`.
#[derive(Drop)]
pub struct World<P: Pages + Drop, K: Keyer> {
    alloc: Global,
    cap: usize,
    ward_bits: u8,
    keyer: K,
    wards: Vec<Ward<P, K>>,
    noticed: Vec<usize>,
    copies: Copies,
    in_flight: InFlight,
}

impl<P: Pages + Drop, K: Keyer> Model for World<P, K> {
    ghost use Rattle.std.specs.Prelude.{◌≡◌, ◌<◌};
    ghost use Rattle.std.specs.Coded.{codes};
    ghost use Rattle.exh_page.specs.KeyMap.{coded_key_map};
    ghost use Rattle.exh_table.specs.Table.{coded_table};
    ghost use Rattle.exh_world.specs.WorldKept.{IsKeptWorld};
    ghost use Rattle.exh_world.specs.World.{WorldState};

    ghost Value = { WorldState K };

    ghost coded = { Prim.hlevel (codes, coded_key_map, coded_table) };

    ghost view = { λ a. record { cap = a.cap; ward_bits = a.ward_bits; keyer = a.keyer; wards = a.wards.items; start = a.copies.start; noticed = a.noticed.items; copies = a.copies.copies; sent = a.copies.sent; in_flight = a.in_flight } };

    ghost invariant = { λ a. IsKeptWorld K.pseudokey_of (record { cap = a.cap; ward_bits = a.ward_bits; keyer = a.keyer; wards = a.wards.items; start = a.copies.start; noticed = a.noticed.items; copies = a.copies.copies; sent = a.copies.sent; in_flight = a.in_flight }) × (a.copies.ward_bits ≡ a.ward_bits) };
}
