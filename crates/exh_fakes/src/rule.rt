//! What a gate does.

use crate::conductor::Count;
use exh_live::{COURIER_CLIENT, KEEPER_CLIENT};

/// Whom a rule is for.
#[derive(Clone, Copy)]
pub enum Who {
    Client(u32),
    Keepers,
    Couriers,
    /// Keepers and couriers.
    Company,
    Anybody,
}

impl Who {
    fn is_it(self, client: u32) -> bool {
        match self {
            Who::Client(number) => client == number,
            Who::Keepers => (KEEPER_CLIENT..COURIER_CLIENT).contains(&client),
            Who::Couriers => client >= COURIER_CLIENT,
            Who::Company => client >= KEEPER_CLIENT,
            Who::Anybody => true,
        }
    }
}

/// What is done then.
#[derive(Clone, Copy)]
pub enum Then {
    Raise(Count),
    /// Waits for so many: no, where that takes too long.
    Wait(Count, u64),
    /// Says no.
    No,
}

/// What a gate does to somebody at a turn, or at each.
#[derive(Clone, Copy)]
pub struct Rule(pub Who, pub Option<u32>, pub Then);

impl Rule {
    /// Whether it is for this client at this turn.
    pub fn is_for(&self, client: u32, turn: u32) -> bool {
        let is_turn = match self.1 {
            None => true,
            Some(own) => own == turn,
        };
        is_turn && self.0.is_it(client)
    }
}
