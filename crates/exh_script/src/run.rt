use exh_keyer::AnyKeyer;
use exh_stores::Pages;
use exh_world::World;

/// A run of a script: the world that its lines work on, over whatever store of pages, and whether a reply's line tells
/// the moves of its request.
#[derive(Drop)]
pub struct Run<P: Pages + Drop> {
    pub world: World<P, AnyKeyer>,
    pub tells_moves: bool,
}
