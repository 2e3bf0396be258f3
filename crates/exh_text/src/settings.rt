use exh_keyer::AnyKeyer;
use exh_page::Config;

/// What the first line of a script says: the settings of its file, and whether a reply's line tells the moves of its
/// request.
#[derive(Clone, Copy)]
pub struct Settings {
    pub file: Config<AnyKeyer>,
    pub tells_moves: bool,
}
