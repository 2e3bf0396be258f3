use exh_keyer::AnyKeyer;
use exh_page::FileSettings;

/// The settings of a page file: a page holds at most `cap` records, 1 to 16; the file is cut into 2^`ward_bits` parts, 0 to
/// 4; and the keyer that spreads keys over pages.
pub type Settings = FileSettings<AnyKeyer>;

/// The settings that fit most files: full pages, one part, and a keyer that nobody foresees.
pub const USUAL: Settings = FileSettings {
    cap: 16,
    ward_bits: 0,
    keyer: AnyKeyer::Sha,
};
