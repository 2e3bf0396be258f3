ghost use Rattle.std.specs.Prelude.{◌≡◌};
ghost use Rattle.exh_report.specs.PairsText.{settings_over};

use exh_keyer::AnyKeyer;
use exh_page::FileSettings;

/// Settings that a text of pairs begins with in place of the file's: a cap of 1 to 16, ward bits of 0 to 4 and a keyer,
/// each where it is given.
#[derive(Clone, Copy)]
pub struct OtherSettings {
    pub cap: Option<u8>,
    pub ward_bits: Option<u8>,
    pub keyer: Option<AnyKeyer>,
}

impl OtherSettings {
    /// The settings of a file, with these in their place.
    pub(crate) fn over(&self, own: &FileSettings<AnyKeyer>) -> FileSettings<AnyKeyer>
        ensures { result ≡ settings_over self.now own.now }
    {
        FileSettings {
            cap: self.cap.unwrap_or(own.cap),
            ward_bits: self.ward_bits.unwrap_or(own.ward_bits),
            keyer: self.keyer.unwrap_or(own.keyer),
        }
    }
}
