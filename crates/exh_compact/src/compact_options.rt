ghost use Rattle.std.specs.Prelude.{◌≡◌};
ghost use Rattle.exh_compact.specs.Compacted.{settings_over};

use exh_keyer::AnyKeyer;
use exhash::Settings;

/// The settings of a file that is made anew. Those that are left out are its own.
#[derive(Clone, Copy)]
pub struct CompactOptions {
    pub cap: Option<u8>,
    pub ward_bits: Option<u8>,
    pub keyer: Option<AnyKeyer>,
}

impl CompactOptions {
    /// These settings, over a file's own. It takes no memory.
    pub fn over(&self, own: Settings) -> Settings
        ensures { result ≡ settings_over self.now own }
    {
        Settings {
            cap: self.cap.unwrap_or(own.cap),
            ward_bits: self.ward_bits.unwrap_or(own.ward_bits),
            keyer: self.keyer.unwrap_or(own.keyer),
        }
    }
}
