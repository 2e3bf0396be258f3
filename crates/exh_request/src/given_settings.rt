//! Settings that options name.
ghost use Rattle.std.specs.Prelude.{◌≡◌};
ghost use Rattle.exh_request.specs.Options.{is_given, new_settings};

use exh_keyer::AnyKeyer;
use exh_page::FileSettings;

/// The settings of a page file that options name; `None` of those that they don't.
#[derive(Clone, Copy)]
pub struct GivenSettings {
    /// How many records a page may have, 1 to 16.
    pub cap: Option<u8>,
    /// By how many bits the file is cut into wards, 0 to 4.
    pub ward_bits: Option<u8>,
    /// The keyer.
    pub keyer: Option<AnyKeyer>,
}

impl GivenSettings {
    // Whether one is named.
    pub(crate) fn is_some(&self) -> bool
        ensures { result ≡ is_given self.now }
    {
        self.cap.is_some() || self.ward_bits.is_some() || self.keyer.is_some()
    }

    /// The settings of a new file: those that are named, else 16 records a page, one ward and the keyer `sha`.
    pub(crate) fn of_new(&self) -> FileSettings<AnyKeyer>
        ensures { result ≡ new_settings self.now }
    {
        FileSettings {
            cap: self.cap.unwrap_or(16),
            ward_bits: self.ward_bits.unwrap_or(0),
            keyer: self.keyer.unwrap_or(AnyKeyer::Sha),
        }
    }
}
