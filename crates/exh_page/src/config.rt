ghost use Rattle.std.specs.Prelude.{◌≡◌};
ghost use Rattle.exh_page.specs.Config.{file_settings};

use crate::FileSettings;

/// The settings of a world: a page holds at most `cap` records, 1 to 16; the file is cut into 2^`ward_bits` wards, by
/// 0 to 4 leading bits of pseudokeys; there are so many `copies` of the directory, 1 to 8; and the file's keyer.
#[derive(Clone, Copy)]
pub struct Config<K> {
    pub cap: u8,
    pub ward_bits: u8,
    pub copies: u32,
    pub keyer: K,
}

impl<K: Copy> Config<K> {
    /// The settings of the world's file, which are all but the count of copies.
    pub fn file_settings(&self) -> FileSettings<K>
        ensures { result ≡ file_settings self.now }
    {
        FileSettings {
            cap: self.cap,
            ward_bits: self.ward_bits,
            keyer: self.keyer,
        }
    }
}
