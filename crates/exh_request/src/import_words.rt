//! How pairs are imported.

use exh_keyer::AnyKeyer;
use exh_page::FileSettings;
use exh_pair_text::PairFormat;

/// How the pairs of standard input are put into a page file.
#[derive(Clone, Copy)]
pub struct ImportWords {
    /// How they stand there.
    pub format: PairFormat,
    /// Behind a record that names the columns, by `--header`.
    pub has_header: bool,
    /// All of them or none, by `--atomic`.
    pub is_atomic: bool,
    /// The settings of the file that is made where none is, by `--create`.
    pub create: Option<FileSettings<AnyKeyer>>,
}
