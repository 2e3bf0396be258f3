ghost use Rattle.std.specs.Prelude.{◌≡◌, ◌<◌, length};
ghost use Rattle.exh_prefix.specs.Version.{Version as AnyVersion, Fits};
ghost use Rattle.exh_legal.specs.NoticeImages.{right_field};

use exh_legal::{ENTRY_IMAGE_LEN, Entry, Kind};
use exh_prefix::{PageNo, Prefix};

/// An entry of a page file's table, with its ward and its prefix.
#[derive(Clone, Copy)]
pub struct FileEntry {
    /// The ward, 0 to 15.
    pub ward: u8,
    /// The prefix at which the entry stands, shorter than its version's limit in a file.
    pub prefix: Prefix,
    pub entry: Entry,
}

impl FileEntry {
    ghost use Rattle.exh_format.specs.TableImage.{IsFileEntry, image_of};

    /// The entry's 16 bytes in a table block, in each version in which an entry may have such a prefix.
    /// It takes no memory.
    pub fn to_image(&self) -> [u8; ENTRY_IMAGE_LEN]
        ensures image { (version : AnyVersion) → Fits 4 version → length self.now.prefix < version.limit → result ≡ image_of version self.now }
        // The types of an entry hold no others.
        ensures valid { (version : AnyVersion) → length self.now.prefix < version.limit → IsFileEntry version self.now }
    {
        let FileEntry {
            ward,
            prefix,
            entry,
        } = *self;
        let _number = change_number_of(entry);
        let _right = right_of(entry.kind);
        entry.to_image(ward, prefix)
    }
}

// The number in an entry's image.
fn change_number_of(entry: Entry) -> u32
    ensures { result ≡ entry.number }
{
    entry.number
}

// The page in an entry's image, 0 for a merge.
fn right_of(kind: Kind) -> PageNo
    ensures { result ≡ right_field kind }
{
    match kind {
        Kind::Split { right } => right,
        Kind::Merge => 0,
    }
}
