//! What the system tells of a file.
ghost use Rattle.std.specs.Prelude.{◌≡◌, bit_and};
ghost use Rattle.std.specs.Fs.{metadata_len, metadata_mode};
ghost use Rattle.exh_system.specs.Kind.{IsKindOf};

use exh_saving::{Found, Kind};
use std::fs::Metadata;
use std::os::unix::fs::MetadataExt;

/// What the system tells of a file.
pub(crate) fn found_of(about: &Metadata) -> Found
    ensures kind { IsKindOf about.now result.kind }
    ensures size { result.size ≡ metadata_len about.now }
    ensures mode { result.mode ≡ bit_and (metadata_mode about.now) 0o7777 }
{
    Found {
        kind: kind_of(about),
        device: about.dev(),
        inode: about.ino(),
        links: about.nlink(),
        size: about.len(),
        modified: (about.mtime(), about.mtime_nsec()),
        owner: about.uid(),
        group: about.gid(),
        mode: about.mode() & 0o7777,
    }
}

fn kind_of(about: &Metadata) -> Kind
    ensures { IsKindOf about.now result }
{
    if about.is_file() {
        Kind::Regular
    } else if about.is_dir() {
        Kind::Folder
    } else if about.is_symlink() {
        Kind::Link
    } else {
        Kind::Other
    }
}
