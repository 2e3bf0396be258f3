//! The help of `backup`.

/// What it does, in a line.
pub const ABOUT: &str = "Copies a page file, also while others change it";

/// How it is used.
pub const USAGE: &str = "exhash backup PATH NEW [--wait SECONDS]

Words behind `--` are no options, as in backup -- --wait people.copy.

Example:
  exhash backup people.exh people.copy";

/// What help says behind its options.
pub const TEXT: &str = "\
It copies the page file of PATH, of any version, byte for byte to NEW: all of
one state, also while others change the file, who wait meanwhile. A change that
was cut off is recovered before. At NEW there must be nothing, not even an empty
file: what is there stays as it is. NEW begins as a page file only once all of
it is on the disk. Nothing is printed; why there is no copy is said on standard
error.
A copy by other programs, as by cp, is whole only where nothing changes PATH
meanwhile and no change was cut off before. Whether PATH is legal isn't asked:
`exhash check NEW` tells that of the copy.

Exit status:
  0  NEW is written
  1  PATH can't be opened or is no page file, or NEW can't be written
  2  the command line is wrong, or asks for help
  3  something is at NEW already
  4  busy: another process had the file locked all the while
The formats are in docs/FORMATS.md.";
