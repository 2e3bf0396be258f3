//! The help of `compact`.

/// What it does, in a line.
pub const ABOUT: &str = "Makes a page file anew with the pages that its pairs need";

/// How it is used.
pub const USAGE: &str = "exhash compact PATH [--cap N] [--wards N] [--keyer K]
         [--wait SECONDS]

Words behind `--` are no options, as in compact -- --cap.

Examples:
  exhash compact people.exh
  exhash compact people.exh --cap 16 --wards 0";

/// What help says behind its options.
pub const TEXT: &str = "\
It makes the file anew, of version 3, with its pairs alone: without the pages
that merges left and those that were split for keys that are gone. The settings
are the file's own but for those that are named. The file is locked as by
`exhash put`, so that no change of others is lost, and is there whole until the
new one is whole and on the disk. The new one is another file, as `exhash
--help` says. Where a key would find no room under the new settings, standard
error names each such key, and the file stays as it is. Else one line is
printed,
  compacted N pages to M

Exit status:
  0  the file is made anew
  1  the file can't be read or written or isn't legal, or memory ends
  2  the command line is wrong, or asks for help
  3  keys would find no room; the file is as before
  4  busy: another process had the file locked all the while
The formats are in docs/FORMATS.md.";
