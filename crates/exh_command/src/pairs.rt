//! The help of `pairs`.

/// What it does, in a line.
pub const ABOUT: &str = "Prints the pairs of a page file, as `load` takes them";

/// How it is used.
pub const USAGE: &str = "exhash pairs PATH [--cap N] [--wards N] [--keyer K]

A PATH that begins with a dash stands behind `--`, as in pairs -- -x.

Example:
  ./exhash pairs examples/three-pairs.files/three-pairs.exh --cap 16";

/// What help says behind its options.
pub const TEXT: &str = "\
It prints the text that `exhash load` takes: a `file` line with the settings of
the file, and its pairs, page by page, as
  file cap=2 wards=0 copies=1 keyer=plain
  #00 a
  @ x
  #80 b
The options change the first line alone. A load of the text makes a file that
has lost many keys small again, or one with other settings: with its own keyer
and no smaller a cap each pair finds room. A load takes 1048576 bytes at most,
`exhash load --long` any number of them.
Other files are refused as by `exhash check`; where memory ends the last line is
`refused 10`.

Exit status: 0 where the file is legal; 1 where it is refused or the run breaks
off; 2 where the command line is wrong, or asks for help.
The formats are in docs/FORMATS.md.";
