//! The help of `dump`.

/// What it does, in a line.
pub const ABOUT: &str = "Tells what a legal page file has: pages, pairs and the table";

/// How it is used.
pub const USAGE: &str = "exhash dump PATH

Example:
  ./exhash dump examples/three-pairs.files/three-pairs.exh";

/// What help says behind its options.
pub const TEXT: &str = "\
It prints the settings, each ward and its pages, and the table, as
  file cap=2 wards=0 keyer=plain
  ward 0 pages 2
  page 0/0 live prefix 0 right 1 records 2
  pair #00 a
  pair @ x
  page 0/1 live prefix 1 right none records 1
  pair #80 b
  entry - number 1 split right 1
Other files are refused as by `exhash check`; where memory ends the last line is
`refused 10`.

Exit status: 0 where the file is legal; 1 where it is refused or the run breaks
off; 2 where the command line is wrong, or asks for help.
The formats are in docs/FORMATS.md.";
