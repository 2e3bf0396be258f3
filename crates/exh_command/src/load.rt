//! The help of `load`.

/// What it does, in a line.
pub const ABOUT: &str = "Saves the pairs on standard input as a page file";

/// How it is used.
pub const USAGE: &str = "exhash load [--long | --into] PATH < PAIRS

Example:
  ./exhash load my-pairs.exh < examples/three-pairs-loaded.script";

/// What help says behind its options.
pub const TEXT: &str = "\
It reads a `file` line, as of a script, and then lines of a key and a value:
  file cap=2 wards=0 copies=1 keyer=plain
  #00 a
  #80 b
It saves their page file, and prints a line for each that isn't in it, and how
many records the file has:
  refused 60   the line is no pair
  refused 61   its key or value is out of range
  full KEY     there is no room for it, whatever is split
  loaded 2
A later value of a key replaces the earlier. Keys are parted by two and a half
bytes: those of a digest with keyer=sha, their own first ones with keyer=plain.
An empty file there, or one that begins as a page file, is replaced once the new
one is whole; any other stays, and nothing is saved. Which line is refused or
full is said on standard error.
These stand alone or come last, and nothing is saved: 60 or 61 for the `file`
line, 62 for more than 1048576 bytes without --long, 41 where reading fails, 10
where memory ends. Why a path can't be saved to is said on standard error.
Before the path or behind it may stand one of these:
  --long   the text has any number of bytes, and is put line by line: where
           reading fails, 41 stands behind what is told of the lines before
  --into   the same, and the pairs are put into the page file that is there,
           whose `file` line it has, with any number of copies, else it is
           refused with 63; `loaded` tells how many records there are more

Exit status: 0 where the file is saved, also with refused lines; 1 where it
isn't; 2 where the command line is wrong, or asks for help.
The formats are in docs/FORMATS.md.";
