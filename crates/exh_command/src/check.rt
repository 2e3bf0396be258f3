//! The help of `check`.

/// What it does, in a line.
pub const ABOUT: &str = "Says whether a file is a legal page file";

/// How it is used.
pub const USAGE: &str = "exhash check PATH

Example:
  ./exhash check examples/three-pairs.files/three-pairs.exh";

/// What help says behind its options.
pub const TEXT: &str = "\
It prints one line: how much a legal page file has, as
  legal wards 1 pages 2 live 2 forward 0 records 3 entries 1
or `refused` and a number, with the block at fault or the reason:
  30 to 35 at BLOCK  a block isn't what belongs there, the header being block 0
  36, 37             it is no page file, or one of another version
  38, 39             it ends early, or goes on behind its last block
  40 reason R        it isn't legal: 1 a page has too many records, 2 low
                     bounds, 3 leaves, 4 right links, 5 targets, 6 the table
  41                 it can't be opened or read; `exhash create` makes a file
  10                 memory ends

Exit status: 0 where the file is legal; 1 where it is refused or the run breaks
off; 2 where the command line is wrong, or asks for help.
The formats are in docs/FORMATS.md.";
