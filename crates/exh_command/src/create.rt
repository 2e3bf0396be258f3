//! The help of `create`.

/// What it does, in a line.
pub const ABOUT: &str = "Makes a page file without pairs";

/// How it is used.
pub const USAGE: &str = "exhash create PATH [--cap N] [--wards N] [--keyer K]
         [--wait SECONDS]

Words behind `--` are no options, as in create -- --cap.

Examples:
  exhash create people.exh
  exhash create towns.exh --cap 8 --wards 2 --keyer plain";

/// What help says behind its options.
pub const TEXT: &str = "\
It makes a page file of version 3 without pairs, for `exhash put` and the other
commands. The usual settings fit most files: full pages, one ward, and a keyer
that spreads all keys evenly. Of the commands about keys only this one makes a
file.
At PATH there must be nothing or an empty file. What else is there stays as it
is, and of several runs for one path at once one makes the file. Nothing is
printed; why the file isn't made is said on standard error, and an empty file
may be left then.

Exit status:
  0  the file is made
  1  it can't be made: the system refuses it, or memory ends
  2  the command line is wrong, or asks for help
  3  something is there already
  4  busy: another process had the path locked all the while
The formats are in docs/FORMATS.md.";
