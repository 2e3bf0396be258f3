//! The help of `swap`.

/// What it does, in a line.
pub const ABOUT: &str = "Gives a key another value, where it has the one that is named";

/// How it is used.
pub const USAGE: &str = "exhash swap PATH KEY OLD NEW [--hex] [--wait SECONDS]

A word that is no option is a key or a value, also one that begins with a dash;
behind `--` each word is one, as in swap people.exh -- ann --hex -5.

Example:
  exhash swap people.exh ann red blue";

/// What help says behind its options.
pub const TEXT: &str = "\
It gives the key the value NEW in the file, where it has OLD, and prints one
line:
  swapped      OLD was the key's value
  differs V    V is the key's value, which stays
  none         the key isn't there
Of several runs that swap one value at once, one swaps it. KEY, OLD and NEW are
given as to `exhash put`, and the file is locked and changed as by it.

Exit status:
  0  the file has NEW now
  1  the file can't be read or written or isn't legal, the line can't be
     printed, or memory ends
  2  the command line is wrong, or asks for help
  3  `differs` or `none`: the file is as it was
  4  busy: another process had the file locked all the while
The formats are in docs/FORMATS.md.";
