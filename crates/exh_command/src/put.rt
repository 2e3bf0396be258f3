//! The help of `put`.

/// What it does, in a line.
pub const ABOUT: &str = "Gives a key a value";

/// How it is used.
pub const USAGE: &str = "exhash put PATH KEY VALUE [--new | --replace] [--hex] [--raw]
         [--wait SECONDS]

A word that is no option is a key or a value, also one that begins with a dash;
behind `--` each word is one, as in put people.exh -- --hex -.

Examples:
  exhash put people.exh ann red
  exhash put people.exh bob 'hello world' --new
  exhash put people.exh temperature -5
  exhash put people.exh 616e6e 0001ff --hex
  date | exhash put people.exh today -";

/// What help says behind its options.
pub const TEXT: &str = "\
KEY is 1 to 64 bytes, VALUE 0 to 128, taken as they are: spaces, #, nothing at
all, and bytes that are no UTF-8. A VALUE of - is read from standard input; one
newline at its end is left off, but for --raw. It prints one line:
  new      the key wasn't there
  was V    V was the key's value
  full     the key isn't there, and has no room, whatever is split
  exists   with --new: the key is there, and keeps its value
  none     with --replace: the key isn't there
V is the value as it is, with --hex in hexadecimal digits.

The file is locked while it is changed; a run that finds it locked waits. One of
version 3 is changed in place, by a log beside it, and only the blocks that
change are read and written; one of an older version is read and saved whole.
The line is printed once the change is on the disk. Where it is saved and the
line can't be printed, standard error says so.

Exit status:
  0  the file has the value now
  1  the file can't be read or written or isn't legal, the line can't be
     printed, or memory ends
  2  the command line is wrong, or asks for help
  3  `full`, `exists` or `none`: the file is as it was
  4  busy: another process had the file locked all the while
The formats are in docs/FORMATS.md.";
