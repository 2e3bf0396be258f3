//! The help of `stats`.

/// What it does, in a line.
pub const ABOUT: &str = "Tells how many records and pages a page file has";

/// How it is used.
pub const USAGE: &str = "exhash stats PATH [--json] [--wait SECONDS]

Words behind `--` are no options, as in stats -- --json.

Examples:
  exhash stats people.exh
  exhash stats people.exh --json";

/// What help says behind its options.
pub const TEXT: &str = "\
It prints, of one state of the file, of any version: its settings and version;
how many records it has; how many pages are live and how many were merged away;
how many pages have how many records; how many pages have prefixes of which
length, and the greatest, which is the directory's depth; how many pages can't
be split any more, and how many of them are full; how many bytes of the pages
records take; and pages and records of each ward. With --json it prints the same
as one JSON object.

Exit status:
  0  all is printed
  1  the file can't be read or isn't legal, the text can't be printed, or memory
     ends
  2  the command line is wrong, or asks for help
  4  busy: others changed the file all the while
The formats are in docs/FORMATS.md.";
