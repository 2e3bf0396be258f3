//! The help of `storm`.

/// What it does, in a line.
pub const ABOUT: &str = "Runs callers, keepers and couriers at once, and settles it all";

/// How it is used.
pub const USAGE: &str = "exhash storm [--callers N] [--calls N] [--cap N] [--wards N]
         [--copies N]

Example:
  ./exhash storm --callers 4 --calls 100";

/// What help says behind its options.
pub const TEXT: &str = "\
It makes a new file in memory, of keyer sha, and then all at once, each on a
thread of its own: callers put, get and delete 50 keys, a keeper of each ward
merges pages that have grown empty, and a courier of each copy of the directory
carries it the notices. At the end it is found out whether the callers' answers
are those of one history of each ward. It prints one line:
  settled A     they are; A is how many answers there were
  refused N     10 where memory ends, or a thread can't be made; 50 where a call
                took too many turns; 51 where the answers are not

Exit status: 0 where all is settled; 1 where it is refused; 2 where the command
line is wrong, or asks for help.
The formats are in docs/FORMATS.md.";
