//! The help of `manual`.

/// What it does, in a line.
pub const ABOUT: &str = "Prints what help tells of the program, or of a command";

/// How it is used.
pub const USAGE: &str = "exhash manual [COMMAND]

Examples:
  exhash manual
  exhash manual put";

/// What help says behind its options.
pub const TEXT: &str = "\
It prints what `exhash --help` tells, or `exhash COMMAND --help`, but on
standard output.

Exit status: 0 where all of it is printed; 1 where it isn't; 2 where there is no
such command, or the command line is wrong, or asks for help.";
