//! The help of `version`.

/// What it does, in a line.
pub const ABOUT: &str = "Prints the program's version";

/// How it is used.
pub const USAGE: &str = "exhash version

Example:
  exhash version";

/// What help says behind its options.
pub const TEXT: &str = "\
It prints one line, as `exhash --version` does, but on standard output.

Exit status: 0 where the line is printed; 1 where it isn't; 2 where the command
line is wrong, or asks for help.";
