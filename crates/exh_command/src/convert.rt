//! The help of `convert`.

/// What it does, in a line.
pub const ABOUT: &str = "Writes a page file as one of another version";

/// How it is used.
pub const USAGE: &str = "exhash convert PATH NEW [--version N]

Paths that begin with a dash stand behind `--`, as in convert -- -x -y.

Example:
  ./exhash convert examples/three-pairs.files/three-pairs.exh new-pairs.exh";

/// What help says behind its options.
pub const TEXT: &str = "\
It writes the page file of PATH, of any version, as one of version N at NEW. The
wards, the pages, the pairs and the table are the same, and PATH stays as it is.
At NEW there must be nothing or an empty file: a NEW that isn't empty is left as
it is, and so is an empty one where PATH is refused. The versions:
  2  the entries of the table stand in blocks behind the pages
  3  they stand in cells before the pages, each of which keeps its place;
     programs that know only the versions before refuse it with 37
Behind `convert` --version is that of NEW; `exhash --version` tells the
program's. Nothing is printed where NEW is written; why it isn't is said on
standard error. Other files at PATH are refused as by `exhash check`; where
memory ends `refused 10` is printed.

Exit status: 0 where NEW is written; 1 where it isn't, or PATH is refused; 2
where the command line is wrong, or asks for help.
The formats are in docs/FORMATS.md.";
