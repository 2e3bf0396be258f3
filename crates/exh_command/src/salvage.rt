//! The help of `salvage`.

/// What it does, in a line.
pub const ABOUT: &str = "Prints the pairs that a damaged file still has";

/// How it is used.
pub const USAGE: &str = "exhash salvage PATH [--format words|tsv|jsonl|csv] [--hex] [--bare]

Examples:
  exhash salvage people.exh > people.text
  exhash salvage people.exh | exhash import people.new --create
  exhash salvage people.exh --format jsonl --bare";

/// What help says behind its options.
pub const TEXT: &str = "\
It reads the file block by block, 4096 bytes each from the file's beginning on,
asks neither its header nor its table, and prints the pairs of each block that
is a live page, of any version, as `exhash export` prints those of a whole file.
`exhash import` takes the text. Of a legal file these are its pairs.
A block is lost where its digest is wrong, the system doesn't give it, or the
file ends amid it. A key of two pages is printed twice, and `exhash import`
keeps the value that comes last. Standard error names each such key, with both
blocks and the one whose value is last, and tells how many blocks were read, how
many of them are live pages, and which are lost.
It changes neither the file nor its log. A log beside the file, its name with
-wal behind it, is named, and read with the file where the two fit together and
no writer is at work. Beside a damaged header it may be another file's: then the
file's own blocks come first, and behind them those that the log changes.

Exit status:
  0  all blocks were read, and none is lost
  1  the file can't be read, the text can't be printed, or memory ends
  2  the command line is wrong, or asks for help
  5  blocks are lost; the pairs of the others are printed
The formats are in docs/FORMATS.md.";
