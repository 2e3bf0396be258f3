//! The help of `del`.

/// What it does, in a line.
pub const ABOUT: &str = "Takes keys out";

/// How it is used.
pub const USAGE: &str = "exhash del PATH KEY.. [--hex] [--wait SECONDS]
       exhash del PATH --from - [--hex] [--wait SECONDS]

A word that is no option is a key, also one that begins with a dash; behind
`--` each word is one, as in del people.exh -- --hex.

Examples:
  exhash del people.exh ann
  exhash del people.exh bob 'a key with spaces'
  printf 'ann\\nbob\\n' | exhash del people.exh --from -";

/// What help says behind its options.
pub const TEXT: &str = "\
It takes keys and their values out of the file. Of one key it prints one line:
  was V    V was the key's value
  none     the key isn't there
Of several keys, and of those on standard input, it prints a line of each that
was there,
  KEY was V
with both as `exhash get` prints them, and names each that wasn't on standard
error; all of them are taken out at once, or none. Keys are given as to `exhash
get`. The file is locked and changed as by `exhash put`.

Exit status:
  0  each key is out now, and was there
  1  the file can't be read or written or isn't legal, a line is no key or
     can't be printed, or memory ends
  2  the command line is wrong, or asks for help
  3  a key wasn't there; the others are out
  4  busy: another process had the file locked all the while
The formats are in docs/FORMATS.md.";
