//! The help of `get`.

/// What it does, in a line.
pub const ABOUT: &str = "Prints the values of keys, by one page each";

/// How it is used.
pub const USAGE: &str = "exhash get PATH KEY.. [--hex] [--raw] [--wait SECONDS]
       exhash get PATH --from - [--hex] [--wait SECONDS]

A word that is no option is a key, also one that begins with a dash; behind
`--` each word is one, as in get people.exh -- --hex.

Examples:
  exhash get people.exh ann
  exhash get people.exh ann bob 'a key with spaces'
  exhash get people.exh --hex 616e6e
  printf 'ann\\nbob\\n' | exhash get people.exh --from -";

/// What help says behind its options.
pub const TEXT: &str = "\
KEY is 1 to 64 bytes, taken as they are: spaces, # and bytes that are no UTF-8
too. Of one key the value is printed, and a newline. Of several keys, and of
those on standard input, a line is printed of each that is there,
  KEY VALUE
with both as `exhash pairs` prints them: characters ! to ~ as they are, the
first not #; anything else as # and two hexadecimal digits a byte. With --hex
both are digits without the #. A key that isn't there is named on standard
error. A line of standard input is a key as it is printed so; there are at most
1048576 bytes of them, and where a line is no key nothing is printed.

It reads the header, the table, in a file of version 3 the cells, and the pages
on the key's way, of a legal file one page, and nothing else of the file. Each
block that it reads is tested; whether the whole file is legal only `exhash
check` finds out. Several keys are answered by one state of the file. Where
another process changes the file meanwhile, it is read anew.

Exit status:
  0  each key is there
  1  the file can't be read or isn't legal, a line is no key, or memory ends
  2  the command line is wrong, or asks for help
  3  a key isn't there
  4  busy: others changed the file all the while
The formats are in docs/FORMATS.md.";
