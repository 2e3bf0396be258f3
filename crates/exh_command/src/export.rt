//! The help of `export`.

/// What it does, in a line.
pub const ABOUT: &str = "Prints all pairs as a text that import takes";

/// How it is used.
pub const USAGE: &str = "exhash export PATH [--format words|tsv|jsonl|csv] [--hex] [--bare]
         [--wait SECONDS]

Words behind `--` are no options, as in export -- --bare.

Examples:
  exhash export people.exh > people.text
  exhash export people.exh --format tsv --bare
  exhash export people.exh --hex";

/// What help says behind its options.
pub const TEXT: &str = "\
It prints the pairs of one state of the file, of any version, in the order of
its pages, one a line, as `exhash import` takes them. It begins with the line
  # exhash export FORMAT
and ends with the line
  # exhash end N
the count of pairs, by which `exhash import` sees that nothing was cut off.
--bare leaves both out, for other programs. A line of the format `words` is
  KEY VALUE
with both as `exhash pairs` prints them; of the format `tsv` there is a tab
between them, and a tab, a newline, a return, a backslash and any other byte
that isn't printed stand as \\t, \\n, \\r, \\\\ and \\xHH. Of the format `jsonl` it
is a JSON object with the fields `key` and `value`, or, for bytes that aren't
UTF-8, `key_hex` and `value_hex`; its first and last lines are objects too. Of
the format `csv` there is a comma between them, and bytes stand as they are, in
quotes where they have to. With --hex both are hexadecimal digits, two a byte.

Exit status:
  0  all pairs are printed
  1  the file can't be read or isn't legal, the text can't be printed, or memory
     ends
  2  the command line is wrong, or asks for help
  4  busy: others changed the file all the while
The formats are in docs/FORMATS.md.";
