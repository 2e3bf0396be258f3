//! The help of `import`.

/// What it does, in a line.
pub const ABOUT: &str = "Puts the pairs of a text into a page file";

/// How it is used.
pub const USAGE: &str = "exhash import PATH [--format words|tsv|jsonl|csv] [--header]
         [--key NAME] [--value NAME] [--hex] [--atomic] [--rejects FILE]
         [--wait SECONDS] [--create [--cap N] [--wards N] [--keyer K]] < PAIRS

Words behind `--` are no options, as in import -- --hex.

Examples:
  exhash export people.exh | exhash import new.exh --create
  printf 'ann red\\nbob blue\\n' | exhash import people.exh
  printf 'ann\\tdeep red\\n' | exhash import people.exh --format tsv --atomic
  printf 'town,name\\nUlm,ann\\n' | exhash import people.exh --format csv \\
    --header --key name --value town";

/// What help says behind its options.
pub const TEXT: &str = "\
It puts the pairs of standard input into the file, one a line; a key that is
there gets the new value. The text may have any length. The file is saved behind
16384 pairs, and then each time as many more are put in as are saved; others may
change it before the next pair. How many pairs are put in then is said on
standard error, once a second at most. With --atomic all pairs are put in at
once, or, where a line is wrong or a key finds no room, none.
A line of the format `words` is
  KEY VALUE
with both as `exhash pairs` prints them; of the format `tsv` both stand as they
are, with a tab between them, where \\t, \\n, \\r, \\\\ and \\xHH are a tab, a
newline, a return, a backslash and the byte of two hexadecimal digits. Of the
format `jsonl` it is a JSON object with the fields `key` and `value`, or others
that --key and --value name; in a field with _hex behind its name are
hexadecimal digits. Of the format `csv` it is a record of two fields, without a
header: what stands in quotes may have commas, newlines and, twice each, quotes.
With --header the first record, behind a byte order mark or not, names the
columns, and --key and --value name the two that are taken; without these there
are two, the first with the keys. A header without such a column, or with two of
its name, ends the import before anything is put in. With --hex keys and values
are hexadecimal digits. What `exhash export` prints goes in as it was. Where its
first line is there and its last is missing, the text was cut: its last line
isn't put in, and with --atomic none is. Empty lines are passed over. A line of
more than 65536 bytes ends the import.
Each line that is wrong, and each key that finds no room, is named on standard
error, or with --rejects in the new file FILE, with its number, what is wrong
and its text, as three fields of the format `tsv`. Then one line is printed,
  imported N of M
N being the pairs that were put in, and M the lines that aren't empty and no
header, wrong ones too. Where the import ends before, standard error says how
many were put in until then. With --create a file is made where nothing is, as
by `exhash create`.

Exit status:
  0  all pairs are in the file
  1  the file, or FILE, can't be read or written or isn't legal, the text is cut
     off, has a wrong header or a line that is too long, or can't be read, or
     memory ends
  2  the command line is wrong, or asks for help
  3  with --atomic: a line is wrong, or a key finds no room; nothing is changed.
     Something is at FILE already
  4  busy: another process had the file locked all the while
  5  the pairs are in the file but for those that standard error or FILE names
The formats are in docs/FORMATS.md.";
