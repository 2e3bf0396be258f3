//! The help of `serve`.

/// What it does, in a line.
pub const ABOUT: &str = "Answers a script on standard input, line by line, on standard output";

/// How it is used.
pub const USAGE: &str = "exhash serve [--open PATH] [--save PATH] < SCRIPT

A PATH that begins with a dash stands behind `=`, as in --open=-x.

Examples:
  ./exhash serve < examples/untold-copy.script
  ./exhash serve --open examples/opened-pairs.files/three-pairs.exh \\
    --save my-pairs.exh < examples/opened-pairs.script";

/// What help says behind its options. A stranger writes a script from it.
pub const TEXT: &str = "\
Lines of a script, of which `file` is the first:
  file cap=N wards=N copies=N keyer=K  an empty file, or the opened one's
  begin rN cN COPY CALL    request N, of client N, at the page that a copy names
  hop rN                   the request is answered, moves, or wants a split
  split WARD PAGE          a full page shares its records with a new page
  merge WARD PAGE          a page takes in its right buddy
  deliver COPY WARD INDEX  a copy takes the notice of a split or merge
  send COPY                a copy's table is kept, as table 1, 2, ..
  combine COPY TABLE       a copy takes in a table that was sent
  restart COPY             a copy forgets what it took
  show COPY                prints what a copy knows: depth, entries, leaves
  page WARD PAGE           prints a page: live or forwarding, prefix, records
  inflight                 prints the requests that aren't answered yet

What is printed of a request, and what is next:
  rN at W/P       it is begun, at page P of ward W: `hop rN`
  rN moved W/P    its key is further on, at W/P: `hop rN` again
  rN split        the page that it is at is full: `split W P`, then `hop rN`
  rN is VALUE     answered: the value of a get
  rN none         answered: a get, del or swap, and there is no such key
  rN new          answered: a put, of a key that wasn't there
  rN was VALUE    answered: a put or del, and the value that was there
  rN full         answered: a put, and the key has no room, whatever is split
  rN swapped      answered: a swap, and OLD was the key's value
  rN differs V    answered: a swap, and V is the key's value, which stays
  notice W/I ..   a split or merge is done: `deliver COPY W I` tells a copy
A request that isn't answered when the script ends is gone, and not made.

A script has at most 1048576 bytes. Words have one space between them, and no
line begins or ends with one.
  file        cap, the records of a page, 1 to 16; wards 0 to 4, for 2^wards
              of them; copies 1 to 8; K is sha or plain: keys are parted by two
              and a half bytes of a digest, or by their own first ones alone. Of
              an opened file the cap, wards and K are its own.
              `moves=yes` may stand behind it: each reply then ends with its
              moves and their bound, as ` moves 1 of 1`
  rN, cN      r or c and a number from 1 to 4294967295
  COPY, TABLE and a ward's INDEX begin at 1, WARD and PAGE at 0.
  CALL        get KEY, put KEY VALUE, del KEY, or swap KEY OLD NEW: NEW in place
              of OLD, where that is the key's value
  KEY, VALUE  1 to 64 and 0 to 128 bytes: characters ! to ~, the first not #; or
              # and for each byte two digits of 0 to 9 and a to f
  OLD, NEW    as VALUE

A script is read to its end before anything is printed. A line that can't be
done prints `refused` and a number, and changes nothing:
   1  no such page                     20  no such copy
   3  the page only forwards           21  no request of this name in flight
   4  the page isn't full              22  no such notice
   5  the page's prefix is longest     23  no such table
   6  the page is no left buddy        24  no such ward
   7  its right buddy isn't live       25  a request of this name is in flight
   8  too many records together        60  no line of a script
   9  too many changes at a prefix     61  a number, key or value out of range
These stand alone or come last, and the run ends: 60 or 61 for the `file` line,
63 where it isn't the opened file's, 62 for a script that is too long, 41 where
reading fails, 10 where memory ends. A file that isn't opened is told of as by
`exhash check`, and the script isn't read. Where the run is done its pages are
saved, over an empty file or one that begins as a page file; what was there
stays until they are, and where it isn't the opened file any more. Standard
error says why it stays.

Example, with what its lines print:
  file cap=1 wards=0 copies=1 keyer=plain
  begin r1 c1 1 put #80 x    r1 at 0/0
  hop r1                     r1 new
  split 0 0                  notice 0/1 prefix - number 1 split right 1
  deliver 1 0 1              copy 1 took 0/1
  begin r2 c1 1 get #80      r2 at 0/1
  hop r2                     r2 is x

Exit status: 0 where the run is done, also with refused lines; 1 where it is
refused or breaks off, or a file isn't opened or saved; 2 where the command line
is wrong, or asks for help or for the version.
The formats are in docs/FORMATS.md.";
