//! The help of the program.

/// What it is, in a line.
pub const ABOUT: &str = "An extendible hash file whose directory is copied to several nodes";

/// How it is used.
pub const USAGE: &str = "exhash create PATH [--cap N] [--wards N] [--keyer K]
         [--wait SECONDS]
       exhash get PATH KEY.. [--hex] [--raw] [--wait SECONDS]
       exhash get PATH --from - [--hex] [--wait SECONDS]
       exhash put PATH KEY VALUE [--new | --replace] [--hex] [--raw]
         [--wait SECONDS]
       exhash del PATH KEY.. [--hex] [--wait SECONDS]
       exhash del PATH --from - [--hex] [--wait SECONDS]
       exhash swap PATH KEY OLD NEW [--hex] [--wait SECONDS]
       exhash backup PATH NEW [--wait SECONDS]
       exhash import PATH [--format words|tsv|jsonl|csv] [--header]
         [--key NAME] [--value NAME] [--hex] [--atomic] [--rejects FILE]
         [--wait SECONDS] [--create [--cap N] [--wards N] [--keyer K]] < PAIRS
       exhash export PATH [--format words|tsv|jsonl|csv] [--hex] [--bare]
         [--wait SECONDS]
       exhash compact PATH [--cap N] [--wards N] [--keyer K]
         [--wait SECONDS]
       exhash stats PATH [--json] [--wait SECONDS]
       exhash salvage PATH [--format words|tsv|jsonl|csv] [--hex] [--bare]
       exhash check PATH
       exhash dump PATH
       exhash pairs PATH [--cap N] [--wards N] [--keyer K]
       exhash load [--long | --into] PATH < PAIRS
       exhash convert PATH NEW [--version N]
       exhash serve [--open PATH] [--save PATH] < SCRIPT
       exhash storm [--callers N] [--calls N] [--cap N] [--wards N]
         [--copies N]
       exhash version
       exhash manual [COMMAND]

Examples:
  exhash create people.exh
  exhash put people.exh ann red
  exhash put people.exh bob 'hello world'
  exhash get people.exh ann
  exhash swap people.exh ann red blue
  exhash del people.exh bob
  exhash backup people.exh people.copy
  exhash export people.exh > people.text
  exhash import people.exh < people.text
  exhash compact people.exh
  exhash stats people.exh
  exhash salvage people.exh > people.text
  exhash check people.exh
  exhash dump people.exh
  exhash pairs people.exh > people.pairs
  exhash load people.new < people.pairs
  exhash convert people.exh people.old --version 2
  printf 'file cap=16 wards=0 copies=1 keyer=sha\\n' | exhash serve
  exhash storm --callers 4 --calls 100";

/// What help says behind its options.
pub const TEXT: &str = "\
Keys and values of create, get, put, del and swap are bytes as the shell hands
them over, or hexadecimal with --hex. Writers wait for one another, 5 seconds or
as long as --wait says, 0 to 86400, and readers for a change that is going on.

Exit status of create, get, put, del, swap, backup, import, export, compact,
stats and salvage:
  0  done
  1  the file can't be read or isn't legal, has vanished, the system failed, or
     memory ended
  2  the command line is wrong, or asks for help
  3  no such key; or not done by what stands there: `full`, `exists`, `differs`,
     `none`, or something at the path of a new file
  4  busy: another process had the file all the while
  5  import put in some of the pairs; salvage found lost blocks
Standard output has answers alone. Each refusal is a sentence on standard error,
with the path, and with its number among all refusals in brackets at its end.
Exit status of the other commands: 0 where the run is done, also with refused
lines, or the file is legal, or the new file is written, or all is settled; 1
where it is refused or the run breaks off; 2 where the command line is wrong, or
asks for help or for the version.

Only create and import --create make a file where there is none, beside load,
serve and convert, which write whole ones. create, put, del, swap and import
change a file of version 3 in place: after a crash the next run finds it as
before the change or as after it.
Else only an empty file, or one that begins as a page file, is saved over; by
convert only an empty one. It is there whole until the new one is whole and on
the disk, and where that fails it stays. The new one is another file: it has the
old one's mode and, where the system allows it, owner and group, but not its
access lists, its extended attributes and its hard links; its group may do what
the mode says, and nothing where it isn't the old one's.
One run at a time saves to a file. put, del, swap, import and compact lock it
from before they read it until it is saved, load, serve and convert to save it;
a file that another process has locked isn't saved to, nor is one on a file
system without locks. load, serve and convert wait 5 seconds for the lock. Who
may read a file may lock it, and so keep others from saving to it; who may not
write it can't save over it. Of two runs that opened one file the later to save
is refused, so that nothing that was saved is lost. Programs that write without
these locks are noticed only if they are done before the save.
Page files of the first version, of the second and of the third are read, and
told alike. One of the third that was opened, and is saved at the same path, is
saved as one of the third; what is saved otherwise is of the second, but for
what create and convert write. Programs that know the first two alone refuse the
third with 37, and those that know the first alone the second too. A key for
which a page of the first had no room for good may find some.

`exhash COMMAND --help` tells more of a command, `exhash serve --help` the lines
of a script, `exhash check --help` what is said of a file, docs/FORMATS.md the
formats.";
