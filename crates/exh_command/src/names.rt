//! The words of the command line: commands, options, flags, and what help calls other words.

pub(crate) use exh_request::{
    BACKUP, COMPACT, CREATE, DEL, EXPORT, GET, IMPORT, PUT, SALVAGE, STATS, SWAP,
};

/// The command that says whether a file is a legal page file.
pub(crate) const CHECK: &str = "check";

/// The command that tells what a legal page file has.
pub(crate) const DUMP: &str = "dump";

/// The command that prints pairs as the text that `load` takes.
pub(crate) const PAIRS: &str = "pairs";

/// The command that saves pairs as a page file.
pub(crate) const LOAD: &str = "load";

/// The command that writes a page file as one of a version that is named.
pub(crate) const CONVERT: &str = "convert";

/// The command that answers a script.
pub(crate) const SERVE: &str = "serve";

/// The command that runs callers, keepers and couriers at once.
pub(crate) const STORM: &str = "storm";

/// The option of `convert` that names the version of the new page file, and the command that prints the program's.
pub(crate) const VERSION: &str = "version";

/// The command that prints what help says.
pub(crate) const MANUAL: &str = "manual";

/// The flag of `load` of a text of any length.
pub(crate) const LONG: &str = "long";

/// The flag of `load` of pairs that are put into the file that is there.
pub(crate) const INTO: &str = "into";

/// What help calls the path of the file that a command is about.
pub(crate) const PATH: &str = "PATH";

/// What help calls the path of a new page file.
pub(crate) const NEW: &str = "NEW";

/// What help calls the command of which the manual tells.
pub(crate) const COMMAND: &str = "COMMAND";

/// The option of `serve` that names the page file to open.
pub(crate) const OPEN: &str = "open";

/// The option of `serve` that names where the wards that a run leaves are saved.
pub(crate) const SAVE: &str = "save";

/// The option of `storm` that tells how many callers there are.
pub(crate) const CALLERS: &str = "callers";

/// The option of `storm` that tells how many calls each caller makes.
pub(crate) const CALLS: &str = "calls";

/// The option of `storm`, `pairs`, `create`, `import` and `compact` that tells how many records a page may have.
pub(crate) const CAP: &str = "cap";

/// The option of `storm`, `pairs`, `create`, `import` and `compact` that tells by how many bits the file is cut into wards.
pub(crate) const WARDS: &str = "wards";

/// The option of `storm` that tells how many copies of the directory there are.
pub(crate) const COPIES: &str = "copies";

/// The option of `pairs`, `create`, `import` and `compact` that names a keyer.
pub(crate) const KEYER: &str = "keyer";

/// The option of the everyday commands that tells how long another process is waited for.
pub(crate) const WAIT: &str = "wait";

/// The flag of the everyday commands by which keys and values are hexadecimal.
pub(crate) const HEX: &str = "hex";

/// The flag of `get` and of `put` by which a value has no newline behind it.
pub(crate) const RAW: &str = "raw";

/// The flag of `put` that gives only a key without a value one.
pub(crate) const NEW_FLAG: &str = "new";

/// The flag of `put` that gives only a key with a value one.
pub(crate) const REPLACE: &str = "replace";

/// The option of `get` and of `del` by which keys stand on standard input.
pub(crate) const FROM: &str = "from";

/// The option of `import`, `export` and `salvage` that names how pairs are written.
pub(crate) const FORMAT: &str = "format";

/// The flag of `import` by which a file is made where none is.
pub(crate) const CREATE_FLAG: &str = "create";

/// The flag of `import` by which all pairs are put in or none.
pub(crate) const ATOMIC: &str = "atomic";

/// The option of `import` that names a new file for lines that aren't put in.
pub(crate) const REJECTS: &str = "rejects";

/// What help calls that file.
pub(crate) const FILE: &str = "FILE";

/// The flag of `import` of records behind one that names the columns.
pub(crate) const HEADER: &str = "header";

/// The option of `import` that names the column or field with the key.
pub(crate) const KEY: &str = "key";

/// The option of `import` that names that with the value.
pub(crate) const VALUE: &str = "value";

/// What help calls such a name.
pub(crate) const NAME: &str = "NAME";

/// The flag of `export` and of `salvage` that leaves the first line and the last out.
pub(crate) const BARE: &str = "bare";

/// The flag of `stats` that prints JSON.
pub(crate) const JSON: &str = "json";

/// What help calls a number.
pub(crate) const NUMBER: &str = "N";

/// What help calls a keyer.
pub(crate) const KEYER_NAME: &str = "K";

/// The name under which the program tells of itself.
pub(crate) const PROGRAM: &str = "exhash";

/// The option that asks for help.
pub(crate) const HELP: &str = "--help";
