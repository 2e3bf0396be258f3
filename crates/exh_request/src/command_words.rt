//! The words by which everyday commands are called.

/// The command that makes a page file without pairs.
pub const CREATE: &str = "create";

/// The command that prints the value of a key.
pub const GET: &str = "get";

/// The command that gives a key a value.
pub const PUT: &str = "put";

/// The command that takes a key out.
pub const DEL: &str = "del";

/// The command that gives a key another value, where it has the one that is named.
pub const SWAP: &str = "swap";

/// The command that copies a page file.
pub const BACKUP: &str = "backup";

/// The command that puts the pairs of a text into a page file.
pub const IMPORT: &str = "import";

/// The command that prints all pairs.
pub const EXPORT: &str = "export";

/// The command that makes a page file anew.
pub const COMPACT: &str = "compact";

/// The command that counts what a page file has.
pub const STATS: &str = "stats";

/// The command that prints the pairs of the blocks that are live pages.
pub const SALVAGE: &str = "salvage";
