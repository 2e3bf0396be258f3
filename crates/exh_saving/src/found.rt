//! What a disk tells of a file.

/// What a name leads to.
#[derive(Clone, Copy)]
pub enum Kind {
    Regular,
    Folder,
    Link,
    /// A device, a pipe or a socket.
    Other,
}

/// What was found at a name, or of an open file.
#[derive(Clone, Copy)]
pub struct Found {
    pub kind: Kind,
    pub device: u64,
    pub inode: u64,
    pub links: u64,
    pub size: u64,
    /// When it was last written, in seconds and nanoseconds.
    pub modified: (i64, i64),
    pub owner: u32,
    pub group: u32,
    /// Its permissions.
    pub mode: u32,
}

/// The first bytes of a file that can be read and written.
#[derive(Clone, Copy)]
pub struct Head {
    pub found: Found,
    pub bytes: [u8; 8],
}

/// For whom the program runs.
#[derive(Clone, Copy)]
pub struct Runner {
    pub user: u32,
    pub group: u32,
}

impl Found {
    ghost use Rattle.std.specs.Prelude.{◌↔◌, ◌≢◌, IsTrue, bit_and};
    ghost use Rattle.exh_saving.specs.Found.{IsClosedTo, IsOnly, IsSame, IsUnchanged};

    /// Whether both tell of one file.
    pub fn is_same(&self, other: &Found) -> bool
        ensures { IsTrue result ↔ IsSame self.now other.now }
    {
        self.kind == other.kind && self.device == other.device && self.inode == other.inode
    }

    /// Whether both tell of one file that nobody wrote to in between.
    pub fn is_unchanged(&self, other: &Found) -> bool
        ensures { IsTrue result ↔ IsUnchanged self.now other.now }
    {
        self.is_same(other) && self.size == other.size && self.modified == other.modified
    }

    /// Whether these are of a regular file that has this name alone.
    pub fn is_only(&self, named: &Found) -> bool
        ensures { IsTrue result ↔ IsOnly self.now named.now }
    {
        self.kind == Kind::Regular && self.links == 1 && self.is_same(named)
    }

    /// Whether a folder's permissions surely keep the runner from making a file there.
    pub fn is_closed_to(&self, runner: Runner) -> bool
        ensures { IsTrue result ↔ IsClosedTo self.now runner }
    {
        if runner.user == 0 {
            false
        } else if runner.user == self.owner {
            !self.lets(0o200, 0o100)
        } else if runner.group == self.group {
            !self.lets(0o020, 0o010)
        } else {
            !self.lets(0o020, 0o010) && !self.lets(0o002, 0o001)
        }
    }

    // Whether a mode has both bits.
    fn lets(&self, write: u32, search: u32) -> bool
        ensures { IsTrue result ↔ (bit_and self.now.mode write ≢ 0) × (bit_and self.now.mode search ≢ 0) }
    {
        self.mode & write != 0 && self.mode & search != 0
    }
}
