/// Who saves, and which call of it fails, alone or as all behind it do.
#[derive(Clone, Copy)]
pub struct Saver {
    pub(crate) number: usize,
    fails_at: usize,
    is_killed: bool,
}

impl Saver {
    pub fn new(number: usize) -> Saver {
        Saver::failing(number, 0)
    }

    /// One of which this call fails, and 0 is none.
    pub fn failing(number: usize, fails_at: usize) -> Saver {
        Saver {
            number,
            fails_at,
            is_killed: false,
        }
    }

    /// One that is killed at this call, and 0 is none.
    pub fn killed(number: usize, killed_at: usize) -> Saver {
        Saver {
            number,
            fails_at: killed_at,
            is_killed: killed_at > 0,
        }
    }

    pub(crate) fn fails(&self, call: usize) -> bool {
        call == self.fails_at || self.is_killed && call > self.fails_at
    }
}
