//! What a page file at a path has.
ghost use Rattle.std.specs.Prelude.{IfErr};
ghost use Rattle.exhash.specs.Sizes.{IsOfCause, IsOfOpening};

use crate::{Stats, stats_of};
use exh_codec::BLOCK_LEN;
use exh_format::version_in;
use exh_prefix::Version;
use exhash::{FileForm, Reading, StoreError, read_still, read_whole, read_whole_bytes};
use std::alloc::Global;
use std::fs::File;
use std::io;
use std::os::unix::fs::FileExt;

// A reading of a file for what it has, which may be made again.
#[derive(Drop)]
struct StatsReading {
    alloc: Global,
}

impl Reading for StatsReading {
    type Found = Result<Stats, StoreError>;

    ghost gives = { λ found. IfErr found IsOfCause };

    fn read(&mut self, file: &File) -> Result<Stats, StoreError> {
        let (opened, form) = read_whole(self.alloc, file)?;
        let version = version_of(file, &form)?;
        let settings = opened.settings();
        let mut wards = opened.into_wards();
        Ok(stats_of(self.alloc, version, settings, &mut wards)?)
    }

    // Only a file of version 3 has a log, and is read so.
    fn read_bytes(&mut self, bytes: &[u8]) -> Result<Stats, StoreError> {
        let (opened, _form) = read_whole_bytes(self.alloc, bytes)?;
        let settings = opened.settings();
        let mut wards = opened.into_wards();
        Ok(stats_of(self.alloc, 3, settings, &mut wards)?)
    }
}

/// How much the page file of a path has, of any version, in one state of it, also beside others that change it. It reads for
/// so many seconds while the file is being changed, and takes memory for its pages.
///
/// `Absent`: nothing is there, or an empty file. `Changed`: it was being changed all the while. Others: it isn't read, as they
/// say.
pub fn stats_at(rt: &HostRuntime, path: &str, seconds: u64) -> Result<Stats, StoreError>
    ensures { IfErr result IsOfOpening }
{
    let mut reading = StatsReading { alloc: rt.alloc() };
    read_still(rt, path, &mut reading, seconds)?
}

// The number of the version of a legal page file.
fn version_of(file: &File, form: &FileForm) -> io::Result<u8> {
    match form {
        FileForm::Placed(_) => Ok(3),
        FileForm::Plain => {
            let mut block = [0; BLOCK_LEN];
            file.read_exact_at(&mut block, 0)?;
            Ok(match version_in(&block) {
                Version::First => 1,
                Version::Second => 2,
            })
        }
    }
}
