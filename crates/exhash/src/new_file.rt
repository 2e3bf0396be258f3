//! New page files, and those that replace others.
ghost use Rattle.std.specs.Prelude.{◌≡◌, ◌⊎◌, Err, IfErr, None, OnOk};
ghost use Rattle.exh_map.specs.Sizes.{IsOfCause};
ghost use Rattle.exh_map.specs.declared.store_error.StoreError.TheVariants.{Exists, Settings as SettingsFault};
ghost use Rattle.exh_page.specs.FileSettings.{AreInRange};
ghost use Rattle.exhash.specs.Store.{IsOfFile, IsOfMaking, IsOfNew};

use exh_frames::{FileStore, MAKER};
use exh_map::{
    Draft, InPlaceFault, NAME_LIMIT, Opened, OpenedFile, Settings, Stamps, StoreError, SystemDisk,
    SystemFile, above_limit, draw_stamp, file_size_limit, is_name_beside, new_wards, open_above,
    save_at, see_no_log,
};
use exh_saving::{Saved, file_name_of};
use exh_stream::{Console, Meter, Unit, Work};
use std::fs::{File, OpenOptions};
use std::io::{ErrorKind, Stderr};
use std::{fs, io};

/// Makes a page file of version 3 without pairs at a path at which nothing is, or an empty file. Where it fails an empty
/// file may be left.
///
/// `Settings`: these are no file's. `Exists`: something is there. `Unsynchronized`: it is made, but a power failure may take it
/// away. `Unfit` with `LongName`: its name leaves no room for that of its log; with `NameBeside`: it is that of the log of a page
/// file. Others: it isn't made, as they say.
pub fn make(rt: &HostRuntime, path: &str, settings: Settings) -> Result<(), StoreError>
    ensures settings { (AreInRange settings → ⊥) → result ≡ Err SettingsFault }
    ensures refused { IfErr result (IsOfMaking settings) }
{
    let draft = empty_draft(rt, path, settings)?;
    let claimed = claim(rt, path)?;
    let seen = SystemDisk::new(rt).seen(path, claimed)?;
    match save_draft(rt, path, Some(&seen), draft) {
        Ok(saved) => synchronized(saved.folder),
        Err(StoreError::Changed) => Err(StoreError::Exists),
        Err(fault) => Err(fault),
    }
}

// The draft of a file without pairs.
fn empty_draft(
    rt: &HostRuntime,
    path: &str,
    settings: Settings,
) -> Result<Draft<FileStore>, StoreError>
    ensures settings { (AreInRange settings → ⊥) → result ≡ Err SettingsFault }
    ensures refused { IfErr result (IsOfNew settings) }
{
    if !settings.are_in_range() {
        return Err(StoreError::Settings);
    }
    let wards = new_wards(rt.alloc(), &MAKER, settings)?;
    let opened = Opened::new(settings, wards);
    if let Some(above) = above_limit(file_size_limit(rt, path), &opened.header(), true) {
        return Err(StoreError::AboveLimit(above));
    }
    draft_anew(rt, opened)
}

/// The draft of a new file of version 3 of wards, with stamps of its own.
///
/// `Memory`: a growth was refused. `OutOfReach`: a page is out of reach. `Io`: the system gives no stamp.
pub(crate) fn draft_anew(
    rt: &HostRuntime,
    wards: Opened<FileStore>,
) -> Result<Draft<FileStore>, StoreError>
    ensures { IfErr result IsOfCause }
{
    let stamps = Stamps {
        own: draw_stamp(rt)?,
        before: draw_stamp(rt)?,
    };
    Ok(Draft::anew(rt.alloc(), wards, stamps)?)
}

// An empty file at a path, which of several processes one alone replaces.
fn claim(rt: &HostRuntime, path: &str) -> Result<File, StoreError>
    ensures { IfErr result (λ fault. (fault ≡ Exists) ⊎ IsOfCause fault) }
{
    if file_name_of(path).len() > NAME_LIMIT {
        return Err(StoreError::Unfit(InPlaceFault::LongName));
    }
    if is_name_beside(rt, path)? {
        return Err(StoreError::Unfit(InPlaceFault::NameBeside));
    }
    see_beside(rt, path)?;
    let mut options = OpenOptions::new();
    options.write(true).create_new(true);
    match options.open(rt, path) {
        Ok(made) => drop(made),
        Err(error) if error.kind() == ErrorKind::AlreadyExists => see_empty(rt, path)?,
        Err(error) => return Err(StoreError::from(error)),
    }
    let claimed = open_above(rt, path)?;
    // Another process may have made its page file there since.
    if claimed.metadata()?.len() > 0 {
        return Err(StoreError::Exists);
    }
    // A link leads to a file of another name.
    let whole = fs::canonicalize(rt, path)?;
    if file_name_of(whole.as_str()).len() > NAME_LIMIT {
        return Err(StoreError::Unfit(InPlaceFault::LongName));
    }
    Ok(claimed)
}

// Sees that a new file would have no log beside it, unless something is there already.
fn see_beside(rt: &HostRuntime, path: &str) -> Result<(), StoreError>
    ensures { IfErr result (λ fault. (fault ≡ Exists) ⊎ IsOfCause fault) }
{
    if fs::symlink_metadata(rt, path).is_ok() {
        see_empty(rt, path)?;
    }
    Ok(see_no_log(rt, path)?)
}

// Sees that what is there is an empty file. A link that leads to nothing is something.
fn see_empty(rt: &HostRuntime, path: &str) -> Result<(), StoreError>
    ensures { IfErr result (λ fault. (fault ≡ Exists) ⊎ IsOfCause fault) }
{
    match fs::metadata(rt, path) {
        Ok(about) if about.is_file() && about.len() == 0 => Ok(()),
        Ok(_) => Err(StoreError::Exists),
        Err(error) if error.kind() == ErrorKind::NotFound => Err(StoreError::Exists),
        Err(error) => Err(StoreError::from(error)),
    }
}

/// Saves a draft as the file of a path, in place of the one that was seen there. The answer has the lock of the new file.
///
/// Errors: what was there is as before.
pub(crate) fn save_draft(
    rt: &HostRuntime,
    path: &str,
    seen: Option<&OpenedFile>,
    draft: Draft<FileStore>,
) -> Result<Saved<SystemFile>, StoreError>
    ensures { IfErr result IsOfCause }
{
    let work = Work {
        unit: Unit::BlocksWritten,
        of: None,
    };
    let meter: Meter<Console<'_, HostRuntime, Stderr>> = Meter::new(None, work);
    let mut disk = SystemDisk::new(rt);
    let (saved, _) = save_at(rt.alloc(), &mut disk, path, seen, draft, &meter);
    Ok(saved?)
}

/// What a save came to of which this fault kept its folder from being synchronized, if one did.
pub(crate) fn synchronized(folder: Option<io::Error>) -> Result<(), StoreError>
    ensures ok { OnOk result (folder ≡ None) }
    ensures refused { IfErr result IsOfFile }
{
    match folder {
        None => Ok(()),
        Some(error) => Err(StoreError::Unsynchronized(error)),
    }
}
