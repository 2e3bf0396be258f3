//! What a first line begins: the loader of a new file, or of an opened one.
ghost use Rattle.std.specs.Prelude.{◌≡◌, IfOk, IfSome, IsTrue};
ghost use Rattle.exh_text.specs.FileLine.{file_in_range};
ghost use Rattle.exh_load.specs.Load.{IsBegun, beginning, opened_file};
ghost use Rattle.exh_load.specs.LoadFault.{BeginsFrom};
ghost use Rattle.exh_load.specs.Loader.{file_in};

use crate::Loader;
use exh_file::Opened;
use exh_keyer::AnyKeyer;
use exh_page::Config;
use exh_stores::{Pages, StoreMaker};
use exh_text::Listener;
use std::alloc::{AllocError, Global};

/// The loader of an opened file of these settings, or of a new one over stores that the maker makes. `None` where the
/// settings' cap, ward bits or keyer aren't the opened file's, of which the listener is told. An `AllocError` where
/// memory is refused.
pub(crate) fn begin<P: Pages + Drop, M: StoreMaker<P, AnyKeyer>, L: Listener>(
    alloc: Global,
    maker: &M,
    from: Option<Opened<P>>,
    file: &Config<AnyKeyer>,
    listener: &mut L,
) -> Result<Option<Loader<P>>, AllocError>
    requires { IsTrue (file_in_range file.now) }
    ensures begun { IfOk result (IsBegun (beginning from file.now)) }
    ensures from { IfOk result (λ begun. IfSome begun (λ loader. BeginsFrom from (file_in loader))) }
{
    match from {
        None => Ok(Some(Loader::new(alloc, maker, file.file_settings())?)),
        Some(opened) => begin_over(alloc, opened, file, listener),
    }
}

// The same over an opened file.
fn begin_over<P: Pages + Drop, L: Listener>(
    alloc: Global,
    opened: Opened<P>,
    file: &Config<AnyKeyer>,
    listener: &mut L,
) -> Result<Option<Loader<P>>, AllocError>
    ensures begun { IfOk result (IsBegun (opened_file opened file.now)) }
    ensures from { IfOk result (λ begun. IfSome begun (λ loader. file_in loader ≡ opened)) }
{
    if !opened.settings().are_same(&file.file_settings()) {
        listener.differs(file.file_settings(), opened.settings());
        return Ok(None);
    }
    Ok(Some(Loader::over(alloc, opened)?))
}
