ghost use Rattle.std.specs.Prelude.{◌≡◌, ◌≤◌, IfOk};
ghost use Rattle.exh_keyer.specs.Pseudokey.{any_pseudokey};
ghost use Rattle.exh_page.specs.declared.page.TheConstants.{CAP_LIMIT};
ghost use Rattle.exh_prefix.specs.declared.prefix.TheConstants.{WARD_BITS_LIMIT};
ghost use Rattle.exh_script.specs.Left.{file_left};
ghost use Rattle.exh_script.specs.OpenedScript.{beginning, is_of_file, opened_file};
ghost use Rattle.exh_world.specs.NewWorld.{settings_of};
ghost use Rattle.exh_world.specs.Sound.{IsSoundWorld};

use exh_keyer::AnyKeyer;
use exh_line::Refusal;
use exh_load::Opened;
use exh_page::Config;
use exh_stores::{Pages, StoreMaker};
use exh_text::Listener;
use exh_world::World;
use std::alloc::{AllocError, Global};

/// The world that a first line of these settings begins, over an opened file or over none: a new file's, over stores that
/// the maker makes, or that of the opened wards. `Refusal::OtherFile` where the settings' cap, ward bits or keyer aren't
/// the opened file's, of which the listener is told.
pub(crate) fn begin<P: Pages + Drop, M: StoreMaker<P, AnyKeyer>, L: Listener>(
    alloc: Global,
    maker: &M,
    from: Option<Opened<P>>,
    file: &Config<AnyKeyer>,
    listener: &mut L,
) -> Result<Result<World<P, AnyKeyer>, Refusal>, AllocError>
    requires some { 1 ≤ file.now.cap }
    requires most { file.now.cap ≤ CAP_LIMIT }
    requires bits { file.now.ward_bits ≤ WARD_BITS_LIMIT }
    ensures begun { IfOk result (λ begun. begun ≡ beginning from file.now) }
    ensures sound { IfOk result (λ begun. IfOk begun (IsSoundWorld any_pseudokey)) }
    ensures settings { IfOk result (λ begun. IfOk begun (λ world. settings_of world file.now.copies ≡ file.now)) }
{
    match from {
        None => Ok(Ok(World::new_over(alloc, maker, *file)?)),
        Some(opened) => begin_over(alloc, opened, file, listener),
    }
}

// The same over an opened file.
fn begin_over<P: Pages + Drop, L: Listener>(
    alloc: Global,
    opened: Opened<P>,
    file: &Config<AnyKeyer>,
    listener: &mut L,
) -> Result<Result<World<P, AnyKeyer>, Refusal>, AllocError>
    requires bits { file.now.ward_bits ≤ WARD_BITS_LIMIT }
    ensures begun { IfOk result (λ begun. begun ≡ opened_file opened file.now) }
    ensures sound { IfOk result (λ begun. IfOk begun (IsSoundWorld any_pseudokey)) }
    ensures settings { IfOk result (λ begun. IfOk begun (λ world. settings_of world file.now.copies ≡ file.now)) }
{
    if !is_of_file(&opened, file) {
        listener.differs(file.file_settings(), opened.settings());
        return Ok(Err(Refusal::OtherFile));
    }
    Ok(Ok(World::from_wards(alloc, *file, opened.into_wards())?))
}

// Whether settings are those of an opened file.
fn is_of_file<P: Pages + Drop>(opened: &Opened<P>, file: &Config<AnyKeyer>) -> bool
    ensures { result ≡ is_of_file opened.now file.now }
{
    opened.settings().are_same(&file.file_settings())
}

/// The wards of a world of these settings, as those of a file. It takes no memory.
pub(crate) fn leave<P: Pages + Drop>(
    file: &Config<AnyKeyer>,
    world: World<P, AnyKeyer>,
) -> Opened<P>
    requires some { 1 ≤ file.now.cap }
    requires most { file.now.cap ≤ CAP_LIMIT }
    requires bits { file.now.ward_bits ≤ WARD_BITS_LIMIT }
    requires settings { settings_of world file.now.copies ≡ file.now }
    ensures { result ≡ file_left world }
{
    Opened::new(file.file_settings(), world.into_wards())
}
