ghost use Rattle.std.specs.Prelude.{◌≡◌, IfErr, OnErr, OnOk};
ghost use Rattle.exh_saving.specs.Answer.{Fails, Gives};
ghost use Rattle.exh_saving.specs.declared.stage.Stage.TheVariants.{Dressed, Empty};
ghost use Rattle.exh_saving.specs.Dressed.{IsDressed, IsGiven, dressed_mode};

use crate::{Disk, Found};
use std::io;

// All permissions but those that only serve under an owner and a group that were asked for; and of these all but the group's.
const PLAIN: u32 = 0o1777;

const PLAIN_BUT_GROUP: u32 = 0o1707;

/// Gives an empty file the permissions of an old one and, where the system allows it, its owner and its group. Where the
/// group isn't given, what it might do isn't either.
pub(crate) fn dress<D: Disk>(disk: &mut D, file: &mut D::File, old: &Found) -> io::Result<()>
    requires { D.stage file.old ≡ Empty }
    ensures ok { OnOk result (D.stage file.new ≡ Dressed) }
    ensures dressed { OnOk result (IsDressed D.answers old.now) }
    ensures err { OnErr result (D.stage file.new ≡ Empty) }
    ensures fails { IfErr result (λ error. D.answers (Fails error)) }
    ensures bytes { D.holds file.new ≡ D.holds file.old }
    ensures crash { D.history disk.new ≡ D.history disk.old }
{
    let has_owner = is_given(disk, file, Some(old.owner), None);
    let has_group = is_given(disk, file, None, Some(old.group));
    disk.permit(file, dressed_mode(old.mode, has_owner, has_group))
}

// Gives a file an owner or a group, where the system allows it.
fn is_given<D: Disk>(
    disk: &mut D,
    file: &mut D::File,
    owner: Option<u32>,
    group: Option<u32>,
) -> bool
    requires { D.stage file.old ≡ Empty }
    ensures given { IsGiven D.answers (Gives owner group) result }
    ensures stage { D.stage file.new ≡ Empty }
    ensures bytes { D.holds file.new ≡ D.holds file.old }
    ensures crash { D.history disk.new ≡ D.history disk.old }
{
    match disk.give(file, owner, group) {
        Ok(()) => true,
        Err(_) => false,
    }
}

fn dressed_mode(mode: u32, has_owner: bool, has_group: bool) -> u32
    ensures { result ≡ dressed_mode mode has_owner has_group }
{
    match (has_owner, has_group) {
        (true, true) => mode,
        (false, true) => mode & PLAIN,
        (_, false) => mode & PLAIN_BUT_GROUP,
    }
}
