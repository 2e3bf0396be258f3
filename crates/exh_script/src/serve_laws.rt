//! What holds of all runs. Each function does nothing.

ghost use Rattle.exh_script.specs.ScriptLaws.{DoneRunsLeaveWards, RepliesFollowTheFile};

use crate::replies_follow_any_start;
use exh_keyer::AnyKeyer;
use exh_world::worlds_of_wards_are_sound;

/// The replies that a script prints over an opened file are, in the order of the answering hops, those of the map
/// machine from the file's map, to the calls that its lines ask; each ward's journal has its own of these calls more.
/// A script that is refused prints none.
pub fn replies_follow_the_file()
    ensures { RepliesFollowTheFile }
{
    replies_follow_any_start();
    worlds_of_wards_are_sound::<AnyKeyer>();
}

/// A run leaves wards exactly where it is done.
pub fn done_runs_leave_wards()
    ensures { DoneRunsLeaveWards }
{}
