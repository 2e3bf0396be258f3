//! What holds of all scripts. Each function does nothing.

ghost use Rattle.exh_script.specs.AnyStart.{BeginsSound, LinesKeepSettings, RepliesFollowAnyStart};
ghost use Rattle.exh_script.specs.RefusedLines.{AnsweredLinesAreAScripts, LinesGoAlike, RefusedLinesLeaveTheOthers};
ghost use Rattle.exh_script.specs.Replies.{RepliesAreOneMaps};
ghost use Rattle.exh_script.specs.Text.{new_file};

use exh_keyer::AnyKeyer;
use exh_walk::runs_keep_wards_sound_and_one_map;
use exh_world::{
    new_worlds_are_sound, runs_carry_the_headline, steps_go_alike, steps_have_outcomes,
    steps_keep_worlds_sound,
};

/// The replies that a script prints are, in the order of the answering hops, those of the map machine from the empty
/// map, to the calls that its lines ask: each is that of the last accepted `begin` of its name before the hop, and no
/// `begin` is answered twice. The steps that its lines ask for carry the headline of a world; what `show` prints of
/// copies that took the same is the same. A script that is refused prints none.
pub fn replies_are_one_maps()
    ensures { RepliesAreOneMaps }
{
    new_worlds_are_sound::<AnyKeyer>();
    steps_have_outcomes::<AnyKeyer>();
    steps_keep_worlds_sound::<AnyKeyer>();
    runs_carry_the_headline::<AnyKeyer>();
    runs_keep_wards_sound_and_one_map::<AnyKeyer>();
}

/// The same over whatever world the first line begins, where that is sound and has no request in flight: the replies are
/// those of the map machine from the map there, and each ward's journal has its own of these calls more. A new file is
/// such a world.
pub fn replies_follow_any_start()
    ensures follow { RepliesFollowAnyStart }
    ensures new_file { BeginsSound new_file }
{
    new_worlds_are_sound::<AnyKeyer>();
    steps_have_outcomes::<AnyKeyer>();
    steps_keep_worlds_sound::<AnyKeyer>();
    runs_carry_the_headline::<AnyKeyer>();
    runs_keep_wards_sound_and_one_map::<AnyKeyer>();
}

/// Lines leave the settings of a sound world as they were: its cap, its wards and its keyer.
pub fn lines_keep_settings()
    ensures { LinesKeepSettings }
{
    steps_have_outcomes::<AnyKeyer>();
    steps_keep_worlds_sound::<AnyKeyer>();
    runs_keep_wards_sound_and_one_map::<AnyKeyer>();
}

/// Lines are answered with the same text over worlds that are equal but for their wards' counts of page faults, and
/// leave such worlds.
pub fn lines_go_alike()
    ensures { LinesGoAlike }
{
    steps_go_alike::<AnyKeyer>();
}

/// Of lines that a caller has answered one by one, without any of those that were refused and not done, the others come
/// to the same. Where each has a text, these are the text of a script of these lines, which leaves the same world.
pub fn refused_lines_leave_the_others()
    ensures others { RefusedLinesLeaveTheOthers }
    ensures script { AnsweredLinesAreAScripts }
{
    steps_go_alike::<AnyKeyer>();
}
