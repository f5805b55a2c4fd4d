//! The events of lines on the side of sectors, as one law.

ghost use Rattle.core_commit_steps.specs.Quiet.{QuietStepsKeepBeside};
ghost use Rattle.core_commit_steps.specs.Steps.{LinesGoOn};

use core_facts::{blocks_stay_whole, segments_are_needed_sole};
use core_laws::{
    each_key_stands_once, leases_last, one_recovery_is_under_way, who_rests_has_nothing,
};
use core_transcripts::{each_line_is_answered_once, read_scripts_have_own_numbers};
use line_locks::covers_of_set_bytes_are_found;
use script_places::read_scripts_ascend;

/// From a moment of a run with its world, and all that stands beside, a Commit, a Clear, an Again that reclaims, and a Fetch by a server that is up, whether it fails or not, lead on: by events that may happen, to a world of the next moment, of which entries tell,
/// and beside which all of that stands. So nothing is asked that isn't said again.
pub fn lines_go_on()
    ensures lines { LinesGoOn }
{
    each_key_stands_once();
    blocks_stay_whole();
    segments_are_needed_sole();
    covers_of_set_bytes_are_found();
    one_recovery_is_under_way();
    leases_last();
    who_rests_has_nothing();
    each_line_is_answered_once();
    read_scripts_have_own_numbers();
    read_scripts_ascend();
}

/// A step whose events are quiet keeps all that stands beside, where its law says the rest: that lines that were answered still are, logs that are acknowledged to their ends stay so, cleared blocks are free
/// and pending, marks lie where operations end, and logs are open and have room.
pub fn quiet_steps_keep_beside()
    ensures quiet { QuietStepsKeepBeside }
{
    each_key_stands_once();
    blocks_stay_whole();
    segments_are_needed_sole();
    covers_of_set_bytes_are_found();
    one_recovery_is_under_way();
    leases_last();
    who_rests_has_nothing();
    each_line_is_answered_once();
    read_scripts_have_own_numbers();
    read_scripts_ascend();
}
