//! The events of lines. The law is the contract of a public function with an empty body.

ghost use Rattle.core_run_ties.specs.Ties.{StandsFurther};
ghost use Rattle.core_runs.specs.Open.{LinesLeadOn};
ghost use Rattle.sector_world.specs.World.{World};

use core_commit_steps::{lasts_stay_settled, lines_go_on};
use core_commits::the_one_disk_stands;
use stop_laws::events_keep_sight;

/// From a moment at which all stands beside, a Commit, a Clear, and an Again that reclaims lead on by events that may happen, with the journals that are named. Of a Commit the operation of its line is
/// told, with what it claims cached clean, and of the others nothing. All stands beside the next moment: what an operation changes lies on the disk and has a version behind it, so records name only
/// sectors of regions that a replay changes.
pub fn lines_lead_on()
    ensures part { (first : World) → LinesLeadOn (StandsFurther first) }
{
    lines_go_on();
    lasts_stay_settled();
    events_keep_sight();
    the_one_disk_stands();
}
