//! What is dirty. Each law is the contract of a public function with an empty body.

ghost use Rattle.core_run_lines.specs.Dirt.{DirtGoesOnByLasts, LastsGoOn};
ghost use Rattle.core_run_ties.specs.Ties.{StandsFurther};
ghost use Rattle.core_runs.specs.Open.{DirtGoesOn};
ghost use Rattle.sector_world.specs.World.{World};

use core_commit_steps::lasts_stay_settled;
use core_laws::{one_recovery_is_under_way, who_rests_has_nothing};
use core_log_writes::quiet_events_leave_marks;

/// At each step that isn't of lines, by quiet events, what is dirty was so before with the same mark: so cleared blocks stay free and pending, and marks lie where operations end. Where last operations
/// stay settled, a log whose operations are acknowledged is so to its end.
pub fn dirt_goes_on_by_lasts()
    ensures part { (first : World) → DirtGoesOnByLasts first }
{
    lasts_stay_settled();
    who_rests_has_nothing();
    one_recovery_is_under_way();
    quiet_events_leave_marks();
}

/// So they do at each such step: of each mounted server the last operation is one of what has settled, or its whole log is acknowledged.
pub fn lasts_go_on()
    ensures lasts { (first : World) → LastsGoOn first }
{
    lasts_stay_settled();
    who_rests_has_nothing();
    one_recovery_is_under_way();
    quiet_events_leave_marks();
}

/// So what is dirty goes on at each step that isn't of lines.
pub fn dirt_goes_on()
    ensures part { (first : World) → DirtGoesOn (StandsFurther first) }
{
    dirt_goes_on_by_lasts();
    lasts_go_on();
}
