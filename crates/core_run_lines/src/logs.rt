//! What stands of the logs. The law is the contract of a public function with an empty body.

ghost use Rattle.core_run_ties.specs.Ties.{StandsFurther};
ghost use Rattle.core_runs.specs.Open.{LogsGoOn};
ghost use Rattle.sector_world.specs.World.{World};

use core_commit_steps::records_of_lines_fit;
use core_line_steps::lines_under_way_are_numbered;
use core_log_steps::{logs_go_on, logs_have_room, seals_go_on, steps_name_these_journals};

/// At each step of a run, by whatever events it leads on, each log stands at the next moment as the journal has it that is named, with nothing of a seal while a lease lasts, seals behind the replay,
/// and room. Records of planned lines may stand in a log, since each line that is planned to its end is numbered.
pub fn logs_go_on_beside()
    ensures part { (first : World) → LogsGoOn (StandsFurther first) }
{
    logs_go_on();
    seals_go_on();
    logs_have_room();
    steps_name_these_journals();
    records_of_lines_fit();
    lines_under_way_are_numbered();
}
