//! What stands of the logs beside the worlds of a run. Each law is the contract of a public function.

ghost use Rattle.core_log_steps.specs.Worlds.{FirstMomentsAreBeside, LivesStandBeside, LogsStandBeside};

use crate::journals::steps_name_these_journals;
use crate::seals::seals_go_on;
use crate::steps::{logs_go_on, logs_stand_along_runs};
use core_readings::seals_come_behind;
use core_world::first_moments_are_worlds;

/// Over any run by whose steps events lead from world to world, with the journals that are named, each log stands as its journal has it at each moment, and seals come behind the replay,
/// beside a good world; and so it is at the first moment over zero logs, beside each good world of it. So what the laws of steps ask of logs stays, where each step leads on, as each
/// step on locks and lives does.
pub fn logs_stand_beside_worlds()
    ensures along { LogsStandBeside }
    ensures lives { LivesStandBeside }
    ensures first { FirstMomentsAreBeside }
{
    steps_name_these_journals();
    logs_go_on();
    seals_go_on();
    logs_stand_along_runs();
    seals_come_behind();
    first_moments_are_worlds();
}
