//! What stands of the logs, from step to step. Each law is the contract of a public function.

ghost use Rattle.core_log_steps.specs.Steps.{FirstMomentsHaveLogRoom, LogRoomIsRoom, LogsGoOnBeside, LogsStandAlong, LogsStandAtFirst, LogsStandBehindOpenings, RunsHaveJournals, StandingLogsAreOpen};

use core_journals::logs_stand_good;
use core_laws::{leases_last, the_opening_puts_the_disk};
use core_readings::logs_are_open;
use core_transcripts::{each_line_is_answered_once, read_scripts_have_own_numbers};
use core_world::first_moments_are_worlds;
use script_definitions::what_is_read_is_in_the_grammar;

/// At the first moment of a run of a script that was read a zero log has room for all numbers that a ring may take, at each line of its server; and that is more room than the laws of steps
/// ask for.
pub fn logs_have_room()
    ensures first { FirstMomentsHaveLogRoom }
    ensures enough { LogRoomIsRoom }
{
    what_is_read_is_in_the_grammar();
}

/// At each step of a run each log stands at the next moment as the journal has it that is named, and has room there, where both were so before. One thing of the moment before is asked for that
/// isn't of the core alone: the record of a line that is planned to its end may stand in a log. So at each moment the log of a dead server whose lease isn't over has nothing of a seal.
pub fn logs_go_on()
    ensures step { LogsGoOnBeside }
    ensures opened { StandingLogsAreOpen }
{
    logs_are_open();
    leases_last();
    each_line_is_answered_once();
    read_scripts_have_own_numbers();
}

/// So it is over a whole run, with the journals that are named step by step, from any moment on at which the logs stand; and they stand at the first moment where the
/// logs of the servers are zero, as behind each opening. For each run there are such journals.
pub fn logs_stand_along_runs()
    ensures along { LogsStandAlong }
    ensures named { RunsHaveJournals }
    ensures first { LogsStandAtFirst }
    ensures opening { LogsStandBehindOpenings }
{
    logs_go_on();
    logs_have_room();
    logs_stand_good();
    first_moments_are_worlds();
    the_opening_puts_the_disk();
}
