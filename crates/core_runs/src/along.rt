//! Steps and runs. Each law is the contract of a public function.

ghost use Rattle.std.specs.Prelude.{ℕ};
ghost use Rattle.core_definitions.specs.Runs.{State};
ghost use Rattle.core_run_ties.specs.Ties.{StandsFurther};
ghost use Rattle.core_runs.specs.Kept.{Related};
ghost use Rattle.core_world.specs.Journals.{Journal};
ghost use Rattle.core_runs.specs.Steps.{RunsAreKept, StepsAreKeptByParts};
ghost use Rattle.sector_world.specs.World.{World};

use core_commits::{
    fetches_and_clears_of_lines_are_events, free_sectors_stay_zeros, other_fetches_are_fail_or_none,
};
use core_histories::{
    answers_and_closes_are_told, commits_are_told, ends_of_recoveries_are_told,
    silent_steps_are_told,
};
use core_line_sets::sets_stay_of_the_disk;
use core_line_steps::{
    lines_move_under_held_locks, lines_under_way_are_numbered, numbers_stay_new,
    writes_in_place_stay_held,
};
use core_lives::{
    idle_events_keep_worlds, leaves_lead_on, lives_lead_on, mounts_lead_on, room_is_kept,
    steps_beside_the_events_keep_worlds, syncs_lead_on,
};
use core_log_writes::{log_writes_are_issued, log_writes_fail, log_writes_reach_the_disk};
use core_recoveries::{
    begins_are_events, failed_reads_are_events, finishes_lead_on, loads_are_none,
    logs_stay_free_of_writes, looks_are_events, recoveries_go_on_by_logs, rescues_arrive,
    rescues_fail, seals_go_on_by_logs,
};
use core_world::quiet_events_leave_logs;
use core_writes::{
    acknowledged_writes_stay_so, arrivals_are_events, failures_are_events, issues_are_events,
    late_writes_are_gone,
};
use line_histories::plans_over_sectors_are_framed;
use sector_world::every_event;
use stop_laws::events_keep_sight;

/// From a moment at which all stands beside, each step leads to the next by events of the theorem on sectors that may happen, with the journals that are named; the history goes on as the step
/// says; and all stands beside the next moment. So it is where each part does that is open still: the logs, the events of lines, what is dirty, and what recoveries keep.
pub fn steps_are_kept_by_parts()
    ensures kept { (first : World) → StepsAreKeptByParts (StandsFurther first) }
{
    idle_events_keep_worlds();
    steps_beside_the_events_keep_worlds();
    lives_lead_on();
    leaves_lead_on();
    syncs_lead_on();
    mounts_lead_on();
    room_is_kept();
    fetches_and_clears_of_lines_are_events();
    other_fetches_are_fail_or_none();
    issues_are_events();
    late_writes_are_gone();
    arrivals_are_events();
    failures_are_events();
    log_writes_are_issued();
    log_writes_reach_the_disk();
    log_writes_fail();
    begins_are_events();
    loads_are_none();
    failed_reads_are_events();
    looks_are_events();
    finishes_lead_on();
    recoveries_go_on_by_logs();
    rescues_arrive();
    rescues_fail();
    seals_go_on_by_logs();
    every_event();
    plans_over_sectors_are_framed();
    free_sectors_stay_zeros();
    events_keep_sight();
    quiet_events_leave_logs();
    logs_stay_free_of_writes();
    acknowledged_writes_stay_so();
    sets_stay_of_the_disk();
    numbers_stay_new();
    lines_under_way_are_numbered();
    writes_in_place_stay_held();
    lines_move_under_held_locks();
    silent_steps_are_told();
    answers_and_closes_are_told();
    ends_of_recoveries_are_told();
    commits_are_told();
}

/// So where each step keeps it, each run does.
pub fn runs_are_kept<Evidence>()
    ensures runs { (moment_of : Evidence → State) (world_of : Evidence → World) (journal_of : Evidence → ℕ → Journal) → RunsAreKept (Related moment_of world_of journal_of) }
{}
