//! What else stands beside a moment, from step to step. Each law is the contract of a public function.

ghost use Rattle.core_run_reports.specs.Laws.{FurtherStays};

use core_commit_steps::records_of_lines_fit;
use core_facts::stale_writes_are_late;
use core_line_steps::lines_under_way_are_numbered;
use core_log_marks::{
    accounts_stay, commits_are_accounted_for, mounts_are_accounted_for, reports_are_of_journals,
    standing_is_durable,
};
use core_log_steps::{logs_go_on, steps_name_these_journals};
use core_order::logs_name_versions;
use headline_histories::{logs_of_servers_that_are_off_go_on, worlds_keep_what_they_began_with};

/// What else stands beside a moment goes on at each step of a run: the room in each log, that last operations are settled, how journals account for operations, what recoveries have read, which
/// versions records name, and what the world began with.
pub fn what_stands_further_goes_on()
    ensures further { FurtherStays }
{
    lines_under_way_are_numbered();
    records_of_lines_fit();
    steps_name_these_journals();
    logs_go_on();
    stale_writes_are_late();
    reports_are_of_journals();
    logs_name_versions();
    worlds_keep_what_they_began_with();
    logs_of_servers_that_are_off_go_on();
    mounts_are_accounted_for();
    commits_are_accounted_for();
    accounts_stay();
    standing_is_durable();
}
