//! The journals that the step law over runs names go on as the order of writes asks, and the logs of servers that are off keep the records of their last mount: the two laws of steps that the headline over runs asks
//! beside the step law. Each law is the contract of a public function. It holds no code and stands on what stands beside a moment of a run, on how journals account for operations, and on the logs of servers that are off.
#![tactic(auto)]

ghost use Rattle.headline_runs.specs.Along.{NamedJournalsGoOn, OffRecordsGoOn};

use core_commit_steps::records_of_lines_fit;
use core_facts::stale_writes_are_late;
use core_line_steps::lines_under_way_are_numbered;
use core_log_marks::{
    accounts_stay, commits_are_accounted_for, logs_keep_what_is_durable, mounts_are_accounted_for,
    reports_are_of_journals, standing_is_durable,
};
use core_log_steps::{logs_go_on, steps_name_these_journals};
use core_order::logs_name_versions;
use headline_histories::{logs_of_servers_that_are_off_go_on, worlds_keep_what_they_began_with};

/// At each step of a run the journals that the step law names go on as the order of writes asks: the log that a server had at its mount stays what it was, each record that it has more is of an operation behind those that are given up, and
/// a mount begins with what the disk has.
pub fn named_journals_go_on()
    ensures go_on { NamedJournalsGoOn }
{
    lines_under_way_are_numbered();
    records_of_lines_fit();
    steps_name_these_journals();
    logs_go_on();
    stale_writes_are_late();
    reports_are_of_journals();
    logs_name_versions();
    worlds_keep_what_they_began_with();
    logs_of_servers_that_are_off_go_on();
    mounts_are_accounted_for();
    commits_are_accounted_for();
    accounts_stay();
    standing_is_durable();
}

/// At each step the logs of servers that are off keep the records of their last mount: who was off keeps them, and who leaves, by an unmount or a close, has them, as all that it did is durable then. A recovered server has none to keep.
pub fn off_records_go_on()
    ensures go_on { OffRecordsGoOn }
{
    logs_of_servers_that_are_off_go_on();
    logs_keep_what_is_durable();
    standing_is_durable();
}
