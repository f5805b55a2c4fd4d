//! Moments at which what the laws ask is met.

ghost use Rattle.core_log_marks.specs.Examples.{ALastRecordIsRead, AMountIsAccountedFor, FirstMomentsAreAccounted};

use crate::accounts::{
    accounts_begin, accounts_stay, commits_are_accounted_for, mounts_are_accounted_for,
};
use crate::keeping::reports_are_of_journals;
use crate::records::last_records_are_read;
use core_readings::logs_begin_beside;
use core_world::first_moments_are_worlds;
use ring_definitions::{a_log_has_one_end, good_logs_stay_good};
use sector_world::every_event;

/// A server mounts over a zero log, in a world whose history is empty; behind that it changes a sector, or it does something that has no record, or another server mounts: each law is
/// met, and its journal accounts for it.
pub fn a_mount_is_accounted_for()
    ensures { AMountIsAccountedFor }
{
    first_moments_are_worlds();
    every_event();
    a_log_has_one_end();
    mounts_are_accounted_for();
    commits_are_accounted_for();
    accounts_stay();
}

/// Of a log of two records, which came, what the law on last records asks is met.
pub fn a_last_record_is_read()
    ensures { ALastRecordIsRead }
{
    good_logs_stay_good();
    a_log_has_one_end();
    last_records_are_read();
}

/// Behind an opening, where no server is mounted yet and the history is of lines, all that the laws on what is kept ask of a moment is met.
pub fn first_moments_are_accounted()
    ensures { FirstMomentsAreAccounted }
{
    logs_begin_beside();
    accounts_begin();
    reports_are_of_journals();
}
