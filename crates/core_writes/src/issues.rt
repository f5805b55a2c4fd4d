//! Writes that are issued. Each law is the contract of a public function.

ghost use Rattle.core_writes.specs.Issues.{IssuesAreEvents};

use core_laws::{each_key_stands_once, leases_last, one_recovery_is_under_way};
use sector_world::every_event;

/// From each moment of a run with a good world an Issue in place is Issue, or IssueBytes where the sector has no version, one of a block of a replay is Replay, and one of a
/// seal is none: the event may happen, leads to a world of the next moment with the same journals, and leaves the history as it was. What is issued lies in no log.
pub fn issues_are_events()
    ensures issue { IssuesAreEvents }
{
    each_key_stands_once();
    leases_last();
    one_recovery_is_under_way();
    every_event();
}
