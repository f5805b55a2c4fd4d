//! Writes of a replay that fail in time. Each law is the contract of a public function.

ghost use Rattle.core_recoveries.specs.Failures.{HostRescuesFail, HostWritesFail, RescuesFail};

use core_facts::{rescues_are_of_who_holds_the_log, who_holds_a_log_recovers_it};
use core_laws::{leases_last, writes_stand_once};
use core_world::ticks_are_events;

/// From each moment of a run with a good world a write of a recovery that fails in time, behind the logs, is Break, or BreakNew where it leaves the new sector: it may happen, leads to a
/// world of the next moment, and leaves the history as it was. The recovery of a server can't end then. Of the host it is over then: so one that leaves the new sector is BreakNew, and one
/// that leaves the old one may be none.
pub fn rescues_fail()
    ensures fail { RescuesFail }
    ensures new { HostRescuesFail }
    ensures host { HostWritesFail }
{
    ticks_are_events();
    leases_last();
    writes_stand_once();
    rescues_are_of_who_holds_the_log();
    who_holds_a_log_recovers_it();
}
