//! Writes in place that fail. Each law is the contract of a public function.

ghost use Rattle.core_writes.specs.Failures.{FailuresAreEvents};

use core_laws::{leases_last, writes_stand_once};
use core_world::ticks_are_events;
use sector_world::every_event;

/// From each moment of a run with a good world a write in place that fails in time is Break, or BreakNew where it leaves the new sector, and BreakBytes or BreakBytesNew where
/// the sector has no version: it may happen, leads to a world of the next moment, and leaves the history as it was.
pub fn failures_are_events()
    ensures fail { FailuresAreEvents }
{
    every_event();
    leases_last();
    writes_stand_once();
    ticks_are_events();
}
