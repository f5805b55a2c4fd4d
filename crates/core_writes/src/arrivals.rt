//! Writes in place that arrive in time. Each law is the contract of a public function.

ghost use Rattle.core_writes.specs.Arrivals.{ArrivalsAreEvents};

use core_facts::stale_writes_are_late;
use core_laws::{leases_last, writes_stand_once};
use sector_world::every_event;

/// From each moment of a run with a good world the arrival in time of a write in place is Land, or LandBytes where the sector has no version: it may happen, leads to a world
/// of the next moment, and leaves the history as it was. What comes clean in the cache of its server comes clean in the world, where the log is acknowledged up to the mark of
/// a dirty sector that still has the block.
pub fn arrivals_are_events()
    ensures arrive { ArrivalsAreEvents }
{
    every_event();
    leases_last();
    writes_stand_once();
    stale_writes_are_late();
}
