//! Recoveries that begin. Each law is the contract of a public function.

ghost use Rattle.core_recoveries.specs.Begins.{BeginsAreEvents};

use core_world::ticks_are_events;

/// From each moment of a run a Recover is Begin, whether another held the log before or none: it may happen, leads to a world of the next moment, and leaves the history as it was.
pub fn begins_are_events()
    ensures begin { BeginsAreEvents }
{
    ticks_are_events();
}
