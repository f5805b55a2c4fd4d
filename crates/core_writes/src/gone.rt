//! Writes that go without a trace. Each law is the contract of a public function.

ghost use Rattle.core_writes.specs.Gone.{LateAreEvents, LosesAreEvents};

use core_laws::writes_stand_once;

/// From each moment of a run a write that comes too late, or that is lost with its server, is Fade and FadeBytes, where the world has it: the events may happen, lead to a
/// world of the next moment, and leave the history as it was. So it is of every write, in place, of a recovery and of a log.
pub fn late_writes_are_gone()
    ensures late { LateAreEvents }
    ensures lose { LosesAreEvents }
{
    writes_stand_once();
}
