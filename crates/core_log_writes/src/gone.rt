//! Writes of a server's own log that go without a trace. Each law is the contract of a public function.

ghost use Rattle.core_log_writes.specs.Gone.{LateLogsAreNone, LostLogsAreNone};

use core_laws::writes_stand_once;

/// From each moment of a run a write of a server's own log that comes too late, or that is lost with its server, is none on the side of the theorem on sectors, where the world has
/// nothing in flight at its sector: the same world is one of the next moment, with the same journals.
pub fn log_writes_are_gone()
    ensures late { LateLogsAreNone }
    ensures lost { LostLogsAreNone }
{
    writes_stand_once();
}
