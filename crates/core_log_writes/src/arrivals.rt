//! Writes of a server's own log that arrive in time. Each law is the contract of a public function.

ghost use Rattle.core_log_writes.specs.Arrivals.{LeftLogsGrow, LiveLogsGrow};

use core_facts::stale_writes_are_late;
use core_laws::{leases_last, writes_stand_once};

/// From each moment of a run with a good world a write of a server's own log that arrives in time is Reach: the operations whose records end at the log's end on the disk are durable then. Where it
/// is of the server's present mount it is Ack behind that: those whose records end at the last number that is acknowledged without a gap are known to be durable; else its server is dead since. The
/// events may happen, lead to a world of the next moment, whose journal has the sector in its slot, and leave the history as it was.
pub fn log_writes_reach_the_disk()
    ensures live { LiveLogsGrow }
    ensures left { LeftLogsGrow }
{
    leases_last();
    writes_stand_once();
    stale_writes_are_late();
}
