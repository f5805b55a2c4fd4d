//! Writes of a server's own log that fail. Each law is the contract of a public function.

ghost use Rattle.core_log_writes.specs.Failures.{NewLogsFail, OldLogsFail};

use core_facts::stale_writes_are_late;
use core_laws::{leases_last, writes_stand_once};

/// From each moment of a run with a good world a write of a server's own log that fails in time is Fail of its server, and where it leaves the new sector Reach before that: what stands whole in
/// the log then is durable, and none of it is known to be. The events may happen, lead to a world of the next moment, and leave the history as it was.
pub fn log_writes_fail()
    ensures old { OldLogsFail }
    ensures new { NewLogsFail }
{
    leases_last();
    writes_stand_once();
    stale_writes_are_late();
}
