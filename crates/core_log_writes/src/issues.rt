//! Writes of a server's own log that are issued. Each law is the contract of a public function.

ghost use Rattle.core_log_writes.specs.Issues.{LogIssuesGoOn};

use core_laws::a_log_write_keeps_the_window;

/// From each moment of a run an Issue of a server's own log is none on the side of the theorem on sectors: the sector closes, and is on its way in the journal of the server, which goes on as a
/// log's does.
pub fn log_writes_are_issued()
    ensures { LogIssuesGoOn }
{
    a_log_write_keeps_the_window();
}
