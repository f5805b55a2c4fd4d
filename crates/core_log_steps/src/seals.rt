//! That a seal comes behind the replay, from step to step. Each law is the contract of a public function.

ghost use Rattle.core_log_steps.specs.Seals.{ReplayedStay, SealsGoOnBeside};

use crate::steps::logs_go_on;
use core_laws::leases_last;

/// What is in place of the log of a dead server whose lease is over stays so, by whatever events may happen in the theorem on sectors: nothing more of the log is durable then, no operation of
/// it is done, and versions rise. Where the log is recovered and its server mounts again it has a later lease.
pub fn replayed_logs_stay_replayed()
    ensures { ReplayedStay }
{}

/// At each step of a run a seal comes behind the replay at the next moment, with the journals that are named, beside whatever good world the step leads to.
pub fn seals_go_on()
    ensures { SealsGoOnBeside }
{
    replayed_logs_stay_replayed();
    logs_go_on();
    leases_last();
}
