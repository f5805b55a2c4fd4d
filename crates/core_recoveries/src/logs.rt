//! What recoveries ask of the logs, by what stands beside a world. Each law is the contract of a public function.

ghost use Rattle.core_recoveries.specs.Logs.{LogsGiveWhatIsAsked, RecoveriesGoOnByLogs, SealsArriveByLogs, SealsFailByLogs};

use crate::seals::seals_are_of_journals;
use crate::steps::recoveries_go_on;
use core_laws::{
    a_recovery_ends_once_it_is_done, leases_last, one_recovery_is_under_way, who_rests_has_nothing,
};
use core_readings::{finished_logs_rest, last_loads_are_read, resting_is_replayed};

/// What is asked of the logs where a slot is read, and where a recovery ends, follows where the logs stand as the core alone has them, seals come behind the replay, and what is to be replayed
/// is of regions that a replay changes. So each Recover, Load, Look and Finish leads on by these.
pub fn recoveries_go_on_by_logs()
    ensures asked { LogsGiveWhatIsAsked }
    ensures steps { RecoveriesGoOnByLogs }
{
    last_loads_are_read();
    finished_logs_rest();
    resting_is_replayed();
    one_recovery_is_under_way();
    who_rests_has_nothing();
    a_recovery_ends_once_it_is_done();
    recoveries_go_on();
}

/// A write of a seal that arrives in time, or fails, leaves the journals as they are, where the logs stand as the core alone has them: it lies in the log of a dead server, and is of a number
/// behind the end of its journal.
pub fn seals_go_on_by_logs()
    ensures arrive { SealsArriveByLogs }
    ensures fail { SealsFailByLogs }
{
    leases_last();
    seals_are_of_journals();
}
