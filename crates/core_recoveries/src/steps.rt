//! All events of recoveries that are shown here, as the step law says it.

ghost use Rattle.core_recoveries.specs.Steps.{RecoveriesGoOn};

use crate::begins::begins_are_events;
use crate::ends::finishes_lead_on;
use crate::reads::{failed_reads_are_events, loads_are_none, looks_are_events};
use core_laws::{one_recovery_is_under_way, who_rests_has_nothing};
use ring_definitions::good_logs_stay_good;

/// From a good world of a moment of a run each Recover, Load, Look and Finish leads on: by events that may happen, to a world of the next moment, whose history has the entry that tells of an
/// end. Premises beside what is asked of the logs are that cleared blocks are free and that logs have room; both stay so. The log of a dead server ends no further than a seal behind its
/// ring, so a recovery leaves the room that there was.
pub fn recoveries_go_on()
    ensures steps { RecoveriesGoOn }
{
    begins_are_events();
    loads_are_none();
    looks_are_events();
    failed_reads_are_events();
    finishes_lead_on();
    good_logs_stay_good();
    one_recovery_is_under_way();
    who_rests_has_nothing();
}
