//! What the law of the order of writes asks is met. Each law is the contract of a public function.

ghost use Rattle.core_order.specs.Starting.{FirstMomentsStand, FirstWorldsCountMetadata, OpenedWorldsCountMetadata, OthersStayEmpty, RunsHaveWorlds};

use core_journals::logs_stand_good;
use core_laws::leases_last;
use core_readings::seals_come_behind;
use core_world::first_moments_are_worlds;

/// Over the disk of an opening all that is asked stands beside the first moment, since no server is mounted, nothing was done and all logs are zero; and the world counts what is metadata
/// where these sectors have versions, as the worlds of openings do (`opened_world`).
pub fn first_moments_stand()
    ensures stand { FirstMomentsStand }
    ensures count { FirstWorldsCountMetadata }
    ensures opened { OpenedWorldsCountMetadata }
{
    logs_stand_good();
    seals_come_behind();
    first_moments_are_worlds();
}

/// Over each disk of an opening there is a run with its worlds, in which something is witnessed.
pub fn a_run_has_worlds()
    ensures run { RunsHaveWorlds }
{
    first_moments_stand();
}

/// Over every run from the disk of an opening the logs of no server have no records: what is written into a log is of a server's own, or of that of a server that is recovered.
pub fn the_other_logs_stay_empty()
    ensures empty { OthersStayEmpty }
{
    leases_last();
}
