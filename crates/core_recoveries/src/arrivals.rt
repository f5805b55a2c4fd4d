//! Writes of a replay that arrive in time. Each law is the contract of a public function.

ghost use Rattle.core_recoveries.specs.Arrivals.{RescuesArrive, RescuesAreOfWorlds};

use core_facts::{
    rescues_are_of_who_holds_the_log, stale_writes_are_late, who_holds_a_log_recovers_it,
};
use core_laws::{leases_last, writes_stand_once};
use core_world::ticks_are_events;

/// From each moment of a run with a good world the arrival in time of a write of a recovery, behind the logs, is Land: it may happen, leads to a world of the next moment, and leaves the
/// history as it was. For the recovery the sector is in place then, if its server goes on with it; one that can't end still can't, as it names a sector of which its server has
/// nothing in flight.
pub fn rescues_arrive()
    ensures arrive { RescuesArrive }
{
    ticks_are_events();
    leases_last();
    writes_stand_once();
    rescues_are_of_who_holds_the_log();
    who_holds_a_log_recovers_it();
    stale_writes_are_late();
}

/// The sector of such a write has a version still, as the world has nothing of bytes in flight on another's behalf; and the recovery that it is of is the world's, where its server is at work
/// and no call of it failed.
pub fn rescues_are_of_worlds()
    ensures world { RescuesAreOfWorlds }
{
    ticks_are_events();
    leases_last();
    writes_stand_once();
    rescues_are_of_who_holds_the_log();
    who_holds_a_log_recovers_it();
}
