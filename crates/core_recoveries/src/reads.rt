//! What a recovery reads: the slots of a log, and the sectors that its records name. Each law is the contract of a public function.

ghost use Rattle.core_recoveries.specs.Reads.{EarlyLoadsAreRead, FailedLoadsAreEvents, FailedLooksAreEvents, LoadsAreNone, LooksAreEvents, NamesFollow};

use core_laws::one_recovery_is_under_way;

/// From each moment of a run a Load is none, where what is read once all is read replays as the records of the world. Each but the last has what is asked.
pub fn loads_are_none()
    ensures load { LoadsAreNone }
    ensures early { EarlyLoadsAreRead }
{}

/// Where records replay as those of the world, which are of sectors that a replay may change, they name each sector that these name, or the replay changes nothing of it.
pub fn names_follow()
    ensures names { NamesFollow }
{}

/// From each moment of a run with a good world a Look is Look where the recovery is the world's, and none where it can't end: the event may happen, leads to a world of the next moment, and
/// leaves the history as it was. What the recovery wants written is what a replay makes of the sector in the world, and nothing where the sector has no version any more.
pub fn looks_are_events()
    ensures look { LooksAreEvents }
{
    one_recovery_is_under_way();
}

/// One of these that fails is Fail of its server, and none where it is the host's, since it is over then.
pub fn failed_reads_are_events()
    ensures load { FailedLoadsAreEvents }
    ensures look { FailedLooksAreEvents }
{}
