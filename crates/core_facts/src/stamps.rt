//! The writes in flight, and the leases under which they were issued, over every run. Each law is the contract of a public function with an empty body.

ghost use Rattle.core_facts.specs.Stamps.{RecoveredAreOver, StaleAreLate, StampsAreWithinLeases, WhoLivesHasFreshWrites};

use core_laws::leases_last;

/// Over every run from an opening a write of an earlier mount is late, unless its server is Dead: who is recovered had its lease over before, and none of its writes has a later stamp
/// than that. So what is in time of a server that isn't Dead is of its present mount.
pub fn stale_writes_are_late()
    ensures late { StaleAreLate }
    ensures fresh { WhoLivesHasFreshWrites }
    ensures within { StampsAreWithinLeases }
    ensures over { RecoveredAreOver }
{
    leases_last();
}
