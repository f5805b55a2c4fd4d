// What leaves a kept plan what it is, and what an outcome is for.
ghost use Rattle.kept_plans.specs.Keeping.{AKeptPlanStays, AnAcknowledgedWriteLeavesIt};
ghost use Rattle.kept_plans.specs.Outcomes.{AnOutcomeIsCommitted, ItsMovesAreMade};

use flight_laws::moved_writes_are_the_cores;

/// A kept plan stays that of its server while the line under way and what it may use of the cache stay.
pub fn a_kept_plan_stays()
    ensures kept { AKeptPlanStays }
{}

/// Both stay when a write of the server is acknowledged.
pub fn an_acknowledged_write_leaves_it()
    ensures kept { AnAcknowledgedWriteLeavesIt }
{}

/// An outcome that is the core's for each sector is the one that a server's commit takes, and its moves make of the writes in flight what the core's commit makes of them.
pub fn outcomes_are_committed()
    ensures committed { AnOutcomeIsCommitted }
    ensures moves { ItsMovesAreMade }
{
    moved_writes_are_the_cores();
}
