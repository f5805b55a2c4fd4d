//! The writes in flight on behalf of dead servers, over every run. Each law is the contract of a public function with an empty body.

ghost use Rattle.core_facts.specs.Rescues.{RescuesAreByHolders, RescuesAreUnwritten};

use core_laws::leases_last;

/// Over every run from an opening, over the logs of a disk, a write of a recovery in flight that is in time is by the holder of the log on whose behalf it is, whose recovery is of
/// that log, or who is Dead since. One of the present mount of its server is of its recovery, and isn't acknowledged for it; so none is left once a recovery ends.
pub fn rescues_are_of_who_holds_the_log()
    ensures holder { RescuesAreByHolders }
    ensures unwritten { RescuesAreUnwritten }
{
    leases_last();
}
