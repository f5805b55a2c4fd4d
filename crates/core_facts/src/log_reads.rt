//! What is read of logs, over every run. Each law is the contract of a public function with an empty body.

ghost use Rattle.core_facts.specs.LogReads.{MountsReadTheDisk, RecoveriesReadTheDisk};

use core_laws::leases_last;

/// Over every run from an opening, over the logs of a disk, each slot that a mount has read of its log is the disk's, and so is each that a recovery at work has read, but where it has
/// sealed the log itself: no write of the log from before is in time any more.
pub fn slots_read_are_the_disks()
    ensures mount { MountsReadTheDisk }
    ensures recovery { RecoveriesReadTheDisk }
{
    leases_last();
}
