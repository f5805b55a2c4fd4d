//! Which versions the records name that stand in logs. Each law is the contract of a public function.

ghost use Rattle.core_order.specs.Versions.{VersionsAreNamed, VersionsBegin, VersionsStay};

use core_journals::logs_read_as_their_journals;
use core_laws::leases_last;

/// Where the records that a journal began with and those appended since name versions from 1 on, so does each record that stands on the disk. So it is at first over the disk of an opening, and
/// each step keeps it whose journals go on: a journal begins as before, and what more it has isn't given up in the world; or it begins anew, behind what stood in the log of a server that was off. For
/// what isn't given up is of the world's history, along which versions rise.
pub fn logs_name_versions()
    ensures named { VersionsAreNamed }
    ensures begin { VersionsBegin }
    ensures stay { VersionsStay }
{
    leases_last();
    logs_read_as_their_journals();
}
