//! How long the leases of the core's servers last, and the writes that are issued under them, over every run. Each law is the contract of a public function
//! with an empty body.

ghost use Rattle.core_laws.specs.Leases.{LeasesLast, LeasesEnd, WritesLast, WritesAreInTime, WritesEnd};

/// Over every run from an opening the lease of a server that is Up ends at most one tick before one that would begin now, and that of any server no later, since
/// no Tick comes before a lease that can be renewed is. Over a disk these are at least 29 ticks from now, and at most 30.
pub fn leases_last()
    ensures last { LeasesLast }
    ensures end { LeasesEnd }
{}

/// Over every run from an opening a write in flight of the present mount of a server that is Up, or of the host, may arrive in time to the margin before these
/// ends, and any write no longer: over a disk for at least 14 ticks more, and for at most 15. So only a write of an earlier mount, or of a server that isn't Up
/// any more, comes late.
pub fn writes_last()
    ensures last { WritesLast }
    ensures timely { WritesAreInTime }
    ensures end { WritesEnd }
{}
