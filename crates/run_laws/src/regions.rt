//! Which sectors a run writes. Each law is the contract of a public function with an empty body.

ghost use Rattle.run_laws.specs.Regions.{Begins, FreshPutsAreOnDisk, LogsAndRecoveriesStayOnDisk, OthersAreZero, OthersStay, PutsStayOnDisk, WritesStayOnDisk};

/// Over every run over the logs of a disk of at most 64 segments each write of a log or of a recovery is of a sector in a region of the disk. Where each line that
/// clears a block or commits makes only such sectors dirty, so is each write in flight and each put of the record; and a sector in no region is as it was at first.
pub fn only_regions_are_written()
    ensures logs { LogsAndRecoveriesStayOnDisk }
    ensures flights { WritesStayOnDisk }
    ensures puts { PutsStayOnDisk }
    ensures others { OthersStay }
{}

/// The opening's puts on a fresh disk are of sectors in its regions. So over a run from it whose lines stay on the disk each sector in no region is zero.
pub fn a_fresh_disk_keeps_its_regions()
    ensures puts { FreshPutsAreOnDisk }
    ensures others { OthersAreZero }
{}

/// There is a run over a fresh disk, in which a line passes the gate and begins, whose lines stay on the disk.
pub fn a_run_meets_the_premise()
    ensures { Begins }
{}
