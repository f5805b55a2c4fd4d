//! What servers have cached of free sectors. Each law is the contract of a public function with an empty body.

ghost use Rattle.core_commits.specs.Zeros.{EventsKeepZeros, FreeSectorsAreZeros, RunsKeepZeros, StartsHaveNoPages};

/// A page of a free sector is zeros, or none: so it is at the start, and each event of the theorem on sectors keeps it, as it writes such a sector only with its bytes, which makes it one
/// that isn't free. So what servers of the core have cached of a free sector without a version is zeros.
pub fn free_sectors_stay_zeros()
    ensures start { StartsHaveNoPages }
    ensures events { EventsKeepZeros }
    ensures runs { RunsKeepZeros }
    ensures cached { FreeSectorsAreZeros }
{}
