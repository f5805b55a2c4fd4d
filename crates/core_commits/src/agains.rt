//! What an Again of the core is in the theorem on sectors. Each law is the contract of a public function with an empty body.

ghost use Rattle.core_commits.specs.Agains.{AgainsReclaim, GrowthsAreNone, MovesAreNone};

/// An Again that reclaims is Reclaim, up to a number of an operation such that the oldest records of the ring name what its server's operations up to it change: what its server doesn't have
/// dirty of its own operations is in place. All ties go on but for the journals.
pub fn agains_reclaim()
    ensures reclaim { AgainsReclaim }
{}

/// An Again that begins the set anew or lets it grow is no event of the theorem on sectors.
pub fn agains_of_sets_are_none()
    ensures moved { MovesAreNone }
    ensures grown { GrowthsAreNone }
{}
