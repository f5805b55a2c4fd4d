//! The one disk over which lines are planned. Each law is the contract of a public function with an empty body.

ghost use Rattle.core_commits.specs.Standing.{AllIsStood, TheDiskStands, WholeIsStood};

/// What any server has cached is of one disk, whatever the covers.
pub fn all_is_of_one_disk()
    ensures stood { AllIsStood }
    ensures whole { WholeIsStood }
{}

/// Where a world's history is of lines, the one disk with whole sectors stands for the shape of the tree to which it leads, by the naming by which the logical sectors do.
pub fn the_one_disk_stands()
    ensures stands { TheDiskStands }
{}
