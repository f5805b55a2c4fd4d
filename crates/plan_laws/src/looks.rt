//! Laws of where a plan looks: over a disk that is the picture of a tree only at inodes and blocks that the disk has; what is at hand of the sectors
//! that it looks at decides what it comes to; and it edits only what it looked at. Each is the contract of a public function with an empty body. It
//! stands on the definitions and laws of plans.

ghost use Rattle.disk_definitions.specs.Plans.{Plan};
ghost use Rattle.plan_laws.specs.Inside.{PlansLookInside, MeetsWhereItLooks};
ghost use Rattle.plan_laws.specs.Looked.{EditsAreLookedAt};

/// Over the disk of a tree, with segments of it at hand, the plan of an operation looks only at inodes and at blocks of directories that the disk
/// has.
pub fn plans_look_inside()
    ensures inside { PlansLookInside }
{}

/// Where what is at hand of the sectors that a computation looks at is the disk's, it has its value over the disk, or needs the first of them that
/// isn't at hand. What is at hand of other sectors counts for nothing.
pub fn what_is_at_hand_decides()
    ensures met { MeetsWhereItLooks Plan }
{}

/// Over whatever disk, each sector with a version that a finished plan edits is one that the plan looked at. Sectors of file bytes have no version:
/// they are written whole, and looked at only where some of their bytes stay.
pub fn edits_are_looked_at()
    ensures looked { EditsAreLookedAt }
{}
