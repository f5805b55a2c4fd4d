//! The laws of plans as the code has them: what the definitions plan over cached sectors of a disk that stands for a tree, said of the plan that the
//! code hands out. Each is the contract of a public function with an empty body. The crates that plan have it as a clause of their calls. It stands on
//! the laws of plans over disks.

ghost use Rattle.code_plan_laws.specs.CodeStands.{PlannedStands, PlannedIsExact, HasNextVersions, HoldsSegments};

/// The code's plan of every operation with a path, over cached sectors and held segments of a disk that stands for a tree, stands as the definitions'
/// does.
pub fn what_is_planned_stands()
    ensures stands { PlannedStands }
{}

/// It needs a sector, lacks segments or has a block cleared exactly where the tree and what is at hand ask for it.
pub fn what_is_planned_is_exact()
    ensures exact { PlannedIsExact }
{}

/// What a plan changes over sectors and bitmaps of a disk has versions that have a next one, and a disk has no more than 64 segments.
pub fn what_is_changed_has_a_next_version()
    ensures versions { HasNextVersions }
    ensures segments { HoldsSegments }
{}
