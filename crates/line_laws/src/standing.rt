//! The law of plans over disks: over sectors and bitmaps of a disk that stands for a tree, the plan of an operation needs the first sector that isn't
//! at hand, or it answers as the tree does, with changes that make a record, and the disk with these and with its bytes stands for the tree after the
//! operation. It is the contract of a public function with an empty body. It stands on the laws of plans, of records and of trees.

ghost use Rattle.line_laws.specs.Laws.{PlansStand};

/// Over a disk that stands for a tree, with versions below their bound, the plan of every operation with a path: it needs a sector exactly where one
/// that it looks at isn't at hand, and then the first of them; it lacks segments only where not all are held, and has a block cleared only where it
/// was never a directory's and isn't cached as zero; and where it is done, its reply is the tree's, its changes are none or a record, and the disk
/// with them and with its bytes stands for the tree after the operation.
pub fn plans_stand_on_the_disk()
    ensures stands { PlansStand }
{}
