//! Laws of plans over what a disk says, where it is the picture of a tree: a plan goes by what it looks at, a walk over sectors leads where the
//! tree's does, and a finished plan, of names, of looks or of file bytes, answers as the tree has it, with edits whose disk is that of the tree
//! after the operation. Each is the contract of a public function with an empty body. The crates that plan rest on them, and the laws of what
//! plans look at, take and hold cite the lemmas of `proofs/`. It stands on the definitions of plans and on the laws of changes, picks and trees.

ghost use Rattle.disk_definitions.specs.Walks.{Walked};
ghost use Rattle.disk_definitions.specs.Plans.{Plan};
ghost use Rattle.plan_laws.specs.Looking.{GoesOn, MeetsItsValue, GoesByWhatItLooksAt, SegmentsAreLookedAt};
ghost use Rattle.plan_laws.specs.Walking.{SearchFindsTheLeast, WalksLeadAsTheTreeDoes};
ghost use Rattle.plan_laws.specs.NamesPlanned.{CreateIsPlanned, MkdirIsPlanned, SymlinkIsPlanned, UnlinkIsPlanned, RmdirIsPlanned, LinkIsPlanned, RenameIsPlanned};
ghost use Rattle.plan_laws.specs.FilesPlanned.{StatIsPlanned, ListIsPlanned, ReadlinkIsPlanned, TimeIsPlanned, ReadIsPlanned, TruncateIsPlanned, WriteIsPlanned, FillIsPlanned, FilesStayFit};

/// A computation over sectors goes by what it looks at: over disks that say the same there it has the same value, and with sectors of a disk
/// at hand it has its value over the whole disk or needs the first of them that is missing.
pub fn plans_go_by_what_they_look_at()
    ensures on { GoesOn Walked Plan }
    ensures met { MeetsItsValue Plan }
    ensures framed { GoesByWhatItLooksAt Plan }
    ensures segments { SegmentsAreLookedAt Plan }
{}

/// A search of a directory's sectors finds the first place that passes. Over a disk that is the picture of a tree the walk of a path leads where
/// the tree's does, refusals too, and looks up its names in the same directories, in the same order.
pub fn walks_lead_as_the_tree_does()
    ensures search { SearchFindsTheLeast }
    ensures walks { WalksLeadAsTheTreeDoes }
{}

/// Over the disk of a tree the plan of an operation on names answers as the tree has it, refusal by refusal, and its edits lead to a disk of the
/// tree after the operation, by a naming that keeps the inodes of the nodes that stay. It lacks segments only where not all are held, and has a block cleared only where that may be needed.
pub fn names_are_planned_as_the_tree_has_them()
    ensures create { CreateIsPlanned }
    ensures mkdir { MkdirIsPlanned }
    ensures symlink { SymlinkIsPlanned }
    ensures unlink { UnlinkIsPlanned }
    ensures rmdir { RmdirIsPlanned }
    ensures link { LinkIsPlanned }
    ensures rename { RenameIsPlanned }
{}

/// Over the disk of a tree the plan of an operation that only looks answers as the tree has it, refusal by refusal, and changes nothing.
pub fn looks_are_planned_as_the_tree_has_them()
    ensures stat { StatIsPlanned }
    ensures list { ListIsPlanned }
    ensures readlink { ReadlinkIsPlanned }
    ensures time { TimeIsPlanned }
{}

/// Over the disk of a tree the plan of `read` shows bytes that the tree's cells allow, from its offset on and none past the end, or refuses as
/// the tree does. It changes nothing.
pub fn reads_are_planned_as_the_tree_has_them()
    ensures read { ReadIsPlanned }
{}

/// Over the disk of a tree whose files fit into their blocks, the plan of `truncate` leaves the bytes before the new end, gives back the blocks
/// that the file no longer needs, and leads to a disk of the tree with the shorter file; or it refuses as the tree does.
pub fn truncates_are_planned_as_the_tree_has_them()
    ensures truncate { TruncateIsPlanned }
{}

/// Over the disk of a tree whose files fit into their blocks, the plan of `write` or `fill` puts its bytes over those that are there, takes the
/// blocks that a longer file needs, and leads to a disk of the tree with the file's new cells; or it refuses as the tree does, with no space
/// exactly where the tree has none. It lacks segments only where not all are held.
pub fn writes_are_planned_as_the_tree_has_them()
    ensures write { WriteIsPlanned }
    ensures fill { FillIsPlanned }
{}

/// No operation makes a file longer than its blocks reach.
pub fn files_stay_within_their_blocks()
    ensures fit { FilesStayFit }
{}
