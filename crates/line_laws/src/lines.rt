//! Laws of lines whose paths may lead through symbolic links, over a disk that is the picture of a tree: a path leads over sectors where the tree's
//! does, an operation comes to the same, and its plan meets what the tree performs; a line looks inside the disk, its locks cover what it looks at,
//! edits, visits and changes, and its plan stands on the disk. Each is the contract of a public function with an empty body. It stands on the
//! definitions of lines, and on the laws of plans over paths without links.

ghost use Rattle.line_laws.specs.Resolutions.{ResolutionsLeadAsTheTreeDoes, LinesComeToWhatTheTreeHas};
ghost use Rattle.line_laws.specs.Covered.{LinesLookInside, LineLooksAreCovered, LineEditsAreCovered, LineNodesAreHeld, LineChangesAreHeldAlone};
ghost use Rattle.line_laws.specs.OnDisk.{LinesStandOnDisks};
ghost use Rattle.line_laws.specs.Places.{ResolvedPathsArePlaces};
ghost use Rattle.line_laws.specs.Planned.{LinesArePlannedAsTheTreePerforms, LinesStayAllowed};

/// Over the disk of a tree a path leads where it leads in the tree: to the same path without links, with the kind of the node that is there, or to
/// the same refusal, through the directories and links of the same trail. So an operation comes to the same operation over paths without links, or
/// to the same refusal.
pub fn resolutions_lead_as_the_tree_does()
    ensures leads { ResolutionsLeadAsTheTreeDoes }
    ensures comes { LinesComeToWhatTheTreeHas }
{}

/// In every tree a walk through links leads to a path of which each name but the last is a directory's, and which leads, without links, to what was
/// found. It is refused by a name that isn't there, a node that is no directory, or a link too many, and in no other way.
pub fn resolved_paths_are_places()
    ensures places { ResolvedPathsArePlaces }
{}

/// Over the disk of a tree whose files fit into their blocks, the plan of a line answers as the tree does when it performs the operation, links
/// followed, and its edits lead to a disk of the tree after it, by a naming that keeps the inodes of the nodes that stay. Whatever the disk, a line that
/// may be asked of a plan comes to an operation that may.
pub fn lines_are_planned_as_the_tree_performs()
    ensures planned { LinesArePlannedAsTheTreePerforms }
    ensures allowed { LinesStayAllowed }
{}

/// Over the disk of a tree, with segments of it at hand, a line looks only at inodes and at blocks of directories that the disk has, and each sector
/// that it looks at is covered by one of its locks, in either mode, or is that of a segment at hand. So are the directories and links that its walks
/// go through.
pub fn looks_of_lines_are_inside_and_covered()
    ensures inside { LinesLookInside }
    ensures covered { LineLooksAreCovered }
{}

/// Over the disk of a tree, a finished line holds alone the lock of each sector that it edits, file bytes too, and of each node that is another in
/// the tree after it; and it holds, in either mode, each directory and link that its walks go through and each node that it visits by its reply.
pub fn locks_cover_lines()
    ensures edits { LineEditsAreCovered }
    ensures nodes { LineNodesAreHeld }
    ensures alone { LineChangesAreHeldAlone }
{}

/// Over a disk that stands for a tree, with versions below their bound, the plan of a line: it needs a sector exactly where one that it looks at, on
/// its walks too, isn't at hand, and then the first of them; it lacks segments only where not all are held, and has a block cleared only where it was
/// never a directory's and isn't cached as zero; and where it is done, its reply is that of the tree that performs the operation, its changes are none
/// or a record, and the disk with them and with its bytes stands for the tree after it.
pub fn lines_stand_on_disks()
    ensures stand { LinesStandOnDisks }
{}
