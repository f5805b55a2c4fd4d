//! Laws of the locks of a plan: they cover what it looks at, what it edits, and the nodes that it touches and changes. Each is the contract of a
//! public function with an empty body. The crates that plan and those that hold locks rest on them. It stands on the definitions of plans and on
//! their laws.

ghost use Rattle.plan_laws.specs.Locks.{LocksCover, WalksAreHeld};
ghost use Rattle.plan_laws.specs.Covers.{EditsAreCovered, LooksAreCovered, WalkedNodesAreHeld, ChangedNodesAreHeldAlone, BytesKeepOffDirectories};

/// Over whatever disk, the locks of a plan cover it: of an inode that it writes the node's lock is held alone, of a bit or a state the segment's,
/// and where it answers that an allocation found nothing each segment at hand. A look or a change of file bytes holds each directory in which its
/// path is looked up. What a plan writes into blocks isn't said here.
pub fn locks_cover_what_is_planned()
    ensures covered { LocksCover }
    ensures walks { WalksAreHeld }
{}

/// Over the disk of a tree, of each sector that a finished plan edits, file bytes too, the plan holds the covering lock alone: that of the node
/// whose sector it is, and of what is free that of its segment.
pub fn edits_are_covered()
    ensures covered { EditsAreCovered }
{}

/// Over the disk of a tree, each sector that a plan looks at is covered by one of its locks, in either mode, or is that of a segment at hand. A plan
/// that has a block cleared holds its locks already.
pub fn looks_are_covered()
    ensures covered { LooksAreCovered }
{}

/// Over the disk of a tree, a finished plan holds each directory in which the operation looks up a name, in either mode, and the one further node
/// that it touches by its reply.
pub fn walks_are_held()
    ensures held { WalkedNodesAreHeld }
{}

/// Over the disk of a tree, a finished plan holds each node alone that is another in the tree after the operation. Of an operation that changes file
/// bytes this is said where no file is longer than its blocks reach, and where the tree goes by the disk's number of small blocks that are or were a
/// directory's.
pub fn changed_nodes_are_held_alone()
    ensures alone { ChangedNodesAreHeldAlone }
{}

/// Over the disk of a tree, the file bytes of a finished plan go into small blocks that hold file bytes or nothing yet, never into one that is or
/// was a directory's.
pub fn bytes_keep_off_directories()
    ensures off { BytesKeepOffDirectories }
{}
