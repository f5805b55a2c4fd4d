//! Laws of nodes by plans, whatever naming the disk has: a node that stays keeps its inode, a node that comes takes a free one and has it alone, and what
//! takes room or gives it back has a segment alone; over paths without links, and over lines. Each law is the contract of a public function with an empty
//! body. Crates that follow nodes along histories rest on them. They stand on the laws of plans, of moves and of lines.

ghost use Rattle.line_laws.specs.Nodes.{NamingsAgree, NodesKeepInodes, NewNodesTakeFreeInodes, NewNodesAreHeldAlone, RoomTakesASegment};
ghost use Rattle.line_laws.specs.Nodes.{LineNodesKeepInodes, NewNodesOfLinesTakeFreeInodes, NewNodesOfLinesAreHeldAlone, RoomOfLinesTakesASegment};

/// All namings of one disk and one tree whose nodes are reached have the same inodes.
pub fn a_disk_tells_the_inodes_of_its_nodes()
    ensures agree { NamingsAgree }
{}

/// Over the disk of a tree, a node that stays has the same inode after a finished plan, whatever naming the disk has then. So it is of a line.
pub fn nodes_that_stay_keep_their_inodes()
    ensures plans { NodesKeepInodes }
    ensures lines { LineNodesKeepInodes }
{}

/// Over the disk of a tree, a node that comes by a finished plan takes an inode that was free, whatever naming the disk has then; the inode goes under its
/// own lock, which the plan holds alone. So it is of a line.
pub fn new_nodes_are_held_alone()
    ensures free { NewNodesTakeFreeInodes }
    ensures alone { NewNodesAreHeldAlone }
    ensures lines_free { NewNodesOfLinesTakeFreeInodes }
    ensures lines_alone { NewNodesOfLinesAreHeldAlone }
{}

/// Over the disk of a tree, a finished plan by which a node comes or goes, or has more blocks or fewer, holds alone the lock of a segment of the disk. So it
/// is of a line.
pub fn room_takes_a_segment()
    ensures plans { RoomTakesASegment }
    ensures lines { RoomOfLinesTakesASegment }
{}
