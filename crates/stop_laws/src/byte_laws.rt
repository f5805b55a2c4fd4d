//! Bytes of files along histories of lines that are told on both sides: what a line keeps of known cells, what doubt is, what a recovery marks, and what a
//! stop leaves from known cells. Each law is the contract of a public function with an empty body. They stand on the histories of lines, on the laws of
//! bytes and of doubt, and on the theorem on sectors.

ghost use Rattle.stop_laws.specs.Along.{DoubtIsTheSameAlongLines};
ghost use Rattle.stop_laws.specs.Keeping.{LinesKeepBytes, ToldNumbersDoTheSame};
ghost use Rattle.stop_laws.specs.BytesStop.{AStopLeavesTheTree};
ghost use Rattle.stop_laws.specs.Known.{MarkedPartsHaveNoBytes, MarksKeepCellsKnown, AStopLeavesKnownCells};

/// Along each legal history of lines with new numbers that is told twice: where a recovery of a server leaves a sector of bytes in doubt by the theorem on
/// sectors, the rules on histories leave each part of a file that lies there in doubt. Of each operation it is asked that its entry is of the same server
/// and line and has its reply, bytes aside; that where the entry touches a node the operation uses this node's lock; that it looks at the bytes of each
/// sector under a lock that it uses; and that the file tree has the shape that the operations gave it.
pub fn doubt_is_the_same_along_lines()
    ensures same { DoubtIsTheSameAlongLines }
{}

/// Where a store says the shape of a tree and has its files' bytes, a cell in doubt allowing any, each line that finishes over it replies what the tree
/// answers, and its edits leave a store that says the shape of the tree after the operation and has the bytes of the tree after the entry.
pub fn lines_keep_bytes()
    ensures kept { LinesKeepBytes }
{}

/// An operation comes to the same with the number of directories' blocks that its reply tells, and where it tells none with that of the tree, as with any
/// number that isn't less than the tree's and with which this is its answer.
pub fn told_numbers_do_the_same()
    ensures told { ToldNumbersDoTheSame }
{}

/// At each moment of servers whose operations are lines: the disk with all logs replayed stands for each tree that has the shape of what recoveries of all
/// logs would leave, and whose cells name no other bytes than stand there; a cell in doubt allows any byte.
pub fn a_stop_leaves_the_tree()
    ensures stands { AStopLeavesTheTree }
{}

/// At the end of a recovery, by what it marks on both sides: no cell of a part of a file that lies in a sector in doubt is a byte any more; and where each
/// disk with what was known of bytes had the bytes of the tree's files, each disk with what is still known has those of the tree with these cells in doubt.
pub fn marks_keep_cells_known()
    ensures marked { MarkedPartsHaveNoBytes }
    ensures known { MarksKeepCellsKnown }
{}

/// At each moment of servers whose operations are lines, where cells are known after what recoveries of all logs would leave: the disk with all logs
/// replayed stands for the tree of that, a cell in doubt allowing any byte.
pub fn a_stop_leaves_known_cells()
    ensures stands { AStopLeavesKnownCells }
{}
