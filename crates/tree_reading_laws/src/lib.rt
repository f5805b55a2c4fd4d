//! What the host reads of the tree at the end of a run is the tree for which the disk stands. Each law is the contract of a public function with an empty body. It stands on the laws of disks
//! that stand for trees, and on the core's reading.
#![tactic(auto)]

ghost use Rattle.tree_reading_laws.specs.Reading.{ReadLinesAreTheTrees};

/// Where a disk stands for a tree, each block that the host has read is the disk's, and it needs no sector any more, the lines that it says are those of the tree: as many, and in their order.
pub fn the_lines_read_are_the_trees()
    ensures lines { ReadLinesAreTheTrees }
{}
