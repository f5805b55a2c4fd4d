//! What the host has read of the tree, and which of its lines it has said. Each law is the contract of a public function.

ghost use Rattle.core_tree_reads.specs.Reads.{BlocksReadAreTheDisks, BlocksStayRead, LinesSaidAreRead};

use core_transcripts::each_line_is_answered_once;

/// Over every run of a script whose lines have their own numbers each block that the host has read of the tree is the disk's at every later moment, and is read once.
pub fn blocks_read_are_the_disks()
    ensures disk { BlocksReadAreTheDisks }
    ensures stay { BlocksStayRead }
{
    each_line_is_answered_once();
}

/// Over every run the lines of the tree that are said are the first of those that were read, as many as count as shown. Once one is said, or the end, no sector is needed any more; and with
/// the end all are said.
pub fn the_lines_said_are_read()
    ensures lines { LinesSaidAreRead }
{}
