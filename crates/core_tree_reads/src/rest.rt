//! From the first block that the host reads of the tree on a run is at rest. Each law is the contract of a public function.

ghost use Rattle.core_tree_reads.specs.AtRest.{NothingIsDoneWhileReading, OnlyReadingHappens, TreesAreReadAtRest};

use core_transcripts::each_line_is_answered_once;

/// Over every run of a script whose lines have their own numbers, where the host has begun to read the tree every line is answered, every server is off and has none under way, nothing is in
/// flight, and nobody recovers anything.
pub fn trees_are_read_at_rest()
    ensures rest { TreesAreReadAtRest }
{
    each_line_is_answered_once();
}

/// From then on the host reads on, says lines of the tree and the end, and moments pass; no other event may happen. So neither the disk nor the history that the lines said tell changes any
/// more, and the record has nothing more but notes, lines of the tree and the end.
pub fn nothing_is_done_while_reading()
    ensures only { OnlyReadingHappens }
    ensures later { NothingIsDoneWhileReading }
{
    each_line_is_answered_once();
}
