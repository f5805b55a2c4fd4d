//! The lines of the tree that are said are the tree's, and whole transcripts. Each law is the contract of a public function.

ghost use Rattle.core_tree_reads.specs.Lines.{LinesSaidAreTheTrees, RunsOfReadScriptsSayWholeTranscripts, RunsSayWholeTranscripts};

use crate::reads::{blocks_read_are_the_disks, the_lines_said_are_read};
use core_transcripts::{read_scripts_are_numbered, records_are_transcripts};
use tree_reading_laws::the_lines_read_are_the_trees;

/// Over every run of a script whose lines have their own numbers, where the disk as it stands then stands for a tree, the lines of the tree that are said are the first of that tree's, and
/// with the end all of them.
pub fn the_lines_said_are_the_trees()
    ensures lines { LinesSaidAreTheTrees }
{
    blocks_read_are_the_disks();
    the_lines_said_are_read();
    the_lines_read_are_the_trees();
}

/// Over every run of a script whose lines have numbers of their own and whose host's lines ask what a host is asked, so of every script that was read, the lines said are a well-formed
/// transcript, the lines of the tree included, by faults that tell of each call that fails: where the disk stands for the tree to which the history leads that the lines said tell, once the
/// host has begun to read it.
pub fn runs_say_whole_transcripts()
    ensures whole { RunsSayWholeTranscripts }
    ensures read { RunsOfReadScriptsSayWholeTranscripts }
{
    the_lines_said_are_read();
    the_lines_said_are_the_trees();
    records_are_transcripts();
    read_scripts_are_numbered();
}
