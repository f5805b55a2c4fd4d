//! Where the marks of the sectors lie that are cleared, and of those of a Commit. Each law is the contract of a public function with an empty body.

ghost use Rattle.core_line_steps.specs.Marks.{ClearsKeepEnds, CommitsKeepEnds};

use core_facts::{blocks_stay_whole, segments_are_needed_sole};
use core_laws::each_key_stands_once;
use line_locks::covers_of_set_bytes_are_found;

/// A Clear of a fresh block keeps that marks lie where the journals have operations end: its zeros are marked with the last number of the log, at which the last operation ends. It rests on this: where all
/// operations of a server are acknowledged, so is its whole log.
pub fn clears_keep_ends()
    ensures ends { ClearsKeepEnds }
{}

/// A Commit, where what it claims is cached clean, keeps it with the journal that has its record appended, where there is one, and in which its operation ends at the last number: what it makes dirty is marked with
/// that.
pub fn commits_keep_ends()
    ensures ends { CommitsKeepEnds }
{
    each_key_stands_once();
    blocks_stay_whole();
    segments_are_needed_sole();
    covers_of_set_bytes_are_found();
}
