//! The events of a line at a moment of a run. Each law is the contract of a public function with an empty body.

ghost use Rattle.core_commits.specs.Moments.{ClearsOfLinesAreEvents, CommitsOfLinesKeepTies, CommitsOfLinesMayBeDone, FetchesOfLinesAreEvents, FinishedLinesAreDone, FirstMomentsAreOfARun};

use core_facts::{blocks_stay_whole, segments_are_needed_sole};
use core_laws::each_key_stands_once;
use core_world::first_moments_are_worlds;
use line_locks::covers_of_set_bytes_are_found;

/// The first moment of a run is such a moment, over a disk with zero logs of the servers whose sectors with versions stand for a tree.
pub fn runs_of_lines_begin()
    ensures first { FirstMomentsAreOfARun }
{
    first_moments_are_worlds();
}

/// At a moment of a run, over a disk whose sectors behind the logs have 512 bytes, whose world has a history of lines, a Fetch by a server that is up is an event, and so is a Clear. They rest on these: the
/// segments of sets are of the disk; a line that has a block cleared may be asked and has a new number; and where all operations of a server are acknowledged, so is its whole log.
pub fn fetches_and_clears_of_lines_are_events()
    ensures fetch { FetchesOfLinesAreEvents }
    ensures clear { ClearsOfLinesAreEvents }
{
    each_key_stands_once();
    blocks_stay_whole();
    segments_are_needed_sole();
}

/// At such a moment the line of a Commit is an outcome over the logical sectors, and where what it claims is cached clean, Fetch of each claimed sector and then Do of its operation are a run of events. It rests on
/// these: the segments of sets are of the disk; and the line may be asked, and has a new number, above those of its server. What the core finishes is this operation; and where the servers of writes in place of
/// present mounts hold their covers alone, caches and writes in flight are those of the next moment after it.
pub fn commits_of_lines_may_be_done()
    ensures commit { CommitsOfLinesMayBeDone }
    ensures done { FinishedLinesAreDone }
    ensures kept { CommitsOfLinesKeepTies }
{
    each_key_stands_once();
    blocks_stay_whole();
    segments_are_needed_sole();
    covers_of_set_bytes_are_found();
}
