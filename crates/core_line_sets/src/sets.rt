//! The segments of sets. Each law is the contract of a public function with an empty body.

ghost use Rattle.core_line_sets.specs.Sets.{SetsStayOfTheDisk};

use core_facts::blocks_stay_whole;
use core_laws::each_key_stands_once;

/// At a moment of a run, where each line whose set grows is numbered, each step keeps that the segments of sets are of the disk: a set grows by the cover of a sector that its plan needs, by the next segment, by the
/// segments of a block that is cleared and of a new node, and by those of edits, or, where nothing was free, by those that are held.
pub fn sets_stay_of_the_disk()
    ensures sets { SetsStayOfTheDisk }
{
    each_key_stands_once();
    blocks_stay_whole();
}
