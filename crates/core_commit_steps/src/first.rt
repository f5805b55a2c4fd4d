//! The first moment. The law is the contract of a public function.

ghost use Rattle.core_commit_steps.specs.First.{FirstMomentsStand};

use core_lives::room_is_kept;
use core_world::first_moments_are_worlds;

/// All that the events of lines ask beside a moment and its world stands at the first moment of a run, over a disk on which the logs of servers are zero and whose sectors with versions stand for a tree: nothing is cached or in flight,
/// no server is mounted, and nothing has been done.
pub fn first_moments_stand()
    ensures first { FirstMomentsStand }
{
    first_moments_are_worlds();
    room_is_kept();
}
