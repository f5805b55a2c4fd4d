//! A moment at which what the laws ask is met.

ghost use Rattle.core_lives.specs.Examples.{RootsAreRead};

use crate::steps::steps_go_on;
use core_world::first_moments_are_worlds;

/// At the first moment over a disk of zeros, without lines, the host reads the root's inode: it is a moment of a run with a good world of sixteen servers, cleared blocks are free and logs
/// have room, and the step goes on.
pub fn a_root_is_read()
    ensures read { RootsAreRead }
{
    first_moments_are_worlds();
    steps_go_on();
}
