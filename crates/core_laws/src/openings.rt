//! The disk behind the opening, over which a run begins. Each law is the contract of a public function with an empty body.

ghost use Rattle.core_laws.specs.Openings.{FreshDisksArePut, ImagesArePut, LogsReadAsZero};

/// Behind its puts a fresh disk has its parameters, its first segment and the root's inode, and zeros elsewhere; the disk of an image has what its replayed disk
/// has, but for the parameters, which are of the newest format and of the next run. Each log reads as zero.
pub fn the_opening_puts_the_disk()
    ensures fresh { FreshDisksArePut }
    ensures image { ImagesArePut }
    ensures logs { LogsReadAsZero }
{}
